// What is told of a column.
ghost use Rattle.std.specs.Prelude.{◌≡◌};
ghost use Rattle.slot_answers.specs.Handed.{told, column_meant};

use crate::{Reply, Unanswered};

impl From<Result<usize, Unanswered>> for Reply {
    // So many rows are answered, or why none are.
    fn from(answered: Result<usize, Unanswered>) -> Reply
        ensures { result ≡ told (column_meant answered) }
    {
        let (number, count) = match answered {
            Ok(count) => (0, count),
            Err(Unanswered::NoText) => (20, 0),
            Err(Unanswered::NoRoom) => (16, 0),
        };
        Reply { number, count }
    }
}
