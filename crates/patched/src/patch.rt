// One line of the script that patches: `=`, a name, and numbers.
use cases::lines::lines_of;
use cases::texts::put_entry;
use cases::words::{MISSING, first, nth, part};

// The line patches what has this name.
pub fn names(line: &[u8], name: &str) -> bool {
    line.strip_prefix(b"=")
        .and_then(|named| named.strip_prefix(name.as_bytes()))
        .is_some_and(|numbers| first(numbers) == b' ')
}

// The second number of a line; 0 where the type doesn't hold it.
pub fn unsigned<T: TryFrom<usize> + Default + Drop>(line: &[u8]) -> T
where
    T::Error: Drop,
{
    T::try_from(nth(line, 1).unwrap_or(MISSING)).unwrap_or_default()
}

// The same under its sign; the least where it is below that.
pub fn signed(line: &[u8]) -> i64 {
    let n = nth(line, 1).unwrap_or(MISSING);
    if line.contains(&b'-') {
        return i64::try_from(n).map_or(i64::MIN, |z| -z);
    }
    i64::try_from(n).unwrap_or(0)
}

// Sets the entry at the first number of each line that patches the table of this name.
pub fn patch<T: Drop, V: Fn(&[u8]) -> T>(table: &mut [T], name: &str, lines: &[u8], value: V)
    requires { V.IsAlwaysCallable value }
{
    for line in lines_of(lines) {
        if names(line.text, name) {
            set(table, nth(line.text, 0), value(line.text));
        }
    }
}

fn set<T: Drop>(table: &mut [T], place: Option<usize>, value: T) {
    if let Some(entry) = place.and_then(|place| table.get_mut(place)) {
        *entry = value;
    }
}

// `@`, a place of five digits, and what is put there.
fn patch_text(text: &mut [u8], line: &[u8]) {
    if first(line) == b'@' {
        let place = nth(part(line, 0, 6), 0).unwrap_or(MISSING);
        put_entry(text, place, part(line, 6, line.len()));
    }
}

// Patches bytes of the carried lines.
pub fn patch_texts(text: &mut [u8], lines: &[u8]) {
    for line in lines_of(lines) {
        patch_text(text, line.text);
    }
}
