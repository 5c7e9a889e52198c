// A store; past the end of a table nothing is stored, as `set` has it.
ghost use Rattle.std.specs.Prelude.{◌≡◌, set};

pub fn put<T: Copy>(s: &mut [T], i: usize, v: T)
    ensures { s.new ≡ set s.old i v }
{
    if i < s.len() {
        s[i] = v;
    }
}
