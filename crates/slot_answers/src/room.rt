// Whether there is room for a column.
ghost use Rattle.std.specs.Prelude.{◌≡◌, ◌&&◌, leb};

// So many answers fit two buffers of these lengths.
pub fn has_room(rows: usize, kinds: usize, floats: usize) -> bool
    ensures { result ≡ (leb rows kinds && leb rows floats) }
{
    rows <= kinds && rows <= floats
}
