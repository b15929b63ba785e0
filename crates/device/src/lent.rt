// Reading a lent list.
ghost use Rattle.std.specs.Prelude.{◌≡◌, slice_index};

// The cell at a place; 0 beyond the list's end.
pub fn cell_at(list: &[u16], at: u16) -> u16
    ensures { result ≡ slice_index list.now at }
{
    list.get(at as usize).copied().unwrap_or(0)
}
