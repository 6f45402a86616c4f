// Writing items into a slice.
ghost use Rattle.std.specs.Prelude.{◌≡◌, ◌+◌, ◌≤◌, ◌++◌, length, take, drop};

// Writes items from a place on.
pub(crate) fn put<T: Copy>(into: &mut [T], at: usize, items: &[T])
    requires { at + length items.now ≤ length into.old }
    ensures { into.new ≡ take at into.old ++ (items.now ++ drop (at + length items.now) into.old) }
{
    into[at..at + items.len()].copy_from_slice(items);
}
