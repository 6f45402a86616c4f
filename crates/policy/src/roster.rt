// Up to sixteen tenants, by number.
ghost use Rattle.std.specs.Prelude.{◌≡◌, ◌≤◌, length, ⊤};

use std::alloc::AllocError;

// Kept as an array and a count: a choice always answers, so a policy takes no memory on its way.
/// The policy of up to sixteen tenants of one kind, numbered from 0 in the order in which they came,
/// with what they have in common.
pub struct Roster<T, C = ()> {
    pub(crate) common: C,
    pub(crate) count: u8,
    pub(crate) tenants: [T; 16],
    ghost few: { count ≤ 16 },
    ghost room: { length tenants ≡ 16 },
}

// Kept by hand: no derive of Clone fits a struct with ghost fields and a type parameter.
impl<T: Copy, C: Copy> Clone for Roster<T, C> {
    ghost is_clone = { λ roster copy. copy ≡ roster };

    ghost is_infallible = { λ _. ⊤ };

    fn clone(&self) -> Result<Roster<T, C>, AllocError> {
        Ok(*self)
    }
}

impl<T: Copy, C: Copy> Copy for Roster<T, C> {}
