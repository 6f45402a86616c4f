// A placement: which tenant each worker has.
ghost use Rattle.std.specs.Prelude.{◌≡◌, length};

// The numbers are the bytes by which a placement is checked, shown and written, so 255 stands for none here too, and not an Option.
/// The tenant of each of 64 workers, 255 for none.
#[derive(Clone, Copy, Debug, PartialEq, Eq)]
pub struct Placement {
    pub places: [u8; 64],
    ghost full: { length places ≡ 64 },
}
