// The bytes of a sheet.
ghost use Rattle.std.specs.Prelude.{◌≡◌, ◌≤◌, length};

/// The bytes of a sheet, at most 5,624.
// They are gathered here before they are written, since a buffer that is too short stays as it was; the array has room for the longest sheet, so that writing one needs no heap.
#[derive(Clone, Copy)]
pub struct Encoded {
    pub(crate) bytes: [u8; 5624],
    pub(crate) len: usize,
    ghost size: { length bytes ≡ 5624 },
    ghost room: { len ≤ 5624 },
}
