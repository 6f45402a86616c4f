// Where a reader of fields stands in its input.
ghost use Rattle.std.specs.Prelude.{ℕ, ◌<◌, ◌≤◌, length, slice_index};

/// Walks over the bytes of a sheet, field by field.
#[derive(Clone, Copy)]
pub struct Reader<'a> {
    pub(crate) bytes: &'a [u8],
    pub(crate) place: usize,
    ghost within: { place ≤ length bytes.now },
    ghost octets: { (k : ℕ) → slice_index bytes.now k < 256 },
}
