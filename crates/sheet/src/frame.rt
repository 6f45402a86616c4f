// A field as it is cut out.

// Kept without its bound: anyone may put a frame together, so that one which was cut out fits 63 bits is said by the calls that cut.
/// A field as the part of the input that it is: its tag, its content, and the offset of its first byte.
#[derive(Clone, Copy, PartialEq, Eq, Debug)]
pub struct Frame<'a> {
    pub tag: u8,
    pub at: usize,
    pub content: &'a [u8],
}
