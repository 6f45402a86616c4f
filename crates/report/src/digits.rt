// Bytes written as pairs of hexadecimal digits.
ghost use Rattle.std.specs.Prelude.{◌≡◌, ◌⊎◌, IfOk, IfErr, Ok, Err};
ghost use Rattle.hex.specs.Hex.{decode_of};
ghost use Rattle.std.specs.List.{list_all};
ghost use Rattle.report.specs.Digits.{is_digit, digits_said};
ghost use Rattle.report.specs.declared.digits.DigitsFault.TheVariants.{OutOfMemory};

use std::alloc::{AllocError, Global};
use std::error::Error;
use std::fmt;

/// Why digits say no bytes.
#[derive(Clone, Copy, Debug, PartialEq, Eq)]
pub enum DigitsFault {
    /// In a pair stands something else than the digits 0 to 9 and a to f.
    NoDigit,
    /// The last digit stands alone.
    HalfByte,
    /// There is no memory for the bytes.
    OutOfMemory,
}

impl fmt::Display for DigitsFault {
    fn fmt<W: fmt::Write>(&self, f: &mut fmt::Formatter<W>) -> fmt::Result {
        match self {
            DigitsFault::NoDigit => write!(f, "not a hexadecimal digit"),
            DigitsFault::HalfByte => write!(f, "half a byte"),
            DigitsFault::OutOfMemory => write!(f, "{AllocError}"),
        }
    }
}

impl Error for DigitsFault {}

/// Are all of these the digits 0 to 9 and a to f?
fn are_digits(bytes: &[u8]) -> bool
    ensures { result ≡ list_all is_digit bytes.now }
{
    bytes
        .iter()
        .all(|byte| matches!(byte, b'0'..=b'9' | b'a'..=b'f'))
}

/// Are these pairs of hexadecimal digits, with no capital letter? Else the first pair that is none is told before a digit that stands alone.
pub fn check_digits(digits: &str) -> Result<(), DigitsFault>
    ensures { result ≡ digits_said digits.now }
{
    let digits = digits.as_bytes();
    let alone = digits.len() % 2;
    if !are_digits(&digits[..digits.len() - alone]) {
        return Err(DigitsFault::NoDigit);
    }
    if alone != 0 {
        return Err(DigitsFault::HalfByte);
    }
    Ok(())
}

/// The bytes that pairs of hexadecimal digits say.
pub fn bytes_of(heap: Global, digits: &str) -> Result<Vec<u8>, DigitsFault>
    ensures bytes { IfOk result (λ bytes. (digits_said digits.now ≡ Ok tt) × (decode_of digits.now ≡ Ok bytes.items)) }
    ensures fault { IfErr result (λ e. (e ≡ OutOfMemory) ⊎ (digits_said digits.now ≡ Err e)) }
{
    check_digits(digits)?;
    hex::decode(heap, digits).map_err(|_| DigitsFault::OutOfMemory)
}
