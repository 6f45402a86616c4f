// What is answered to whoever asks for the rotations of a sheet or for a verdict on a placement, as it is printed.
use crate::input::{Unread, read_input};
use fleet::Move;
use hex::{FromHex, FromHexError};
use matching::{Farm, Situation, Staffing};
use rotation::rotation_of;
use sheet::sheet::Sheet;
use std::fmt;

/// What is asked of a sheet: by the word `rotations` those at its settled placement, each at its lowest worker and on a line;
/// else the verdict on a placement, of which the hexadecimal digits of 64 bytes are given.
#[derive(Clone, Copy, Debug)]
pub struct Asked<'a> {
    pub sheet: &'a [u8],
    pub asked: &'a str,
}

impl fmt::Display for Asked<'_> {
    fn fmt<W: fmt::Write>(&self, f: &mut fmt::Formatter<W>) -> fmt::Result {
        let read = read_input(self.sheet);
        if self.asked != "rotations" {
            return write_verdict(f, read, self.asked);
        }
        match read {
            Ok(sheet) => write_rotations(f, &sheet),
            Err(_) => write!(f, "no sheet"),
        }
    }
}

/// Writes the verdict on the placement that digits say; there is none without a sheet and 64 bytes, and it is an error where they are no pairs of digits.
fn write_verdict<W: fmt::Write>(
    f: &mut fmt::Formatter<W>,
    read: Result<Sheet, Unread>,
    digits: &str,
) -> fmt::Result {
    if !digits
        .as_bytes()
        .iter()
        .all(|byte| byte.is_ascii_hexdigit())
    {
        return Err(fmt::Error);
    }
    let placed = match <[u8; 64]>::from_hex(digits) {
        Ok(places) => Some(places),
        Err(FromHexError::InvalidStringLength) => None,
        Err(_) => return Err(fmt::Error),
    };
    let (Ok(sheet), Some(places)) = (read, placed) else {
        return write!(f, "no verdict");
    };
    let lists = sheet.lists();
    let policy = sheet.policy();
    let farm = Farm {
        lists: &lists,
        policy: &policy,
    };
    let (number, worker, tenant) = farm.check(&places);
    write!(f, "{number} {worker} {tenant}")
}

/// Writes the rotations of a sheet.
// Kept in both: a farm lends the lists and the policy that stand in the function.
fn write_rotations<W: fmt::Write>(f: &mut fmt::Formatter<W>, sheet: &Sheet) -> fmt::Result {
    let lists = sheet.lists();
    let policy = sheet.policy();
    let farm = Farm {
        lists: &lists,
        policy: &policy,
    };
    let staffing = Staffing::new(farm.settle().placement);
    let situation = Situation {
        farm: &farm,
        staffing: &staffing,
    };
    // Kept: the line end goes before each rotation but the first, as what is printed ends with none.
    let mut line_end = "";
    // Kept: by number, since it is a worker's number that is asked about.
    for worker in 0..lists.workers() {
        if let Some(rotation) = rotation_of(&situation, worker) {
            let moves = rotation.as_slice();
            if moves.first().is_some_and(|first| first.worker == worker) {
                write!(f, "{line_end}")?;
                write_moves(f, moves)?;
                line_end = "\n";
            }
        }
    }
    if line_end.is_empty() {
        write!(f, "none")?;
    }
    Ok(())
}

/// Writes the moves of a rotation on one line.
fn write_moves<W: fmt::Write>(f: &mut fmt::Formatter<W>, moves: &[Move]) -> fmt::Result {
    write!(f, "rotation")?;
    for Move { worker, from, to } in moves {
        write!(f, " {worker} {from}>{to}")?;
    }
    Ok(())
}
