// Reads cases, one to a line as pairs of hexadecimal digits, and prints what each comes to: an input of the program `place`; a
// sheet and, behind a space, a placement of 64 bytes to be checked; or a sheet and the word `rotations`, for those at its settled placement.
#![tactic(auto)]

use report::{Asked, Told, bytes_of, check_digits, settled};
use std::io;
use std::io::{BufRead, BufReader};

/// One case.
fn try_case(rt: &HostRuntime, line: &str) -> anyhow::Result<()> {
    let Some((sheet, asked)) = line.split_once(' ') else {
        let bytes = bytes_of(rt.alloc(), line)?;
        return Ok(println!(rt; "{}", Told(settled(bytes.as_slice())))?);
    };
    let bytes = bytes_of(rt.alloc(), sheet)?;
    if asked != "rotations" {
        check_digits(asked)?;
    }
    let sheet = bytes.as_slice();
    Ok(println!(rt; "{}", Asked { sheet, asked })?)
}

fn main(rt: HostRuntime) -> anyhow::Result<()> {
    let lines = BufReader::new(rt.alloc(), rt.stdin())?.lines(rt.alloc());
    for (number, line) in lines.enumerate() {
        println!(rt; "case {number}")?;
        try_case(&rt, line?.as_str())?;
    }
    Ok(())
}
