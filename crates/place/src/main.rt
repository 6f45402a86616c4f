// Reads a sheet from standard input and prints what it comes to.
#![tactic(auto)]

use report::{LONGEST, Told, settled};
use std::io;
use std::io::Read;

fn main(rt: HostRuntime) -> io::Result<()> {
    let mut bytes = Vec::new(rt.alloc());
    rt.stdin().take(LONGEST as u64 + 1).read_to_end(&mut bytes)?;
    println!(rt; "{}", Told(settled(bytes.as_slice())))
}
