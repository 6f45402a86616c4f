// Reads cases, one to a line with bytes as pairs of hexadecimal digits, and prints what each comes to: an input of the program `place`; a
// sheet and, behind a space, a placement of 64 bytes to be checked; a sheet and the word `rotations`, for those at its settled placement; the
// word `journal` and a journal; `room` and a number for an empty journal with room for so many bytes; `add` and the numbers of an event;
// `sheet`, a sheet and a first number for a board; or a call of that board: `open` and a worker, `commit` and `withdraw` and a ticket's number
// or `blank`, `back`, `rewind`.
#![tactic(auto)]

mod journals;
mod scripts;
mod seen;

use anyhow::Context;
use journals::{Written, print_journal};
use plans::planned;
use report::{Asked, Told, bytes_of, check_digits};
use scripts::Script;
use std::io;
use std::io::{BufRead, BufReader};

/// A case of a sheet, and what is asked of it.
fn try_sheet(rt: &HostRuntime, digits: &str, asked: &str) -> anyhow::Result<()> {
    let bytes = bytes_of(rt.alloc(), digits)?;
    if asked != "rotations" {
        check_digits(asked)?;
    }
    let sheet = bytes.as_slice();
    Ok(println!(rt; "{}", Asked { sheet, asked })?)
}

/// One case of a journal, or of a sheet.
fn try_word(rt: &HostRuntime, written: &mut Written, word: &str, rest: &str) -> anyhow::Result<()> {
    match word {
        "journal" => {
            let bytes = bytes_of(rt.alloc(), rest)?;
            Ok(print_journal(rt, bytes.as_slice())?)
        }
        "room" => {
            let room = rest.parse::<usize>()?;
            *written = Written::with_room(rt.alloc(), room)?;
            Ok(println!(rt; "room {room}")?)
        }
        "add" => written.add(rt, rest),
        _ => try_sheet(rt, word, rest),
    }
}

/// The cases so far: the journal that is being written, and the board that calls are made on.
#[derive(Drop)]
struct Trials {
    written: Written,
    script: Script,
}

impl Trials {
    /// A case of one word.
    fn try_single(&mut self, rt: &HostRuntime, word: &str, whole: bool) -> anyhow::Result<()> {
        if word == "back" || word == "rewind" {
            return self.script.step(rt, word, "", whole);
        }
        let bytes = bytes_of(rt.alloc(), word)?;
        Ok(println!(rt; "{}", Told(planned(bytes.as_slice())))?)
    }

    /// A board of a sheet and, behind a space, its first number.
    fn begin(&mut self, rt: &HostRuntime, rest: &str) -> anyhow::Result<()> {
        let (sheet, first) = rest.split_once(' ').context("no first number")?;
        let bytes = bytes_of(rt.alloc(), sheet)?;
        self.script
            .begin(rt, bytes.as_slice(), first.parse::<u64>()?)
    }

    /// One case. Of every 128th call the whole state is printed.
    fn try_case(&mut self, rt: &HostRuntime, number: usize, line: &str) -> anyhow::Result<()> {
        println!(rt; "case {number}")?;
        let whole = number % 128 == 0;
        let Some((word, rest)) = line.split_once(' ') else {
            return self.try_single(rt, line, whole);
        };
        match word {
            "sheet" => self.begin(rt, rest),
            "open" | "commit" | "withdraw" => self.script.step(rt, word, rest, whole),
            _ => try_word(rt, &mut self.written, word, rest),
        }
    }
}

fn main(rt: HostRuntime) -> anyhow::Result<()> {
    let mut trials = Trials {
        written: Written::with_room(rt.alloc(), 0)?,
        script: Script::new(rt.alloc())?,
    };
    let lines = BufReader::new(rt.alloc(), rt.stdin())?.lines(rt.alloc());
    for (number, line) in lines.enumerate() {
        trials.try_case(&rt, number, line?.as_str())?;
    }
    Ok(())
}
