// Journals read and written, printed as the independent program prints them.
use anyhow::Context;
use fleet::Event;
use journal::{EventReader, add};
use std::alloc::Global;
use std::io;

// Kept: a buffer and how much of it is used, as whoever adds to a journal has them.
/// A journal that is being written: its buffer, and how many bytes of it are used.
#[derive(Drop)]
pub(crate) struct Written {
    buffer: Vec<u8>,
    used: usize,
}

impl Written {
    /// An empty journal with room for so many bytes.
    pub(crate) fn with_room(heap: Global, room: usize) -> anyhow::Result<Written> {
        Ok(Written {
            buffer: vec![in heap; 0; room]?,
            used: 0,
        })
    }

    /// Adds the event that five numbers say, and prints the answer and the bytes of the journal.
    pub(crate) fn add(&mut self, rt: &HostRuntime, numbers: &str) -> anyhow::Result<()> {
        let event = event_of(numbers)?;
        match add(self.buffer.as_mut_slice(), self.used, event) {
            Ok(used) => {
                self.used = used;
                print!(rt; "accepted {used} ")?;
            }
            Err(refusal) => print!(rt; "refused {} ", refusal.number())?,
        }
        for byte in self.buffer.iter().take(self.used) {
            print!(rt; "{byte:02x}")?;
        }
        Ok(println!(rt; "")?)
    }
}

/// The events of a journal, and its end or its fault.
pub(crate) fn print_journal(rt: &HostRuntime, bytes: &[u8]) -> io::Result<()> {
    let mut reader = EventReader::new(bytes);
    // Kept: a count of rounds, since each event takes 15 bytes and a reader may be asked again at its end.
    for _ in 0..bytes.len() / 15 + 1 {
        match reader.next() {
            Ok(Some(event)) => print_event(rt, event)?,
            Ok(None) => return println!(rt; "end {}", reader.place()),
            Err(fault) => return println!(rt; "{}", fault.report()),
        }
    }
    Ok(())
}

/// An event on one line, all in numbers.
fn print_event(rt: &HostRuntime, event: Event) -> io::Result<()> {
    let Event {
        number,
        kind,
        worker,
        from,
        to,
    } = event;
    println!(rt; "event {number} {kind} {worker} {from} {to}")
}

// Kept: `Event` is not this crate's, so it cannot have its `FromStr` here.
/// The event that five numbers say: its number, kind, worker, from and to.
fn event_of(numbers: &str) -> anyhow::Result<Event> {
    let mut words = numbers.split(' ');
    let number = words.next().context("no number")?.parse::<u64>()?;
    let kind = words.next().context("no kind")?.parse::<u8>()?;
    let worker = words.next().context("no worker")?.parse::<u8>()?;
    let from = words.next().context("no tenant")?.parse::<u8>()?;
    let to = words.next().context("no second tenant")?.parse::<u8>()?;
    Ok(Event {
        number,
        kind,
        worker,
        from,
        to,
    })
}
