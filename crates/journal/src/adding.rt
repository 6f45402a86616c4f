// Adds events to a journal in a lent buffer.
ghost use Rattle.std.specs.Prelude.{◌≡◌, ◌+◌, ◌≤◌, ◌++◌, length, take, drop};
ghost use Rattle.journal.specs.Adding.{add_told, add_answer, added};
ghost use Rattle.journal.specs.Events.{encode};
ghost use Rattle.journal.specs.Laws.{AddedIsRead, JournalIsRead};

use crate::events::{bytes_of, is_in_range};
use crate::refusal::AddRefusal;
use fleet::Event;

// Kept: a lent buffer and how much of it is used, since nothing here takes memory; whoever owns the buffer keeps both.
/// Adds an event behind the first `used` bytes of a buffer, and answers how many are used then: 15 more.
/// An event with a number out of range is refused, then one for which fewer than 15 bytes are free; nothing is written then.
pub fn add(buffer: &mut [u8], used: usize, event: Event) -> Result<usize, AddRefusal>
    ensures answer { add_told result ≡ add_answer used event buffer.old }
    ensures after { buffer.new ≡ added used event buffer.old }
    ensures again { (AddedIsRead event) × (JournalIsRead) }
{
    if !is_in_range(event) {
        return Err(AddRefusal::OutOfRange);
    }
    if used > buffer.len() || buffer.len() - used < 15 {
        return Err(AddRefusal::NoRoom);
    }
    put_behind(buffer, used, event);
    Ok(used + 15)
}

/// Writes the bytes of an event behind the first `used` bytes of a buffer that has room for them.
fn put_behind(buffer: &mut [u8], used: usize, event: Event)
    requires { used + 15 ≤ length buffer.old }
    ensures { buffer.new ≡ take used buffer.old ++ (encode event ++ drop (used + 15) buffer.old) }
{
    buffer[used..used + 15].copy_from_slice(&bytes_of(event));
}
