// The bytes of one event, and the ranges of its numbers.
ghost use Rattle.std.specs.Prelude.{◌≡◌, length};
ghost use Rattle.journal.specs.Events.{encode, event_of as defined_event_of, in_range, outside};

use fleet::Event;

/// The offset in its field of the first number of an event that is outside its range: kind 1 to 4, worker below 64, tenants below 16.
pub(crate) fn first_outside(event: Event) -> Option<usize>
    ensures { result ≡ outside event }
{
    // Kept: ranges for the kind too, as all four numbers are looked at alike, each at its offset.
    match event {
        Event { kind: 0 | 5.., .. } => Some(11),
        Event { worker: 64.., .. } => Some(12),
        Event { from: 16.., .. } => Some(13),
        Event { to: 16.., .. } => Some(14),
        _ => None,
    }
}

/// Are the numbers of an event in range?
pub(crate) fn is_in_range(event: Event) -> bool
    ensures { result ≡ in_range event }
{
    first_outside(event).is_none()
}

/// The bytes of an event.
pub(crate) fn bytes_of(event: Event) -> [u8; 15]
    ensures { result ≡ encode event }
{
    let mut bytes = [0; 15];
    bytes[0..3].copy_from_slice(&[7, 12, 0]);
    bytes[3..11].copy_from_slice(&event.number.to_le_bytes());
    bytes[11..15].copy_from_slice(&[event.kind, event.worker, event.from, event.to]);
    bytes
}

/// The event that the content of a field says.
pub(crate) fn event_of(content: &[u8]) -> Event
    requires { length content.now ≡ 12 }
    ensures { result ≡ defined_event_of content.now }
{
    let number = <[u8; 8]>::try_from(&content[0..8]).unwrap();
    Event {
        number: u64::from_le_bytes(number),
        kind: content[8],
        worker: content[9],
        from: content[10],
        to: content[11],
    }
}
