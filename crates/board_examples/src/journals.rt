// Events added to a journal and read back, and journals that are damaged.
use crate::given::event;
use fleet::Event;
use journal::{AddRefusal, EventReader, JournalFault, add};

/// What a reader answered: an event or the end, or the number and the place of a fault.
fn seen(found: Result<Option<Event>, JournalFault>) -> Result<Option<Event>, (u8, usize)> {
    found.map_err(|fault| (fault.report().number, fault.report().at))
}

/// What is answered at the first byte of a journal.
fn first(bytes: &[u8]) -> Result<Option<Event>, (u8, usize)> {
    let mut reader = EventReader::new(bytes);
    seen(reader.next())
}

#[test]
fn added_events_are_read(rt: HostRuntime) {
    let mut buffer = [9; 32];
    assert_eq!(rt; add(&mut buffer, 0, event(258, 1, 63, 0, 15)), Ok(15));
    assert!(rt; buffer[0..15] == [7, 12, 0, 2, 1, 0, 0, 0, 0, 0, 0, 1, 63, 0, 15]);
    assert_eq!(rt; add(&mut buffer, 15, event(u64::MAX, 4, 0, 15, 0)), Ok(30));
    let mut reader = EventReader::new(&buffer[0..30]);
    assert_eq!(rt; seen(reader.next()), Ok(Some(event(258, 1, 63, 0, 15))));
    assert_eq!(rt; reader.place(), 15);
    assert_eq!(rt; seen(reader.next()), Ok(Some(event(u64::MAX, 4, 0, 15, 0))));
    assert_eq!(rt; seen(reader.next()), Ok(None));
    assert_eq!(rt; seen(reader.next()), Ok(None));
    assert_eq!(rt; reader.place(), 30);
}

#[test]
fn refused_events_are_not_written(rt: HostRuntime) {
    let mut buffer = [9; 16];
    let out_of_range = Err(AddRefusal::OutOfRange);
    assert_eq!(rt; add(&mut buffer, 2, event(1, 0, 0, 0, 0)), out_of_range);
    assert_eq!(rt; add(&mut buffer, 0, event(1, 5, 0, 0, 0)), out_of_range);
    assert_eq!(rt; add(&mut buffer, 0, event(1, 1, 64, 0, 0)), out_of_range);
    assert_eq!(rt; add(&mut buffer, 0, event(1, 1, 0, 16, 0)), out_of_range);
    assert_eq!(rt; add(&mut buffer, 17, event(1, 1, 0, 0, 16)), out_of_range);
    assert_eq!(rt;
        add(&mut buffer, 2, event(1, 1, 0, 0, 0)),
        Err(AddRefusal::NoRoom)
    );
    assert_eq!(rt;
        add(&mut buffer, 17, event(1, 1, 0, 0, 0)),
        Err(AddRefusal::NoRoom)
    );
    assert!(rt; buffer == [9; 16]);
    assert_eq!(rt; add(&mut buffer, 1, event(1, 1, 0, 0, 0)), Ok(16));
}

#[test]
fn damaged_journals_have_faults(rt: HostRuntime) {
    let good = [7, 12, 0, 5, 0, 0, 0, 0, 0, 0, 0, 1, 2, 3, 4];
    assert_eq!(rt; first(&good), Ok(Some(event(5, 1, 2, 3, 4))));
    assert_eq!(rt; first(&good[0..14]), Err((10, 0)));
    assert_eq!(rt; first(&[8, 1, 0, 0]), Err((11, 0)));
    assert_eq!(rt; first(&[7, 1, 0, 0]), Err((12, 0)));
    let mut bad = good;
    bad[14] = 16;
    assert_eq!(rt; first(&bad), Err((13, 14)));
    bad[11] = 0;
    assert_eq!(rt; first(&bad), Err((13, 11)));
}

#[test]
fn faults_stay(rt: HostRuntime) {
    let journal = [
        7, 12, 0, 5, 0, 0, 0, 0, 0, 0, 0, 1, 2, 3, 4, 7, 12, 0, 6, 0, 0, 0, 0, 0, 0, 0, 1, 64, 3, 4,
    ];
    let mut reader = EventReader::new(&journal);
    assert_eq!(rt; seen(reader.next()), Ok(Some(event(5, 1, 2, 3, 4))));
    assert_eq!(rt; seen(reader.next()), Err((13, 27)));
    assert_eq!(rt; seen(reader.next()), Err((13, 27)));
    assert_eq!(rt; reader.place(), 15);
}
