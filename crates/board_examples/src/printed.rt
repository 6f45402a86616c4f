// Digits that are read, and a plan that is printed.
use crate::given::event;
use plans::Plan;
use report::{DigitsFault, Settlement, bytes_of, check_digits};
use std::test::Fail;

#[test]
fn pairs_of_digits_are_bytes(rt: HostRuntime) -> Result<(), Fail> {
    let bytes = bytes_of(rt.alloc(), "00ff7a")?;
    assert!(rt; bytes.as_slice() == [0, 255, 122].as_slice());
    assert!(rt; bytes_of(rt.alloc(), "")?.is_empty());
    Ok(())
}

#[test]
fn other_digits_are_refused(rt: HostRuntime) {
    assert_eq!(rt; check_digits("09af"), Ok(()));
    assert_eq!(rt; check_digits("0g"), Err(DigitsFault::NoDigit));
    assert_eq!(rt; check_digits("AB"), Err(DigitsFault::NoDigit));
    assert_eq!(rt; check_digits("0"), Err(DigitsFault::HalfByte));
    assert_eq!(rt; check_digits("G"), Err(DigitsFault::HalfByte));
    assert_eq!(rt; check_digits("0g0"), Err(DigitsFault::NoDigit));
}

#[test]
fn an_unknown_kind_is_printed_as_the_last(rt: HostRuntime) -> Result<(), Fail> {
    let plan = Plan {
        settlement: Settlement {
            workers: 1,
            rounds: 2,
            places: [255; 64],
        },
        log: [event(5, 9, 0, 1, 0); 1440],
        events: 1,
        next: 6,
    };
    let text = format!(in rt.alloc(); "{plan}")?;
    assert_eq!(rt;
        text.as_str(),
        "rounds 2\nworker 0 none\nevent 5 rewind worker 0 from 1 to 0\nend 6"
    );
    Ok(())
}
