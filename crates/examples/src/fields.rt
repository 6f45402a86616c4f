// Fields at the edges of the format.
use sheet::faults::FramingFault;
use sheet::framing::Frame;
use sheet::reader::Reader;
use std::test::Fail;

#[test]
fn empty_input_is_at_its_end(rt: HostRuntime) {
    let mut reader = Reader::new(&[]);
    assert_eq!(rt; reader.next(), Ok(None));
}

/// A field at any place: whoever puts one together owes nothing.
fn empty_at(at: usize) -> Frame<'static> {
    Frame {
        tag: 6,
        at,
        content: &[],
    }
}

#[test]
fn a_field_may_stand_anywhere(rt: HostRuntime) {
    assert_eq!(rt; empty_at(usize::MAX).at, usize::MAX);
    assert!(rt; empty_at(0) != empty_at(1));
}

#[test]
fn two_bytes_are_cut_off(rt: HostRuntime) {
    let mut reader = Reader::new(&[1, 0]);
    assert_eq!(rt; reader.next(), Err(FramingFault { at: 0 }));
}

#[test]
fn content_one_byte_short_is_cut_off(rt: HostRuntime) {
    let mut reader = Reader::new(&[6, 0, 0, 1, 2, 0, 3]);
    assert_eq!(rt;
        reader.next(),
        Ok(Some(Frame {
            tag: 6,
            at: 0,
            content: &[],
        }))
    );
    assert_eq!(rt; reader.next(), Err(FramingFault { at: 3 }));
    assert_eq!(rt; reader.next(), Err(FramingFault { at: 3 }));
}

#[test]
fn content_may_be_empty(rt: HostRuntime) {
    let mut reader = Reader::new(&[6, 0, 0]);
    assert_eq!(rt;
        reader.next(),
        Ok(Some(Frame {
            tag: 6,
            at: 0,
            content: &[],
        }))
    );
    assert_eq!(rt; reader.next(), Ok(None));
}

#[test]
fn the_longest_field_is_whole(rt: HostRuntime) -> Result<(), Fail> {
    let mut field = vec![in rt.alloc(); 9; 65_538]?;
    assert!(rt; field.len() == 65_538);
    field[1] = 255;
    field[2] = 255;
    let bytes = field.as_slice();
    let mut reader = Reader::new(bytes);
    assert_eq!(rt;
        reader.next(),
        Ok(Some(Frame {
            tag: 9,
            at: 0,
            content: &bytes[3..],
        }))
    );
    assert_eq!(rt; reader.next(), Ok(None));
    Ok(())
}
