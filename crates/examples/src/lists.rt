// Sets of workers, rankings and the workers' lists.
use fleet::{EventKind, Lists, ListsRefusal, Ranking, Refusal, UnknownKind, WorkerSet};
use std::test::Fail;

#[test]
fn members_come_by_rising_number(rt: HostRuntime) {
    let set = WorkerSet::empty()
        .with(40)
        .with(64)
        .with(17)
        .with(3)
        .without(17);
    let mut members = set.iter();
    assert_eq!(rt; members.next(), Some(3));
    assert_eq!(rt; members.next(), Some(40));
    assert_eq!(rt; members.next(), None);
    let mut last = None;
    for worker in set {
        last = Some(worker);
    }
    assert_eq!(rt; last, Some(40));
    assert!(rt; set == WorkerSet::from([40, 64, 3].as_slice()));
}

#[test]
fn rankings_are_made_of_numbers(rt: HostRuntime) {
    let made = Ranking::<16>::try_from([15, 0].as_slice());
    assert!(rt; made.is_ok_and(|ranking| ranking.as_slice() == [15, 0].as_slice()));
    let far = Ranking::<16>::try_from([15, 16, 15].as_slice());
    assert_eq!(rt; far.err(), Some(Refusal::OutOfRange));
    let twice = Ranking::<16>::try_from([15, 0, 15, 16].as_slice());
    assert_eq!(rt; twice.err(), Some(Refusal::Repeated));
}

#[test]
fn kinds_of_event_have_numbers(rt: HostRuntime) {
    assert_eq!(rt; EventKind::try_from(4), Ok(EventKind::Rewind));
    assert_eq!(rt; EventKind::Rewind.number(), 4);
    assert_eq!(rt; EventKind::try_from(5), Err(UnknownKind(5)));
}

#[test]
fn rankings_refuse(rt: HostRuntime) {
    let mut ranking = Ranking::<16>::empty();
    assert_eq!(rt; ranking.push(15), Ok(()));
    assert_eq!(rt; ranking.push(16), Err(Refusal::OutOfRange));
    assert_eq!(rt; ranking.push(15), Err(Refusal::Repeated));
    assert_eq!(rt; ranking.push(0), Ok(()));
    assert_eq!(rt; ranking.rank(0), 1);
    assert_eq!(rt; ranking.get(2), None);
}

#[test]
fn lists_refuse(rt: HostRuntime) -> Result<(), Fail> {
    assert_eq!(rt; Lists::new(0, 17).err(), Some(ListsRefusal::Workers));
    assert_eq!(rt; Lists::new(64, 17).err(), Some(ListsRefusal::Tenants));
    let Ok(mut lists) = Lists::new(2, 3) else {
        return Err(Fail::new("two workers and three tenants are fine"));
    };
    let mut ranking = Ranking::empty();
    assert_eq!(rt; ranking.push(3), Ok(()));
    assert_eq!(rt; lists.set(2, ranking), Err(ListsRefusal::Worker));
    assert_eq!(rt; lists.set(1, ranking), Err(ListsRefusal::Tenant));
    assert_eq!(rt; lists.list(1).len(), 0);
    Ok(())
}
