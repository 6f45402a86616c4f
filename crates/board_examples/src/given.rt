// The small markets and the events that the examples are about.
use fleet::{Event, Lists, Ranking};
use policy::Ranked;
use std::test::Fail;

/// Lists of these tenants, a list to each worker, and so many tenants.
fn lists_of(tenants: u8, lists: &[&[u8]]) -> Result<Lists, Fail> {
    let mut made = Lists::new(lists.len().min(64) as u8, tenants)?;
    for (worker, list) in (0..64).zip(lists) {
        made.set(worker, Ranking::try_from(*list)?)?;
    }
    Ok(made)
}

/// A tenant to each cap and list of workers.
fn ranked(tenants: &[(u8, &[u8])]) -> Result<Ranked, Fail> {
    let mut made = Ranked::empty();
    for (cap, list) in tenants {
        made.push(*cap, Ranking::try_from(*list)?)?;
    }
    Ok(made)
}

/// Worker 0 and worker 1 each have the other's favourite tenant, and worker 2 waits.
pub(crate) fn ring() -> Result<(Lists, Ranked), Fail> {
    Ok((
        lists_of(2, &[&[0, 1], &[1, 0], &[0]])?,
        ranked(&[(1, &[1, 0, 2]), (1, &[0, 1])])?,
    ))
}

/// Workers 0 and 1 share tenant 0, which likes workers 2 and 3 better.
pub(crate) fn shared() -> Result<(Lists, Ranked), Fail> {
    Ok((
        lists_of(3, &[&[0, 1], &[0, 2], &[1, 0], &[2, 0]])?,
        ranked(&[(2, &[2, 3, 0, 1]), (1, &[0, 2]), (1, &[1, 3])])?,
    ))
}

/// Worker 0 steps to a tenant that has room.
pub(crate) fn spare() -> Result<(Lists, Ranked), Fail> {
    Ok((
        lists_of(3, &[&[0, 1, 2], &[2, 0]])?,
        ranked(&[(1, &[1, 0]), (1, &[0]), (1, &[0, 1])])?,
    ))
}

/// An event of these numbers. Kept: the kind is a number, as some that are none are asked for.
pub(crate) fn event(number: u64, kind: u8, worker: u8, from: u8, to: u8) -> Event {
    Event {
        number,
        kind,
        worker,
        from,
        to,
    }
}
