// Boards of two small sheets: drains, moves, the way back, and every refusal.
use crate::given::{self, event};
use board::{Board, Refusal, Ticket};
use fleet::Event;
use policy::Ranked;
use std::test::Fail;

/// A board of the ring.
fn ring(first: u64) -> Result<Board<Ranked>, Fail> {
    let (lists, tenants) = given::ring()?;
    Ok(Board::make(lists, tenants, first).0)
}

/// A board of the market where two share a tenant.
fn shared() -> Result<Board<Ranked>, Fail> {
    let (lists, tenants) = given::shared()?;
    Ok(Board::make(lists, tenants, 1).0)
}

/// A slip with nothing on it.
fn empty_slip() -> [Event; 64] {
    [Event::default(); 64]
}

/// The number of a refusal, 0 for none.
fn refused(answer: Result<u8, Refusal>) -> u8 {
    answer.map_or_else(Refusal::number, |_| 0)
}

/// Opens for a worker and withdraws: the number of the refusal to open, 0 for none.
fn try_open(board: &mut Board<Ranked>, worker: u8) -> u8 {
    let mut slip = empty_slip();
    let (opened, ticket) = board.open(worker, &mut slip);
    let _ = board.withdraw(ticket);
    refused(opened)
}

/// Opens for a worker and commits: the slip of the commit.
fn turn(board: &mut Board<Ranked>, worker: u8) -> [Event; 64] {
    let mut slip = empty_slip();
    let (_, ticket) = board.open(worker, &mut slip);
    let _ = board.commit(ticket, &mut slip);
    slip
}

#[test]
fn the_ring_turns_once(rt: HostRuntime) -> Result<(), Fail> {
    let mut board = ring(1)?;
    let mut drained = empty_slip();
    let mut moved = empty_slip();
    let (opened, ticket) = board.open(0, &mut drained);
    let number = ticket.number();
    let committed = board.commit(ticket, &mut moved);
    assert_eq!(rt; opened, Ok(1));
    assert_eq!(rt; number, Some(1));
    assert_eq!(rt; drained[0], event(1, 1, 0, 0, 1));
    assert_eq!(rt; committed, Ok(2));
    assert_eq!(rt; moved[0], event(2, 2, 0, 0, 1));
    assert_eq!(rt; moved[1], event(3, 2, 1, 1, 0));
    assert_eq!(rt; board.next_number(), 4);
    // Kept: by number, the ring's three workers, and one that there is not.
    for worker in 0..4 {
        assert_eq!(rt; try_open(&mut board, worker), 40);
    }
    Ok(())
}

#[test]
fn the_ring_goes_back(rt: HostRuntime) -> Result<(), Fail> {
    let mut board = ring(1)?;
    turn(&mut board, 1);
    let mut slip = empty_slip();
    assert_eq!(rt; board.back(&mut slip), Ok(2));
    assert_eq!(rt; slip[0], event(4, 3, 0, 1, 0));
    assert_eq!(rt; slip[1], event(5, 3, 1, 0, 1));
    assert_eq!(rt; refused(board.back(&mut slip)), 45);
    turn(&mut board, 1);
    assert_eq!(rt; board.rewind(&mut slip), Ok(2));
    assert_eq!(rt; slip[0], event(9, 4, 0, 1, 0));
    assert_eq!(rt; slip[1], event(10, 4, 1, 0, 1));
    assert_eq!(rt; board.standing(), 0);
    assert_eq!(rt; board.rewind(&mut slip), Ok(0));
    Ok(())
}

#[test]
fn a_drain_is_let_go_only_by_its_ticket(rt: HostRuntime) -> Result<(), Fail> {
    let mut other = ring(2)?;
    let mut board = ring(1)?;
    let mut slip = empty_slip();
    assert_eq!(rt; refused(board.commit(Ticket::blank(), &mut slip)), 42);
    let (_, others) = other.open(0, &mut slip);
    let (_, ticket) = board.open(1, &mut slip);
    let opened = try_open(&mut board, 0);
    let gone_back = board.back(&mut slip);
    let blank = board.commit(Ticket::blank(), &mut slip);
    let foreign = board.withdraw(others);
    let withdrawn = board.withdraw(ticket);
    assert_eq!(rt; opened, 41);
    assert_eq!(rt; refused(gone_back), 41);
    assert_eq!(rt; refused(blank), 43);
    assert_eq!(rt; refused(foreign), 43);
    assert_eq!(rt; withdrawn, Ok(0));
    assert!(rt; board.drain().is_none());
    assert_eq!(rt; try_open(&mut board, 0), 0);
    Ok(())
}

#[test]
fn numbers_run_short(rt: HostRuntime) -> Result<(), Fail> {
    let mut late = ring(u64::MAX - 2)?;
    assert_eq!(rt; try_open(&mut late, 0), 44);
    let mut board = ring(u64::MAX - 3)?;
    assert_eq!(rt; try_open(&mut board, 0), 0);
    Ok(())
}

#[test]
fn two_share_a_tenant(rt: HostRuntime) -> Result<(), Fail> {
    let mut board = shared()?;
    assert_eq!(rt; try_open(&mut board, 0), 40);
    let slip = turn(&mut board, 1);
    assert_eq!(rt; slip[0], event(2, 2, 1, 0, 2));
    assert_eq!(rt; slip[1], event(3, 2, 3, 2, 0));
    let slip = turn(&mut board, 0);
    assert_eq!(rt; slip[0], event(5, 2, 0, 0, 1));
    assert_eq!(rt; slip[1], event(6, 2, 2, 1, 0));
    assert_eq!(rt; board.standing(), 2);
    Ok(())
}
