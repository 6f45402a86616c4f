// Small markets: where they settle, what the check tells, and their rotations.
use crate::given::{ring, shared, spare};
use fleet::Move;
use matching::{Farm, Placement, Situation, Staffing};
use rotation::{lowest_on_rotation, rotation_of};
use std::test::Fail;

/// The placement of the first workers, and nobody else.
fn placed(first: &[u8]) -> Placement {
    let mut places = [255; 64];
    for (place, tenant) in places.iter_mut().zip(first) {
        *place = *tenant;
    }
    Placement::new(places)
}

/// The move of a worker from its tenant to its next one.
fn going(worker: u8, from: u8, to: u8) -> Move {
    Move { worker, from, to }
}

#[test]
fn two_workers_swap_tenants(rt: HostRuntime) -> Result<(), Fail> {
    let (lists, policy) = ring()?;
    let farm = Farm {
        lists: &lists,
        policy: &policy,
    };
    let settled = farm.settle();
    assert_eq!(rt; settled.rounds, 2);
    assert!(rt; settled.placement == placed(&[0, 1]));
    let before = Situation {
        farm: &farm,
        staffing: &Staffing::new(settled.placement),
    };
    assert_eq!(rt; lowest_on_rotation(&before), Some(0));
    let Some(moves) = rotation_of(&before, 0) else {
        return Err(Fail::new("worker 0 is on a rotation"));
    };
    assert!(rt; moves.as_slice() == [going(0, 0, 1), going(1, 1, 0)].as_slice());
    let after = Situation {
        farm: &farm,
        staffing: &Staffing::new(moves.applied_to(&settled.placement)),
    };
    assert!(rt; after.staffing.placement == placed(&[1, 0]));
    assert_eq!(rt; lowest_on_rotation(&after), None);
    Ok(())
}

#[test]
fn the_check_tells_the_first_fault(rt: HostRuntime) -> Result<(), Fail> {
    let (lists, policy) = ring()?;
    let farm = Farm {
        lists: &lists,
        policy: &policy,
    };
    assert_eq!(rt; farm.check(&placed(&[1, 0]).places), (0, 0, 0));
    assert_eq!(rt; farm.check(&placed(&[0, 1, 1]).places), (30, 2, 1));
    assert_eq!(rt; farm.check(&placed(&[0, 1, 0]).places), (31, 2, 0));
    assert_eq!(rt; farm.check(&placed(&[0]).places), (32, 1, 1));
    Ok(())
}

#[test]
fn a_step_that_puts_nobody_out_ends_the_walk(rt: HostRuntime) -> Result<(), Fail> {
    let (lists, policy) = spare()?;
    let farm = Farm {
        lists: &lists,
        policy: &policy,
    };
    let settled = Situation {
        farm: &farm,
        staffing: &Staffing::new(farm.settle().placement),
    };
    assert!(rt; settled.staffing.placement == placed(&[0, 2]));
    assert_eq!(rt; settled.step(0), Some(1));
    assert_eq!(rt; settled.successor(0), None);
    assert_eq!(rt; settled.displacement(1), Some((0, 0)));
    assert!(rt; rotation_of(&settled, 0).is_none());
    Ok(())
}

#[test]
fn a_worker_that_leads_into_a_rotation_is_on_none(rt: HostRuntime) -> Result<(), Fail> {
    let (lists, policy) = shared()?;
    let farm = Farm {
        lists: &lists,
        policy: &policy,
    };
    let settled = Situation {
        farm: &farm,
        staffing: &Staffing::new(farm.settle().placement),
    };
    assert!(rt; rotation_of(&settled, 0).is_none());
    let Some(first) = rotation_of(&settled, 1) else {
        return Err(Fail::new("worker 1 is on a rotation"));
    };
    assert!(rt; first.as_slice() == [going(1, 0, 2), going(3, 2, 0)].as_slice());
    let after = Situation {
        farm: &farm,
        staffing: &Staffing::new(first.applied_to(&settled.staffing.placement)),
    };
    let Some(second) = rotation_of(&after, 0) else {
        return Err(Fail::new("worker 0 is on a rotation now"));
    };
    assert!(rt; second.as_slice() == [going(0, 0, 1), going(2, 1, 0)].as_slice());
    Ok(())
}
