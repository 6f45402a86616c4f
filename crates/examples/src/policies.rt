// Small policies, and what they choose.
use fleet::{Ranking, Refusal, WorkerSet};
use policy::{
    Pair, Policy, Quarantine, Ranked, Seated, TableFault, TableLaw, TableTenant, workers_of,
};
use std::test::Fail;

fn ranking(workers: &[u8]) -> Result<Ranking<64>, Refusal> {
    Ranking::try_from(workers)
}

fn set(workers: &[u8]) -> WorkerSet {
    WorkerSet::from(workers)
}

fn fault(entries: &[u8]) -> Result<Option<TableFault>, Refusal> {
    Ok(TableTenant::new(ranking(&[4, 9])?, entries).err())
}

#[test]
fn a_table_is_made_only_if_lawful(rt: HostRuntime) -> Result<(), Fail> {
    assert_eq!(rt; fault(&[0, 1, 2, 1])?, None);
    assert_eq!(rt;
        fault(&[0, 3, 2, 3])?,
        Some(TableFault::Outside { index: 1 })
    );
    assert_eq!(rt;
        fault(&[0, 0, 2, 3])?,
        Some(TableFault::Broken {
            law: TableLaw::Substitutability,
            whole: 3,
            part: 1,
        })
    );
    assert_eq!(rt;
        fault(&[0, 1, 2, 0])?,
        Some(TableFault::Broken {
            law: TableLaw::Monotonicity,
            whole: 3,
            part: 1,
        })
    );
    assert_eq!(rt; fault(&[0, 1])?, Some(TableFault::Entries));
    assert_eq!(rt; workers_of(264), Some(8));
    assert_eq!(rt; workers_of(263), None);
    Ok(())
}

#[test]
fn seats_are_kept_by_class(rt: HostRuntime) -> Result<(), Fail> {
    let mut classes = [0; 64];
    classes[0] = 1;
    classes[1] = 2;
    classes[2] = 1;
    classes[3] = 2;
    let mut seated = Seated::new(classes)?;
    seated.push(2, [0, 1, 1, 0, 0, 0, 0, 0], ranking(&[2, 3, 0, 1])?)?;
    assert!(rt; seated.choose(0, set(&[0, 1, 2, 3])) == set(&[2, 3]));
    assert!(rt; seated.choose(0, set(&[0, 1, 2])) == set(&[1, 2]));
    Ok(())
}

#[test]
fn a_cap_of_one_takes_the_best(rt: HostRuntime) -> Result<(), Fail> {
    let mut ranked = Ranked::empty();
    ranked.push(1, ranking(&[5, 0, 63])?)?;
    assert!(rt; ranked.choose(0, set(&[0, 5, 63])) == set(&[5]));
    assert!(rt; ranked.choose(0, set(&[0, 1, 63])) == set(&[0]));
    let policy = Quarantine {
        held: set(&[5]),
        below: Pair {
            first: Ranked::empty(),
            second: ranked,
        },
    };
    assert_eq!(rt; policy.count(), 1);
    assert!(rt; policy.choose(0, set(&[5, 63])) == set(&[63]));
    Ok(())
}
