//! Files loaded into a program's tables, and settled.
use codec::numbers::NumberFault;
use console::Tables;
use examples::POLLS;
use intake::settle;
use modelfile::faults::FileFault;
use modelfile::reading;
use models::Model;
use std::test::Fail;

#[test]
fn polls_loaded(rt: HostRuntime) -> Result<(), Fail> {
    let mut tables = Tables::new(rt.alloc())?;
    let mut lent = tables.lend();
    let loaded = reading::load(&POLLS, &mut lent).ok().expect(&rt, "a model");
    let model = lent.model(loaded);
    assert_eq!(rt; model.size(), 5);
    assert_eq!(rt; model.targets, [1, 2, 2, 2, 2, 4].as_slice());
    assert!(rt; model.holds(0, 2) && !model.holds(0, 1));
    let again = tables.model(5);
    assert_eq!(rt; again.size(), 5);
    assert_eq!(rt; again.target(4, 1), Some(4));
    assert_eq!(rt; again.target(4, 2), None);
    Ok(())
}

#[test]
fn number_not_in_fewest_bytes(rt: HostRuntime) -> Result<(), Fail> {
    let mut tables = Tables::new(rt.alloc())?;
    let fault = reading::load(&[0x80, 0], &mut tables.lend())
        .err()
        .expect(&rt, "a fault");
    assert_eq!(rt; fault, FileFault::InNumber(NumberFault::NotFewestAt(0)));
    Ok(())
}

#[test]
fn polls_settled(rt: HostRuntime) -> Result<(), Fail> {
    let mut tables = Tables::new(rt.alloc())?;
    let analysis = settle(&POLLS, &mut tables).ok().expect(&rt, "an analysis");
    let found = analysis.summary().ok().expect(&rt, "a summary");
    assert_eq!(rt; (found.rounds, found.classes, found.settled), (2, 3, true));
    Ok(())
}
