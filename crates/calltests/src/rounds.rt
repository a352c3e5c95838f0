//! Rounds, runs, classes and reduced models.
use crate::opening::open;
use components::Walk;
use examples::{chain, polls, resting, single};
use merger::analysis::Analysis;
use merger::answers::{Made, OpenRefusal, Opened, Ran, Refusal};
use merger::lists::{Answer, Call};
use merger::reduced::Reduced;
use models::Model;
use models::beside::SideBySide;
use models::rested::Rested;
use std::test::Fail;
use survey::gaps::Gap;
use writing::saving::save;

const fn made(rounds: usize, classes: usize, settled: bool) -> Result<Made, Refusal> {
    Ok(Made {
        rounds,
        classes,
        settled,
    })
}

#[test]
fn nothing_opened(rt: HostRuntime) {
    let mut analysis = Analysis::new();
    let mut reduced = Reduced::empty();
    assert_eq!(rt; analysis.round(), Err(Refusal::NothingOpened));
    assert_eq!(rt; analysis.run(0), Err(Refusal::NothingOpened));
    assert_eq!(rt; analysis.class(0), Err(Refusal::NothingOpened));
    assert_eq!(rt; analysis.together(0, 9), Err(Refusal::NothingOpened));
    assert_eq!(rt; analysis.reduced(&mut reduced), Err(Refusal::NothingOpened));
    assert!(rt; analysis.summary().is_err());
    assert_eq!(rt; (reduced.size(), reduced.words()), (0, 0));
}

#[test]
fn polls_settle_in_two_rounds(rt: HostRuntime) -> Result<(), Fail> {
    let mut analysis = Analysis::new();
    let _opened = open(&mut analysis, &polls())?;
    assert_eq!(rt; analysis.together(0, 4), Ok(true));
    assert_eq!(rt; analysis.round(), made(1, 3, false));
    assert_eq!(rt; analysis.together(0, 4), Ok(false));
    assert_eq!(rt;
        analysis.reduced(&mut Reduced::empty()),
        Err(Refusal::NotSettled)
    );
    assert_eq!(rt; analysis.round(), made(2, 3, true));
    assert_eq!(rt; analysis.round(), Err(Refusal::Settled));
    for (s, class) in (0..).zip([0, 0, 1, 0, 2]) {
        assert_eq!(rt; analysis.class(s), Ok(class));
    }
    assert_eq!(rt; analysis.class(5), Err(Refusal::NoState(5)));
    // the first that is no state is named
    assert_eq!(rt; analysis.together(6, 7), Err(Refusal::NoState(6)));
    assert_eq!(rt; analysis.together(4, 7), Err(Refusal::NoState(7)));
    Ok(())
}

#[test]
fn reduced_polls_are_three_states(rt: HostRuntime) -> Result<(), Fail> {
    let mut analysis = Analysis::new();
    let _opened = open(&mut analysis, &polls())?;
    let _ran = analysis.run(128)?;
    let mut reduced = Reduced::empty();
    analysis.reduced(&mut reduced)?;
    assert_eq!(rt; reduced.words(), 64);
    let mut file = [0xEE; 12];
    assert_eq!(rt; save(&reduced, &mut file).ok(), Some(11));
    assert_eq!(rt; file, [3, 0, 1, 0, 1, 1, 1, 1, 2, 1, 2, 0xEE]);
    Ok(())
}

#[test]
fn chain_parts_from_its_ends(rt: HostRuntime) -> Result<(), Fail> {
    let mut analysis = Analysis::new();
    let _opened = open(&mut analysis, &chain())?;
    assert_eq!(rt; analysis.round(), made(1, 5, false));
    assert_eq!(rt; analysis.together(0, 3), Ok(true));
    assert_eq!(rt; analysis.round(), made(2, 6, false));
    assert_eq!(rt; analysis.together(0, 3), Ok(false));
    assert_eq!(rt; analysis.round(), made(3, 6, true));
    Ok(())
}

#[test]
fn runs_use_their_budget(rt: HostRuntime) -> Result<(), Fail> {
    let mut analysis = Analysis::new();
    let _opened = open(&mut analysis, &chain())?;
    for (budget, rounds, settled) in [
        (0, 0, false),
        (2, 2, false),
        (0, 0, false),
        (9, 1, true),
        (9, 0, true),
    ] {
        assert_eq!(rt; analysis.run(budget), Ok(Ran { rounds, settled }));
    }
    let counts = analysis.summary()?;
    assert_eq!(rt;
        (counts.rounds, counts.classes, counts.settled),
        (3, 6, true)
    );
    Ok(())
}

#[test]
fn polls_beside_themselves(rt: HostRuntime) -> Result<(), Fail> {
    let pair = SideBySide {
        first: polls(),
        second: polls(),
    };
    let mut analysis = Analysis::new();
    let _opened = open(&mut analysis, &pair)?;
    let _ran = analysis.run(128)?;
    assert_eq!(rt; analysis.summary()?.classes, 3);
    for s in 0..5 {
        assert_eq!(rt; analysis.together(s, s + 5), Ok(true));
    }
    Ok(())
}

#[test]
fn one_state(rt: HostRuntime) -> Result<(), Fail> {
    let mut analysis = Analysis::new();
    let _opened = open(&mut analysis, &single())?;
    assert_eq!(rt; analysis.round(), made(1, 1, true));
    let empty = OpenRefusal::Lacks(Gap::EmptyRow { state: 0 });
    assert_eq!(rt; open(&mut analysis, &resting()), Err(empty));
    let _again = open(&mut analysis, &Rested { below: resting() })?;
    assert_eq!(rt; analysis.round(), made(1, 1, true));
    Ok(())
}

#[test]
fn a_list_of_calls(rt: HostRuntime) -> Result<(), Fail> {
    let calls = [
        Call::Reduced,
        Call::Class(4),
        Call::Run(9),
        Call::Class(4),
        Call::Round,
        Call::Together(0, 3),
        Call::Reduced,
    ];
    let mut answers = [Ok(Answer::Filled); 6];
    let mut out = Reduced::empty();
    let mut analysis = Analysis::new();
    let opened = analysis.perform(
        &polls(),
        &mut [Walk::BLANK; 5],
        &mut [0; 5],
        &calls,
        &mut answers,
        &mut out,
    )?;
    assert_eq!(rt; opened.components, 5);
    let ran = Ran {
        rounds: 2,
        settled: true,
    };
    let wanted = [
        Err(Refusal::NotSettled),
        Ok(Answer::Class(0)),
        Ok(Answer::Ran(ran)),
        Ok(Answer::Class(2)),
        Err(Refusal::Settled),
        Ok(Answer::Together(true)),
    ];
    assert_eq!(rt; answers, wanted);
    // the last answer has no place, and its call is made all the same
    assert_eq!(rt; out.size(), 3);
    Ok(())
}
