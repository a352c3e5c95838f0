//! Models that are opened, and those that are refused, with the cause that comes first.
use components::Walk;
use examples::{chain, polls};
use merger::analysis::Analysis;
use merger::answers::{OpenRefusal, Opened, Refusal};
use models::Model;
use models::facts::Facts;
use models::listed::Listed;
use std::test::Fail;
use survey::gaps::{Gap, GapNumbers, Numbers};

/// Opens a model with scratch for 128 states.
pub fn open<M: Model>(analysis: &mut Analysis, model: &M) -> Result<Opened, OpenRefusal> {
    analysis.open(model, &mut [Walk::BLANK; 128], &mut [0; 128])
}

#[test]
fn polls_and_chain_open(rt: HostRuntime) -> Result<(), Fail> {
    let mut analysis = Analysis::new();
    let found = Opened {
        states: 5,
        components: 5,
        labels: 2,
    };
    assert_eq!(rt; open(&mut analysis, &polls()), Ok(found));
    // another model takes its place, after no round
    let _ = analysis.run(9);
    let other = Opened {
        states: 6,
        components: 6,
        labels: 4,
    };
    assert_eq!(rt; open(&mut analysis, &chain()), Ok(other));
    let counts = analysis.summary()?;
    assert_eq!(rt;
        (counts.rounds, counts.classes, counts.settled),
        (0, 4, false)
    );
    Ok(())
}

// The numbers of a refusal that leaves the analysis of polls and the state numbers as they were.
fn refusal(model: &Listed<'_, Facts>, walks: usize, numbers: usize) -> Option<GapNumbers> {
    let mut analysis = Analysis::new();
    let _opened = open(&mut analysis, &polls()).ok()?;
    let mut records = [Walk::BLANK; 3];
    let mut states = [7; 3];
    let lent = records.get_mut(0..walks)?;
    let scratch = states.get_mut(0..numbers)?;
    let why = analysis.open(model, lent, scratch).err()?;
    let left = states == [7; 3]
        && analysis.class(4) == Ok(0)
        && analysis.class(5) == Err(Refusal::NoState(5));
    left.then_some(why.numbers())
}

#[test]
fn refusals_in_order(rt: HostRuntime) -> Result<(), Fail> {
    let labels = [Facts::NONE; 3];
    // states, offsets, targets, walk records, state numbers, then cause, place and move; 9 is no state
    let cases: [(usize, [u32; 4], [u16; 4], usize, usize, u8, u16, u16); 8] = [
        (0, [0, 0, 0, 0], [0; 4], 0, 0, 11, 0, 0),
        // scratch comes before the rows
        (3, [0, 0, 0, 0], [0; 4], 2, 3, 13, 0, 0),
        (3, [0, 0, 0, 0], [9; 4], 3, 2, 13, 0, 0),
        (3, [0, 0, 0, 0], [0; 4], 3, 3, 15, 0, 0),
        // by rising state, and the first such move of its row
        (3, [0, 1, 1, 2], [0, 9, 0, 0], 3, 3, 15, 1, 0),
        (3, [0, 1, 4, 4], [2, 0, 9, 9], 3, 3, 14, 1, 1),
        (3, [0, 1, 2, 2], [2, 9, 0, 0], 3, 3, 14, 1, 0),
        (3, [0, 2, 3, 3], [0, 2, 1, 0], 3, 3, 15, 2, 0),
    ];
    for (n, offsets, targets, walks, numbers, cause, place, number) in cases {
        let (Some(labels), Some(offsets)) = (labels.get(0..n), offsets.get(0..n + 1)) else {
            return Err("no tables".into());
        };
        let model = Listed {
            labels,
            offsets,
            targets: &targets,
        };
        let told = Numbers {
            cause,
            place,
            number,
        };
        assert_eq!(rt; refusal(&model, walks, numbers), Some(told));
    }
    Ok(())
}

// Each of `n` states moves to itself.
fn count_opened(rt: &HostRuntime, n: u16) -> Result<Result<Opened, OpenRefusal>, Fail> {
    let labels = vec![in rt.alloc(); Facts::NONE; usize::from(n)]?;
    let offsets: Vec<u32> = (0..=u32::from(n)).collect(rt.alloc())?;
    let targets: Vec<u16> = (0..n).collect(rt.alloc())?;
    let mut walks = vec![in rt.alloc(); Walk::BLANK; usize::from(n)]?;
    let mut states = vec![in rt.alloc(); 0; usize::from(n)]?;
    let model = Listed {
        labels: &labels,
        offsets: &offsets,
        targets: &targets,
    };
    Ok(Analysis::new().open(&model, &mut walks, &mut states))
}

#[test]
fn most_states(rt: HostRuntime) -> Result<(), Fail> {
    let found = Opened {
        states: 128,
        components: 128,
        labels: 1,
    };
    assert_eq!(rt; count_opened(&rt, 128)?, Ok(found));
    assert_eq!(rt;
        count_opened(&rt, 129)?,
        Err(OpenRefusal::Lacks(Gap::TooMany))
    );
    Ok(())
}
