//! The component search on small models, on the largest, and where it is refused.
use components::{Refused, Walk, find_components, find_in_rows};
use models::facts::Facts;
use models::listed::Listed;
use sets::Set;
use std::alloc::Global;
use std::process::Abort;
use std::test::Fail;

const A: Facts = Facts { bits: 0 };

const B: Facts = Facts { bits: 1 };

// Models of four states, with the component of each state and the components that hold a cycle.
#[test]
fn components_of_four_states(rt: HostRuntime) -> Result<(), Fail> {
    for (labels, offsets, targets, parts, cyclic) in [
        // a move to itself, and no moves
        (
            [A; 4],
            [0, 1, 1, 1, 1],
            [0; 5],
            [0, 1, 2, 3],
            [true, false, false, false],
        ),
        // two interleaved cycles
        (
            [A; 4],
            [0, 1, 2, 3, 4],
            [2, 3, 0, 1, 0],
            [0, 1, 0, 1],
            [true, true, false, false],
        ),
        // a chain, of which the walk closes the last state first
        (
            [A; 4],
            [0, 1, 2, 3, 4],
            [1, 2, 3, 3, 0],
            [0, 1, 2, 3],
            [false, false, false, true],
        ),
        // a cycle through states that are not alike is in no component, and a move that leaves is no move to itself
        (
            [A, B, A, A],
            [0, 1, 2, 4, 5],
            [1, 2, 0, 9, 3],
            [0, 1, 2, 3],
            [false, false, false, true],
        ),
        // two cycles with a state in common, and a state that leads to them
        (
            [A; 4],
            [0, 1, 2, 4, 5],
            [2, 2, 0, 3, 2],
            [0, 1, 0, 0],
            [true, false, false, false],
        ),
    ] {
        let model = Listed {
            labels: &labels,
            offsets: &offsets,
            targets: &targets,
        };
        let mut part = [200; 128];
        let found = find_components(&model, &mut [Walk::BLANK; 4], &mut [0; 4], &mut part)?;
        assert_eq!(rt; &part[0..4], &parts[0..4]);
        assert_eq!(rt; part[4], 200);
        for (i, is_cyclic) in cyclic.into_iter().enumerate() {
            assert_eq!(rt; found.cyclic.has(i), is_cyclic);
        }
        let count = parts.into_iter().max().map(|most| most + 1);
        assert_eq!(rt; Some(found.count), count);
    }
    Ok(())
}

// Two cycles, one within reach of the other, and a state that moves only to a number that has no row.
#[test]
fn components_of_rows(rt: HostRuntime) -> Result<(), Fail> {
    let to = |first: usize, second: usize| Set::NONE.with(first).with(second);
    let rows = [to(3, 3), to(2, 3), to(1, 1), to(0, 0), to(5, 127)];
    let mut part = [200; 128];
    let found = find_in_rows(&rows, &mut [Walk::BLANK; 5], &mut [0; 5], &mut part)?;
    assert_eq!(rt; part[..6], [0, 1, 1, 0, 2, 200][..]);
    assert_eq!(rt; found.count, 3);
    assert!(rt; found.cyclic.has(0) && found.cyclic.has(1) && !found.cyclic.has(2));
    let short = find_in_rows(&rows, &mut [Walk::BLANK; 4], &mut [0; 5], &mut part);
    assert!(rt; matches!(short, Err(Refused::ShortScratch)));
    Ok(())
}

// A model of 128 alike states, each with one move to the next, but for the last, which moves to `back`.
// Answers the component of each state and how many there are.
fn parts_of_ring(heap: Global, back: u16) -> Result<([u8; 128], u8), Fail> {
    let labels = [A; 128];
    let offsets: Vec<u32> = (0..129u32).collect(heap)?;
    let mut targets: Vec<u16> = (1..128u16).collect(heap)?;
    targets.push(back)?;
    let model = Listed {
        labels: &labels,
        offsets: offsets.as_slice(),
        targets: targets.as_slice(),
    };
    let mut part = [200; 128];
    let found = find_components(&model, &mut [Walk::BLANK; 128], &mut [0; 128], &mut part)?;
    Ok((part, found.count))
}

#[test]
fn components_of_128_states(rt: HostRuntime) -> Result<(), Fail> {
    let (ring, one) = parts_of_ring(rt.alloc(), 0)?;
    let (chain, all) = parts_of_ring(rt.alloc(), 127)?;
    assert_eq!(rt; (one, all), (1, 128));
    assert_eq!(rt; ring, [0; 128]);
    for (s, part) in (0..128).zip(chain) {
        assert_eq!(rt; part, s);
    }
    // the last two are in one component
    let (most, two) = parts_of_ring(rt.alloc(), 126)?;
    assert_eq!(rt;
        (most[125], most[126], most[127], two),
        (125, 126, 126, 127)
    );
    Ok(())
}

// How a model of `n` states without moves is refused, with memory for so many entries; nothing is altered then.
fn refusal(
    rt: &impl Abort,
    n: usize,
    walks: usize,
    states: usize,
) -> Result<Option<Refused>, Fail> {
    assert!(rt; n <= 129 && walks <= 129 && states <= 129);
    let labels = [A; 129];
    let offsets = [0; 130];
    let model = Listed {
        labels: &labels[0..n],
        offsets: &offsets[0..n + 1],
        targets: &[],
    };
    let mut walk_memory = [Walk::BLANK; 129];
    let mut state_memory = [7; 129];
    let mut part = [200; 128];
    match find_components(
        &model,
        &mut walk_memory[0..walks],
        &mut state_memory[0..states],
        &mut part,
    ) {
        Ok(_) => Ok(None),
        Err(why) => {
            assert_eq!(rt; (state_memory[0], part[0]), (7, 200));
            Ok(Some(why))
        }
    }
}

#[test]
fn refused_searches(rt: HostRuntime) -> Result<(), Fail> {
    assert_eq!(rt; refusal(&rt, 129, 129, 129)?, Some(Refused::TooMany));
    assert_eq!(rt; refusal(&rt, 129, 0, 0)?, Some(Refused::TooMany));
    assert_eq!(rt; refusal(&rt, 128, 127, 128)?, Some(Refused::ShortScratch));
    assert_eq!(rt; refusal(&rt, 128, 128, 127)?, Some(Refused::ShortScratch));
    assert_eq!(rt; refusal(&rt, 128, 128, 128)?, None);
    assert_eq!(rt; refusal(&rt, 0, 0, 0)?, None);
    Ok(())
}
