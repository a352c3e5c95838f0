//! Plain models of the second engine: all small ones, and sets of states that a caller makes.
use second::oracle::{Plain, State};
use second::tables::{SmallModels, small_models};
use std::test::Fail;

// Whether a row moves somewhere, only to states, and to each once.
fn is_total(state: &State, size: usize) -> bool {
    let rises = state.moves.windows(2).all(|pair| pair[0] < pair[1]);
    let last = state.moves.last().map(|t| usize::from(*t));
    rises && last.is_some_and(|t| t < size)
}

fn are_same(one: &Plain, two: &Plain) -> bool {
    let pairs = one.states.iter().zip(&two.states);
    one.states.len() == two.states.len()
        && pairs
            .map(|(s, t)| s.label == t.label && s.moves == t.moves)
            .all(|same| same)
}

#[test]
fn small_models_are_total(rt: HostRuntime) -> Result<(), Fail> {
    for (most, count) in [(0, 0), (1, 2), (2, 38), (3, 2782)] {
        let models = small_models(rt.alloc(), most)?;
        assert_eq!(rt; models.len(), count);
        for model in &models {
            let size = model.states.len();
            assert!(rt; 0 < size && size <= usize::from(most));
            assert!(rt;
                model
                    .states
                    .iter()
                    .all(|state| state.label < 2 && is_total(state, size))
            );
        }
    }
    Ok(())
}

#[test]
fn small_models_are_made_once(rt: HostRuntime) -> Result<(), Fail> {
    let models = small_models(rt.alloc(), 2)?;
    for (place, one) in models.iter().enumerate() {
        let alike = models.iter().position(|two| are_same(one, two));
        assert_eq!(rt; alike, Some(place));
    }
    // each stands where its number says
    let pairs = SmallModels::of(rt.alloc(), 2)?;
    assert_eq!(rt; pairs.numbers().count(), 36);
    for (number, told) in pairs.numbers().zip(models.iter().skip(2)) {
        let one = pairs.model(rt.alloc(), number)?;
        assert!(rt; are_same(&one, told));
    }
    Ok(())
}

#[test]
fn reached_inside_a_set(rt: HostRuntime) -> Result<(), Fail> {
    // a ring of four states
    let mut ring = Plain {
        states: Vec::new(rt.alloc()),
    };
    for into in [1, 2, 3, 0] {
        let moves = vec![in rt.alloc(); into]?;
        ring.states.push(State { label: 0, moves })?;
    }
    let mut from = ring.nothing(rt.alloc())?;
    let mut inside = ring.nothing(rt.alloc())?;
    from.insert(1);
    for s in [0, 1, 2, 4] {
        inside.insert(s);
    }
    let seen = ring.reached(rt.alloc(), &from, &inside)?;
    for (s, is) in [(0, false), (1, true), (2, true), (3, false), (4, false)] {
        assert_eq!(rt; seen.contains(s), is);
    }
    Ok(())
}
