//! The kinds on examples: thresholds, malformed tables, limits and a pile of kinds.
use crate::seen::Seen;
use checker::check;
use checker::steps::Step::{True, Until, Word};
use kripke::NOWHERE;
use models::beside::SideBySide;
use models::facts::Facts;
use models::listed::Listed;
use models::rested::Rested;
use models::sun::Sun;
use models::{Label, Model};

#[test]
fn sun_words_begin_at_their_thresholds(rt: HostRuntime) {
    for (altitude, words) in [
        (-49, 0),
        (-50, 1),
        (-359, 1),
        (-360, 3),
        (-719, 3),
        (-720, 7),
        (-1079, 7),
        (-1080, 15),
    ] {
        let dark = Sun {
            altitude,
            shutter: false,
            guide: false,
        };
        let ready = Sun {
            altitude,
            shutter: true,
            guide: true,
        };
        assert_eq!(rt; dark.facts().bits, words);
        assert_eq!(rt; ready.facts().bits, words + 48);
        assert!(rt; !dark.same(&ready));
        assert!(rt; !ready.holds(6) && !ready.holds(255));
    }
    // the twilight alone does not part two labels
    let one = Sun {
        altitude: -100,
        shutter: true,
        guide: false,
    };
    let two = Sun {
        altitude: -200,
        shutter: true,
        guide: false,
    };
    assert!(rt; one.same(&two));
}

#[test]
fn facts_are_bits(rt: HostRuntime) {
    let both = Facts::NONE.with(0).with(63).with(64);
    assert_eq!(rt; both.bits, 0x8000_0000_0000_0001);
    assert!(rt; both.holds(0) && both.holds(63) && !both.holds(1) && !both.holds(64));
    assert_eq!(rt; both.facts(), both);
}

// What a model of no labels but states with offsets answers at state 1: its degree and its first two moves.
fn middle<'a>(offsets: &'a [u32], targets: &'a [u16]) -> (u16, u16, Option<u16>, Option<u16>) {
    let labels = [Facts::NONE; 3];
    let model = Listed {
        labels: &labels,
        offsets,
        targets,
    };
    (
        model.size(),
        model.degree(1),
        model.target(1, 0),
        model.target(1, 1),
    )
}

#[test]
fn malformed_tables_are_answered(rt: HostRuntime) {
    let targets = [0, 2, 3, 1];
    assert_eq!(rt;
        middle(&[0, 1, 3, 4], &targets),
        (3, 2, Some(2), Some(NOWHERE))
    );
    assert_eq!(rt; middle(&[0, 1, 2, 4], &targets), (3, 1, Some(2), None));
    // falling offsets, and offsets past the table's end
    assert_eq!(rt; middle(&[0, 3, 1, 4], &targets), (3, 0, None, None));
    assert_eq!(rt; middle(&[0, 3, 5, 4], &targets), (3, 0, None, None));
    assert_eq!(rt; middle(&[0, 9, 9, 9], &targets), (3, 0, None, None));
    // an offset too few, and one too many: no states
    assert_eq!(rt; middle(&[0, 1, 3], &targets), (0, 0, None, None));
    assert_eq!(rt; middle(&[0, 1, 3, 4, 4], &targets), (0, 0, None, None));
    assert_eq!(rt; middle(&[], &targets), (0, 0, None, None));
}

#[test]
fn a_row_may_span_4096(rt: HostRuntime) {
    let labels = [Facts::NONE];
    let targets = [0; 4097];
    let full = Listed {
        labels: &labels,
        offsets: &[1, 4097],
        targets: &targets,
    };
    assert_eq!(rt; full.degree(0), 4096);
    assert_eq!(rt; full.target(0, 4095), Some(0));
    assert_eq!(rt; full.target(0, 4096), None);
    let over = Listed {
        labels: &labels,
        offsets: &[0, 4097],
        targets: &targets,
    };
    assert_eq!(rt; over.degree(0), 0);
}

#[test]
fn a_model_has_at_most_4096_states(rt: HostRuntime) {
    let labels = [Facts::NONE; 4097];
    let offsets = [0; 4098];
    let most = Listed {
        labels: &labels[0..4096],
        offsets: &offsets[0..4097],
        targets: &[],
    };
    let over = Listed {
        labels: &labels,
        offsets: &offsets,
        targets: &[],
    };
    assert_eq!(rt; (most.size(), over.size()), (4096, 0));
    let one = Listed {
        labels: &labels[0..1],
        offsets: &offsets[0..2],
        targets: &[],
    };
    assert_eq!(rt;
        SideBySide {
            first: &most,
            second: &one,
        }
        .size(),
        0
    );
    assert_eq!(rt;
        SideBySide {
            first: &most,
            second: &over,
        }
        .size(),
        4096
    );
}

#[test]
fn a_pile_of_kinds(rt: HostRuntime) {
    // two states of which the second is stuck and the first has a stray move, beside one sun label that moves to itself
    let labels = [Facts { bits: 1 }, Facts { bits: 16 }];
    let stuck = Listed {
        labels: &labels,
        offsets: &[0, 2, 2],
        targets: &[1, 7],
    };
    let suns = [Sun {
        altitude: -1,
        shutter: true,
        guide: false,
    }];
    let alone = Listed {
        labels: &suns,
        offsets: &[0, 1],
        targets: &[0],
    };
    let pile = SideBySide {
        first: Rested { below: stuck },
        second: alone,
    };
    assert_eq!(rt; (pile.size(), pile.words()), (3, 64));
    assert_eq!(rt;
        (pile.target(0, 0), pile.target(0, 1)),
        (Some(1), Some(NOWHERE))
    );
    assert_eq!(rt;
        (pile.degree(1), pile.target(1, 0), pile.target(1, 1)),
        (1, Some(1), None)
    );
    assert_eq!(rt;
        (pile.degree(2), pile.target(2, 0), pile.degree(3)),
        (1, Some(2), 0)
    );
    assert!(rt; pile.holds(0, 0) && pile.holds(4, 1) && pile.holds(4, 2) && !pile.holds(4, 3));
    assert!(rt; pile.alike(1, 2) && !pile.alike(0, 1) && !pile.alike(3, 3));
    assert_eq!(rt;
        (pile.facts(1).bits, pile.facts(2).bits, pile.facts(3).bits),
        (16, 16, 0)
    );
}

#[test]
fn a_kind_that_borrows(rt: HostRuntime) {
    let [dusk, night] = [-100, -1100].map(|altitude| Sun {
        altitude,
        shutter: false,
        guide: false,
    });
    let labels = [
        Seen { sun: &dusk },
        Seen { sun: &night },
        Seen { sun: &dusk },
    ];
    let model = Listed {
        labels: &labels,
        offsets: &[0, 1, 2, 3],
        targets: &[1, 1, 2],
    };
    assert_eq!(rt; (model.size(), model.words()), (3, 2));
    assert_eq!(rt; (model.facts(0).bits, model.facts(1).bits), (1, 3));
    assert!(rt; model.alike(0, 2) && !model.alike(0, 1));
    assert!(rt; labels[0].same(&labels[2]) && !labels[0].same(&labels[1]));
    // the first state's path comes to the night, the last one's does not
    let mut marks = [7; 4];
    assert_eq!(rt; check(&model, &[True, Word(1), Until], &mut marks), Ok(()));
    assert_eq!(rt; marks, [1, 1, 0, 7]);
}
