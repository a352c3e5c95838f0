//! Models as they are printed: states as lines, and graphs.
use models::Label;
use models::facts::Facts;
use models::listed::Listed;
use printed::graph::{ClassGraph, StateGraph};
use printed::states::State;
use std::test::Fail;

#[test]
fn words_and_moves(rt: HostRuntime) -> Result<(), Fail> {
    let model = Listed {
        labels: &[Facts { bits: 0 }, Facts { bits: 10 }],
        offsets: &[0, 0, 2],
        targets: &[0, 1],
    };
    let still = State {
        model: &model,
        number: 0,
    };
    assert_eq!(rt;
        still.to_string(rt.alloc())?.as_str(),
        "state 0 words moves"
    );
    let state = State {
        model: &model,
        number: 1,
    };
    assert_eq!(rt;
        state.to_string(rt.alloc())?.as_str(),
        "state 1 words 1 3 moves 0 1"
    );
    Ok(())
}

// The reduced model of five polls: states 0, 1 and 3 are one class.
const POLLS: &str = "\
digraph model {
  rankdir=LR;
  node [shape=box, style=\"rounded,filled\", color=\"#555555\", fontname=\"Helvetica\"];
  edge [color=\"#555555\"];
  0 [label=\"0\\nfor 0 1 3\", fillcolor=\"#a8d0f0\"];
  1 [label=\"1\\nw0\\nfor 2\", fillcolor=\"#ffe08a\"];
  2 [label=\"2\\nfor 4\", fillcolor=\"#b4e0b0\"];
  0 -> 1;
  1 -> 1;
  2 -> 1;
  2 -> 2;
}
";

#[test]
fn reduced_polls(rt: HostRuntime) -> Result<(), Fail> {
    let model = Listed {
        labels: &[Facts::NONE, Facts { bits: 1 }, Facts::NONE],
        offsets: &[0, 1, 2, 4],
        targets: &[1, 1, 1, 2],
    };
    let classes = &[0, 0, 1, 0, 2];
    let text = ClassGraph {
        model: &model,
        classes,
    }
    .to_string(rt.alloc())?;
    assert_eq!(rt; text.as_str(), POLLS);
    Ok(())
}

// One state with ten words.
const WORDY: &str = "\
digraph model {
  rankdir=LR;
  node [shape=box, style=\"rounded,filled\", color=\"#555555\", fontname=\"Helvetica\"];
  edge [color=\"#555555\"];
  0 [label=\"0\\nw0 w1 w2 w3 w4 w5 w6 w7\\nw8 w9\\nclass 0\", fillcolor=\"#a8d0f0\"];
  0 -> 0;
}
";

#[test]
fn eight_to_a_line(rt: HostRuntime) -> Result<(), Fail> {
    let model = Listed {
        labels: &[Facts { bits: 0x3FF }],
        offsets: &[0, 1],
        targets: &[0],
    };
    let text = StateGraph {
        model: &model,
        classes: &[0],
    }
    .to_string(rt.alloc())?;
    assert_eq!(rt; text.as_str(), WORDY);
    Ok(())
}
