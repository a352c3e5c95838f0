//! The merger held to the second engine: classes after every round, the counts, the reduced model, and truth on both models.
use crate::formulas::FORMULAS;
use checker::check;
use checker::steps::Step;
use components::Walk;
use merger::analysis::Analysis;
use merger::answers::{Made, Opened};
use merger::reduced::Reduced;
use models::{Label, Model};
use second::counts::Count;
use second::oracle::{Plain, Relation};
use second::tables::Tables;
use std::alloc::{AllocError, Global};
use std::fmt;

/// What has been compared so far, and how often the engines differed.
#[derive(Clone, Copy, Default)]
pub struct Tally {
    models: Count,
    rounds: Count,
    classes: Count,
    truths: Count,
    differences: Count,
}

impl fmt::Display for Tally {
    fn fmt<W: fmt::Write>(&self, f: &mut fmt::Formatter<W>) -> fmt::Result {
        write!(
            f,
            "models {} rounds {} classes {} truths {} differences {}",
            self.models, self.rounds, self.classes, self.truths, self.differences
        )
    }
}

impl Tally {
    /// Compares the two engines on one model.
    pub fn compare(&mut self, heap: Global, plain: &Plain) -> Result<(), AllocError> {
        self.models.add_one();
        let tables = Tables::of(heap, plain)?;
        let model = tables.listed();
        let mut analysis = Analysis::new();
        let opened = analysis.open(&model, &mut [Walk::BLANK; 128], &mut [0; 128]);
        let alike = plain.alike(heap)?;
        let wanted = Opened {
            states: plain.size(),
            components: plain.joined(heap)?.classes(heap)?.len(),
            labels: alike.classes(heap)?.len(),
        };
        self.differences.add_if(opened != Ok(wanted));
        let mut pair = Pair {
            heap,
            plain,
            analysis,
            tally: self,
        };
        let settled = pair.compare_rounds(alike)?;
        let mut reduced = Reduced::empty();
        let filled = pair.analysis.reduced(&mut reduced);
        pair.tally.differences.add_if(filled.is_err());
        pair.compare_reduced(&reduced, &settled)?;
        for formula in FORMULAS {
            pair.compare_truth(&model, &reduced, formula)?;
        }
        Ok(())
    }
}

// A model in both engines, and the tally of what is compared.
#[derive(Drop)]
struct Pair<'a> {
    heap: Global,
    plain: &'a Plain,
    analysis: Analysis,
    tally: &'a mut Tally,
}

impl Pair<'_> {
    // Rounds until the relation is the same as before, the classes held to each other before and after each.
    fn compare_rounds(&mut self, alike: Relation) -> Result<Relation, AllocError> {
        let mut relation = alike;
        self.compare_classes(&relation)?;
        for rounds in 1..=self.plain.states.len() {
            let next = self.plain.refined(self.heap, &relation)?;
            let settled = next == relation;
            relation = next;
            let wanted = Made {
                rounds,
                classes: relation.classes(self.heap)?.len(),
                settled,
            };
            let made = self.analysis.round();
            self.tally.rounds.add_one();
            self.tally.differences.add_if(made != Ok(wanted));
            self.compare_classes(&relation)?;
            if settled {
                break;
            }
        }
        let more = self.analysis.round();
        self.tally.differences.add_if(more.is_ok());
        Ok(relation)
    }

    // The class of each state, and together at each pair.
    fn compare_classes(&mut self, relation: &Relation) -> Result<(), AllocError> {
        let classes = relation.classes(self.heap)?;
        let size = self.plain.size();
        for (s, partner) in (0..size).zip((0..size).rev()) {
            self.tally.classes.add_one();
            let number = classes.iter().position(|class| class.contains(s));
            let class = self.analysis.class(s).ok().map(usize::from);
            self.tally.differences.add_if(class != number);
            let joint = self.analysis.together(s, partner);
            let related = relation.has(s, partner);
            self.tally.differences.add_if(joint != Ok(related));
        }
        Ok(())
    }

    // The reduced model: its words and its rows, from ST, NEXT and LOOP of the members.
    fn compare_reduced(
        &mut self,
        reduced: &Reduced,
        relation: &Relation,
    ) -> Result<(), AllocError> {
        let wanted = self.plain.merged(self.heap, relation)?;
        self.tally
            .differences
            .add_if(reduced.size() != wanted.size());
        for (c, state) in (0u16..).zip(&wanted.states) {
            self.tally
                .differences
                .add_if(reduced.facts(c).bits != state.label);
            let targets = (0..reduced.degree(c)).map(|k| reduced.target(c, k));
            let moves = state.moves.iter().map(|t| Some(*t));
            self.tally.differences.add_if(!targets.eq(moves));
        }
        Ok(())
    }

    // A formula at each state, and at its class in the reduced model.
    fn compare_truth<M: Model>(
        &mut self,
        model: &M,
        reduced: &Reduced,
        formula: &[Step],
    ) -> Result<(), AllocError> {
        let mut full = [2; 128];
        let mut small = [2; 128];
        let on_full = check(model, formula, &mut full);
        self.tally.differences.add_if(on_full.is_err());
        let on_small = check(reduced, formula, &mut small);
        self.tally.differences.add_if(on_small.is_err());
        let truth = self.plain.truth(self.heap, formula)?;
        for (s, mark) in (0..self.plain.size()).zip(full) {
            let wanted = u8::from(truth.contains(s));
            let class = self.analysis.class(s).unwrap_or(128);
            self.tally.truths.add_one();
            self.tally.differences.add_if(mark != wanted);
            let at_class = small.get(usize::from(class));
            self.tally.differences.add_if(at_class != Some(&wanted));
        }
        Ok(())
    }
}
