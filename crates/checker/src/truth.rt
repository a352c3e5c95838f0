//! Where a formula holds, as a set of states.
ghost use Rattle.std.specs.Prelude.{◌≡◌, ℕ, ◌-◌, ◌<◌, ◌≤◌, ◌↔◌, length, drop, slice_index_or, MatchResult};
ghost use Rattle.sets.specs.Sets.{In, none};
ghost use Rattle.kripke.specs.Paths.{Move};
ghost use Rattle.kripke.specs.Formulas.{Formula, word};
ghost use Rattle.survey.specs.Gaps.{Gaps, Sized, Admitted, Linked};
ghost use Rattle.checker.specs.Steps.{Denotes};
ghost use Rattle.checker.specs.Reading.{Readable, takes};
ghost use Rattle.checker.specs.Marks.{SetIs, TrueAt};

use crate::passing::passing;
use crate::reading::MOST_STEPS;
use crate::spread::Table;
use crate::steps::Step;
use models::Model as KripkeModel;
use sets::Set;
use stack::Stack;
use std::marker::Model;
use survey::gaps::Gap;
use survey::{Rows, rows_of};

// A model that can be worked on, and the states that each state moves to.
#[derive(Drop)]
pub(crate) struct Field<'a, M: KripkeModel> {
    model: &'a M,
    rows: Rows,
}

// Clauses see the model. `Linked` can be proved in several ways, so it stands here and in no ghost field.
impl<'a, M: KripkeModel> Model for Field<'a, M> {
    ghost Value = { M };

    ghost view = { λ it. it.model.now };

    ghost invariant = { λ it. Sized (M.means it.model.now).frame × Linked (M.means it.model.now).frame it.rows };
}

impl<'a, M: KripkeModel> Field<'a, M> {
    // The field of a model, or why it cannot be worked on.
    pub(crate) fn of(model: &'a M) -> Result<Field<'a, M>, Gap>
        ensures { MatchResult result (λ it. (it ≡ model.now) × Admitted (M.Model.means model.now).frame) (Gaps (M.Model.means model.now).frame) }
    {
        let rows = rows_of(model)?;
        Ok(Field { model, rows })
    }

    // The table of its moves.
    fn table(&self) -> Table<'_>
        ensures linked { Linked (M.Model.means self.now).frame result.rows.now }
        ensures count { result.n ≡ (M.Model.means self.now).frame.size }
    {
        Table {
            rows: &self.rows,
            n: self.model.size() as usize,
        }
    }

    // The states where word `a` holds.
    fn labelled(&self, a: u8) -> Set
        ensures { SetIs (M.Model.means self.now) (word a) result }
    {
        passing(
            self.model.size() as usize,
            |s| self.model.holds(a, s as u16),
        )
    }

    // Where a step is true, of the sets where its operands are, which it takes off the stack.
    #[tactic(auto, using(crate::proofs::Operators::until_linked, crate::proofs::Operators::stays_linked))]
    fn apply(&self, step: Step, operands: &mut Stack<'_, Set>) -> Set
        requires { takes step ≤ length operands.old.held }
        ensures made { (s : ℕ) → s < (M.Model.means self.now).frame.size → In result s ↔ TrueAt (Move (M.Model.means self.now).frame) (M.Model.means self.now).frame.size (M.Model.means self.now).labels.words step (In (slice_index_or operands.old.held (takes step - 1) none)) (In (slice_index_or operands.old.held 0 none)) s }
        ensures taken { operands.new ≡ record operands.old { held = drop (takes step) operands.old.held } }
    {
        let table = self.table();
        match step {
            Step::True => Set::all(),
            Step::Word(a) => self.labelled(a),
            Step::Not => operands.pop().unwrap().others(),
            Step::Or => {
                let g = operands.pop().unwrap();
                operands.pop().unwrap().or(g)
            }
            Step::Until => {
                let g = operands.pop().unwrap();
                let f = operands.pop().unwrap();
                table.until(f, g)
            }
            Step::Globally => table.globally(operands.pop().unwrap()),
        }
    }

    // The states where the formula holds that the steps denote.
    pub(crate) fn truth(&self, steps: &[Step]) -> Set
        requires { Readable (M.Model.means self.now).labels.count steps.now }
        ensures { (f : Formula) × Denotes steps.now f × SetIs (M.Model.means self.now) f result }
    {
        // Kept: an array for the stack's cells: fixed memory, since the library takes no heap.
        let mut cells = [Set::NONE; MOST_STEPS];
        let mut operands = Stack::new(&mut cells);
        for step in steps {
            let made = self.apply(*step, &mut operands);
            operands.push(made).unwrap();
        }
        operands.pop().unwrap()
    }
}
