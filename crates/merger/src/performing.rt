//! A model opened, and a list of calls made on it.
ghost use Rattle.std.specs.Prelude.{◌≡◌};
ghost use Rattle.kripke.specs.Models.{Kripke};
ghost use Rattle.merger.specs.Calls.{Analysed};
ghost use Rattle.merger.specs.Runs.{CallAnswer, Performed, PerformAnswer};

use crate::analysis::Analysis;
use crate::answers::{OpenRefusal, Opened};
use crate::lists::{Answer, Answered, Call};
use crate::reduced::Reduced;
use components::Walk;
use models::Model;

impl Analysis {
    // Makes one call; `out` is the model that `Call::Reduced` fills.
    fn make(&mut self, call: Call, out: &mut Reduced) -> Answered
        ensures { CallAnswer self.old self.new out.old out.new call result }
    {
        match call {
            Call::Round => self.round().map(Answer::Made),
            Call::Run(budget) => self.run(budget).map(Answer::Ran),
            Call::Class(s) => self.class(s).map(Answer::Class),
            Call::Together(s, t) => self.together(s, t).map(Answer::Together),
            Call::Reduced => self.reduced(out).and(Ok(Answer::Filled)),
        }
    }

    // Makes the calls in order, and puts down the answers for which there is room.
    fn make_all(&mut self, calls: &[Call], answers: &mut [Answered], out: &mut Reduced)
        ensures { (M : Kripke) → Analysed M 0 self.old → Performed M calls.now answers.old answers.new self.new out.old out.new }
    {
        // Kept: there may be fewer places than calls; through `get_mut(i)` the proof did not learn what the answers become.
        for (i, call) in calls.iter().enumerate() {
            let answer = self.make(*call, out);
            if i < answers.len() {
                answers[i] = answer;
            }
        }
    }

    /// Opens a model, then makes the calls in order. The answer to call `i` is put into place `i` of `answers`, if it has one;
    /// `out` is the model that `Call::Reduced` fills.
    // Kept: two slices as in open; calls and answers are two also, since there may be places for fewer answers than calls.
    pub fn perform<M: Model>(
        &mut self,
        model: &M,
        walks: &mut [Walk],
        states: &mut [u16],
        calls: &[Call],
        answers: &mut [Answered],
        out: &mut Reduced,
    ) -> Result<Opened, OpenRefusal>
        ensures { PerformAnswer (M.Model.means model.now) self.old self.new walks.old walks.new states.old states.new calls.now answers.old answers.new out.old out.new result }
    {
        let opened = self.open(model, walks, states)?;
        self.make_all(calls, answers, out);
        Ok(opened)
    }
}
