//! The calls of an analysis.
ghost use Rattle.std.specs.Prelude.{◌≡◌, ℕ, suc, ◌+◌, true, false, MatchResult};
ghost use Rattle.merger.specs.declared.answers.Refusal.TheVariants.{NothingOpened};
ghost use Rattle.kripke.specs.Models.{Kripke};
ghost use Rattle.merger.specs.Calls.{Analysed, OpenAnswer, RoundAnswer, RunAnswer, ClassAnswer, TogetherAnswer, ReducedAnswer, SummaryAnswer};

use crate::advance::advance;
use crate::ahead::write_outlooks;
use crate::analysis::Analysis;
use crate::answers::{Made, OpenRefusal, Opened, Ran, Refusal, Summary};
use crate::filling::reduce;
use crate::opening::{look_over, start};
use crate::partition::Partition;
use crate::reach::Reach;
use crate::reduced::Reduced;
use crate::tables::{Found, Rounds};
use components::Walk;
use models::Model;
use sets::Set;
use survey::{count_states, rows_of};

impl Analysis {
    /// An analysis in which nothing is opened.
    pub fn new() -> Analysis
        ensures { result.opened ≡ false }
    {
        let found = Found {
            states: 0,
            words: 0,
            components: 0,
            labels: 0,
            component: [0; 128],
            facts: [0; 128],
            moves: [Set::NONE; 128],
        };
        let rounds = Rounds {
            made: 0,
            settled: false,
            partition: Partition::new(),
            reach: Reach::new(),
        };
        Analysis {
            opened: false,
            found,
            rounds,
        }
    }

    /// Opens a model, in place of what was opened before. The memory lent for walk records and state numbers is free afterwards.
    // Kept: callers lend two pieces of scratch, each refused by its own length; this form of `open` is a rule of the project.
    pub fn open<M: Model>(
        &mut self,
        model: &M,
        walks: &mut [Walk],
        states: &mut [u16],
    ) -> Result<Opened, OpenRefusal>
        ensures { OpenAnswer (M.Model.means model.now) self.old self.new walks.old walks.new states.old states.new result }
    {
        let size = count_states(model)? as usize;
        if walks.len() < size || states.len() < size {
            return Err(OpenRefusal::ShortScratch);
        }
        // lent, since it is copied where it is moved out of the answer
        let surveyed = rows_of(model);
        let rows = surveyed.as_ref().map_err(|gap| *gap)?;
        let order = look_over(&mut self.found, model, rows, walks, states);
        start(&self.found, &order, &mut self.rounds);
        self.found.labels = self.rounds.partition.classes();
        self.opened = true;
        Ok(Opened {
            states: self.found.states,
            components: self.found.components,
            labels: self.found.labels,
        })
    }

    // Refuses a call where nothing is opened.
    fn check_opened(&self) -> Result<(), Refusal>
        ensures { MatchResult result (λ _. self.now.opened ≡ true) (λ e. (e ≡ NothingOpened) × (self.now.opened ≡ false)) }
    {
        if self.opened {
            Ok(())
        } else {
            Err(Refusal::NothingOpened)
        }
    }

    // One more round of what is opened and not settled.
    fn step(&mut self)
        requires { (self.old.opened ≡ true) × (self.old.rounds.settled ≡ false) }
        ensures opened { self.new.opened ≡ true }
        ensures more { (M : Kripke) (r : ℕ) → Analysed M r self.old → Analysed M (suc r) self.new }
    {
        advance(&self.found, &mut self.rounds);
    }

    /// Makes one more round.
    pub fn round(&mut self) -> Result<Made, Refusal>
        ensures { RoundAnswer self.old self.new result }
    {
        self.check_opened()?;
        if self.rounds.settled {
            return Err(Refusal::Settled);
        }
        self.step();
        Ok(Made {
            rounds: self.rounds.made,
            classes: self.rounds.partition.classes(),
            settled: self.rounds.settled,
        })
    }

    /// Makes rounds until the analysis is settled or the budget is used.
    pub fn run(&mut self, budget: usize) -> Result<Ran, Refusal>
        ensures { RunAnswer self.old self.new budget result }
    {
        self.check_opened()?;
        let mut rounds = 0;
        // Kept: no index but the number of rounds made, which is answered; the settled round ends the loop as the budget does.
        while rounds < budget && !self.rounds.settled {
            self.step();
            rounds += 1;
        }
        Ok(Ran {
            rounds,
            settled: self.rounds.settled,
        })
    }

    /// How many states, components, classes of alike states, rounds and classes there are.
    pub fn summary(&self) -> Result<Summary, Refusal>
        ensures { SummaryAnswer self.now result }
    {
        self.check_opened()?;
        Ok(Summary {
            states: self.found.states,
            components: self.found.components,
            labels: self.found.labels,
            rounds: self.rounds.made,
            classes: self.rounds.partition.classes(),
            settled: self.rounds.settled,
        })
    }

    /// The class of a state.
    pub fn class(&self, s: u16) -> Result<u16, Refusal>
        ensures { ClassAnswer self.now s result }
    {
        self.check_opened()?;
        if s >= self.found.states {
            return Err(Refusal::NoState(s));
        }
        let component = self.found.component[s as usize] as usize;
        Ok(self.rounds.partition.class_of(component) as u16)
    }

    /// Whether two states share a class.
    pub fn together(&self, s: u16, t: u16) -> Result<bool, Refusal>
        ensures { TogetherAnswer self.now s t result }
    {
        let first = self.class(s)?;
        let second = self.class(t)?;
        Ok(first == second)
    }

    /// Fills a reduced model: one state for each class, numbered as the class.
    pub fn reduced(&self, out: &mut Reduced) -> Result<(), Refusal>
        ensures { ReducedAnswer self.now out.old out.new result }
    {
        self.check_opened()?;
        if !self.rounds.settled {
            return Err(Refusal::NotSettled);
        }
        let mut rows = [Set::NONE; 128];
        write_outlooks(
            &self.rounds.reach,
            &self.found.moves,
            &self.rounds.partition,
            Set::below(self.found.components),
            &mut rows,
        );
        *out = reduce(&self.found, &self.rounds, &rows);
        Ok(())
    }
}
