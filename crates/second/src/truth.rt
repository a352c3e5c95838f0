//! The second engine's truth: where a formula holds, by search along paths as the definitions have them.
use crate::oracle::{Plain, States, states_where};
use checker::steps::Step;
use std::alloc::{AllocError, Global};

impl Plain {
    fn everywhere(&self, heap: Global) -> Result<States, AllocError> {
        states_where(heap, &self.states, |_| true)
    }

    // Where word `a` holds.
    fn word(&self, heap: Global, a: u8) -> Result<States, AllocError> {
        states_where(heap, &self.states, |state| {
            a < 64 && (state.label >> a) & 1 == 1
        })
    }

    // Whether some state of a set moves into another set.
    fn enters(&self, from: &States, into: &States) -> bool {
        (0u16..)
            .zip(&self.states)
            .any(|(s, state)| from.contains(s) && into.meets(&state.moves))
    }

    // Where some finite path ends with g and has f before: at once, or by moves inside f and one more into g.
    fn until(&self, heap: Global, f: &States, g: &States) -> Result<States, AllocError> {
        let mut found = self.nothing(heap)?;
        for s in 0..self.size() {
            let inside = self.reached(heap, &self.alone(heap, s)?, f)?;
            if g.contains(s) || self.enters(&inside, g) {
                found.insert(s);
            }
        }
        Ok(found)
    }

    // Where some path of as many moves as there are states has f at all its states.
    fn globally(&self, heap: Global, f: &States) -> Result<States, AllocError> {
        let mut on = f.joined(heap, f, |one, _| one)?;
        for _turn in &self.states {
            let leads = states_where(heap, &self.states, |state| on.meets(&state.moves))?;
            on = f.joined(heap, &leads, |one, two| one && two)?;
        }
        Ok(on)
    }

    // A set that was left on the stack; a missing one counts as the empty set.
    fn taken(&self, heap: Global, stack: &mut Vec<States>) -> Result<States, AllocError> {
        match stack.pop() {
            Some(set) => Ok(set),
            None => self.nothing(heap),
        }
    }

    // What one step leaves on the stack of sets.
    fn step(&self, heap: Global, stack: &mut Vec<States>, step: Step) -> Result<(), AllocError> {
        let made = match step {
            Step::True => self.everywhere(heap)?,
            Step::Word(a) => self.word(heap, a)?,
            Step::Not => {
                let f = self.taken(heap, stack)?;
                f.joined(heap, &f, |one, _| !one)?
            }
            Step::Globally => {
                let f = self.taken(heap, stack)?;
                self.globally(heap, &f)?
            }
            Step::Or => {
                let g = self.taken(heap, stack)?;
                let f = self.taken(heap, stack)?;
                f.joined(heap, &g, |one, two| one || two)?
            }
            Step::Until => {
                let g = self.taken(heap, stack)?;
                let f = self.taken(heap, stack)?;
                self.until(heap, &f, &g)?
            }
        };
        stack.push(made)?;
        Ok(())
    }

    /// Where the formula holds that postfix steps are.
    pub fn truth(&self, heap: Global, steps: &[Step]) -> Result<States, AllocError> {
        let mut stack = Vec::new(heap);
        for step in steps {
            self.step(heap, &mut stack, *step)?;
        }
        self.taken(heap, &mut stack)
    }
}
