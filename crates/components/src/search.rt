//! The search: one depth-first walk with two stacks in lent memory.
ghost use Rattle.std.specs.Prelude.{◌≡◌, ℕ, ◌<◌, ◌≤◌, ◌↔◌, ◌++◌, List, [], length, ◌≢◌};
ghost use Rattle.sets.specs.Sets.{In};
ghost use Rattle.sets.specs.declared.Set.{Set as States};
ghost use Rattle.components.specs.Search.{Any, walking, walked, Entered, Joins, Shuts, RoomForOne, Going, Resting, Next, Searched, amount};

use crate::Parts;
use crate::marks::Walk;
use crate::numbering::with_if;
use sets::Set;
use stack::Stack;

// How far a search has come among the states of a table of rows. The stretch of the way that it is at stands beside it.
#[derive(Drop)]
pub(crate) struct Search<'a> {
    // of each state in a component: the component's number, in the order in which they are closed
    pub(crate) component: Parts,
    pub(crate) count: u8,
    // the components with a move inside
    pub(crate) cyclic: Set,
    // the states that are in no component yet, and those of them that are not met yet
    undone: Set,
    unmet: Set,
    // the states on the way, in the order in which they were met
    numbers: Stack<'a, u16>,
    // the stretches of the way
    walk: Stack<'a, Walk>,
}

impl<'a> Search<'a> {
    // None of the first `size` states is met yet.
    pub(crate) fn new(size: usize, walks: &'a mut [Walk], states: &'a mut [u16]) -> Search<'a>
        requires { (size ≤ 128) × (size ≤ length walks.old) × (size ≤ length states.old) }
        ensures { (rows : List States) → length rows ≡ size → Resting rows result }
    {
        let all = Set::below(size);
        Search {
            component: [0; 128],
            count: 0,
            cyclic: Set::NONE,
            undone: all,
            unmet: all,
            numbers: Stack::new(states),
            walk: Stack::new(walks),
        }
    }
    // Walks from every state that is not met yet.
    pub(crate) fn walk_all(&mut self, rows: &[Set])
        requires { Resting rows.now self.old }
        ensures { Searched rows.now self.new }
    {
        while let Some((root, _)) = self.unmet.split_first() {
            self.explore(rows, root);
        }
    }

    // Walks from `root` until the walk is over.
    fn explore(&mut self, rows: &[Set], root: usize)
        requires resting { Resting rows.now self.old }
        requires root { In self.old.unmet root }
        ensures resting { Resting rows.now self.new }
        ensures seen { amount (length rows.now) self.new.unmet < amount (length rows.now) self.old.unmet }
    {
        let mut top = self.enter(rows, root);
        while let Some(next) = self.step(rows, top) {
            top = next;
        }
    }

    // Goes on from `top`: to a state that is not met yet, or back to one that is on the way, which makes the stretches
    // between one, or out of `top`, which is a component then.
    fn step(&mut self, rows: &[Set], top: Walk) -> Option<Walk>
        requires { Going rows.now (walking self.old top) }
        ensures next { Next rows.now (walking self.old top) (walked self.new result) }
        ensures over { result ≡ None → self.new.walk.held ≡ [] }
    {
        let ahead = top.moves.and(self.undone).minus(top.states);
        if let Some((t, _)) = ahead.and(self.unmet).split_first() {
            self.walk.push(top).unwrap();
            return Some(self.enter(rows, t));
        }
        if ahead != Set::NONE {
            return Some(self.join(top));
        }
        self.close(top);
        self.walk.pop()
    }

    // Meets a state: the way goes on with a stretch of its own.
    fn enter(&mut self, rows: &[Set], t: usize) -> Walk
        requires state { (t < 128) × (t < length rows.now) }
        requires room { RoomForOne self.old }
        ensures { Entered rows.now self.old t (walking self.new result) }
    {
        let at = self.numbers.len();
        self.numbers.push(t as u16).unwrap();
        let states = Set::NONE.with(t);
        self.unmet = self.unmet.minus(states);
        Walk {
            states,
            moves: rows[t],
            at,
        }
    }

    // Makes `top` and the stretch before it one.
    fn join(&mut self, top: Walk) -> Walk
        requires { self.old.walk.held ≢ [] }
        ensures { Joins self.old top (walking self.new result) }
    {
        let below = self.walk.pop().unwrap();
        Walk {
            states: below.states.or(top.states),
            moves: below.moves.or(top.moves),
            at: below.at,
        }
    }

    // Makes a component of the states of `top`, which stand on the number stack from its place up.
    fn close(&mut self, top: Walk)
        requires many { self.old.count < 128 }
        requires wide { length self.old.component ≡ 128 }
        requires stacked { (own rest : List ℕ) × (self.old.numbers.held ≡ own ++ rest) × (length rest ≡ top.at) × ((s : ℕ) → In top.states s ↔ Any (λ x. x ≡ s) own) }
        requires low { (s : ℕ) → In top.states s → s < 128 }
        ensures { Shuts self.old top self.new }
    {
        while let Some(s) = self.numbers.pop_above(top.at) {
            self.component[s as usize] = self.count;
        }
        self.undone = self.undone.minus(top.states);
        self.cyclic = with_if(
            self.cyclic,
            self.count as usize,
            top.moves.meets(top.states),
        );
        self.count += 1;
    }
}
