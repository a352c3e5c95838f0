//! A stack over cells that are lent to it.
#![tactic(auto)]

ghost use Rattle.std.specs.Prelude.{◌≡◌, ◌<◌, ◌≤◌, [], ◌∷◌, length, drop, MatchOption, MatchResult, ◌==◌};
ghost use Rattle.stack.specs.Held.{pushed, replaced};

use std::marker::Model;

/// Its entries are in the first cells, the oldest first; the other cells are free.
// Kept: a count beside lent cells, which a Vec would be in one: the libraries under the merger take no heap.
#[derive(Drop)]
pub struct Stack<'a, T> {
    cells: &'a mut [T],
    len: usize,
}

// Clauses see the entries, the newest first, and how many find room.
impl<'a, T> Model for Stack<'a, T> {
    ghost use Rattle.std.specs.Prelude.{◌≤◌, length, reverse, take};
    ghost use Rattle.stack.specs.Held.{Held};

    ghost Value = { Held T };

    ghost view = { λ s. record { held = reverse (take s.len s.cells.now); room = length s.cells.now } };

    ghost invariant = { λ s. s.len ≤ length s.cells.now };
}

impl<'a, T: Copy> Stack<'a, T> {
    /// An empty stack over `cells`.
    pub fn new(cells: &'a mut [T]) -> Stack<'a, T>
        ensures { result ≡ record { held = []; room = length cells.old } }
    {
        Stack { cells, len: 0 }
    }

    /// How many entries it holds.
    pub fn len(&self) -> usize
        ensures { result ≡ length self.now.held }
    {
        self.len
    }

    pub fn is_empty(&self) -> bool
        ensures { result ≡ (length self.now.held == 0) }
    {
        self.len == 0
    }

    /// Puts `x` on top, or hands it back where every cell is in use.
    pub fn push(&mut self, x: T) -> Result<(), T>
        ensures { MatchResult result (λ _. (length self.old.held < self.old.room) × (self.new ≡ pushed self.old x)) (λ y. (y ≡ x) × (length self.old.held ≡ self.old.room) × (self.new ≡ self.old)) }
    {
        if self.len == self.cells.len() {
            return Err(x);
        }
        self.cells[self.len] = x;
        self.len += 1;
        Ok(())
    }

    /// Takes the newest entry off.
    pub fn pop(&mut self) -> Option<T>
        ensures { MatchOption result ((self.old.held ≡ []) × (self.new ≡ self.old)) (λ x. self.old ≡ pushed self.new x) }
    {
        self.pop_above(0)
    }

    /// Takes the newest entry off if there are more than `height`.
    pub fn pop_above(&mut self, height: usize) -> Option<T>
        ensures { MatchOption result ((length self.old.held ≤ height) × (self.new ≡ self.old)) (λ x. (height < length self.old.held) × (self.old ≡ pushed self.new x)) }
    {
        if self.len <= height {
            return None;
        }
        self.len -= 1;
        Some(self.cells[self.len])
    }

    /// The newest entry.
    pub fn top(&self) -> Option<T>
        ensures { MatchOption result (self.now.held ≡ []) (λ x. self.now.held ≡ x ∷ drop 1 self.now.held) }
    {
        self.cells[..self.len].last().copied()
    }

    /// Writes `x` over the newest entry; an empty stack hands it back.
    pub fn replace(&mut self, x: T) -> Result<(), T>
        ensures { MatchResult result (λ _. (0 < length self.old.held) × (self.new ≡ replaced self.old x)) (λ y. (y ≡ x) × (self.old.held ≡ []) × (self.new ≡ self.old)) }
    {
        if self.len == 0 {
            return Err(x);
        }
        self.cells[self.len - 1] = x;
        Ok(())
    }
}
