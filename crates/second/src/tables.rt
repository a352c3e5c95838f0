//! Plain models as the tables of a listed one, and where they come from: all small ones, and a seeded generator.
ghost use Rattle.std.specs.Prelude.{◌<◌, ◌≡◌, ◌+◌, IfOk, map};
ghost use Rattle.second.specs.Lists.{lists_of};
ghost use Rattle.second.specs.Totals.{row, states_of, totals_below, model, possible};

use crate::lists::{count_up_to, list, lists};
use crate::oracle::{Plain, State};
use models::facts::Facts;
use models::listed::Listed;
use std::alloc::{AllocError, Global};
use std::ops::Range;

// Kept: the same three tables as console's, since the second engine shares nothing with the programs.
/// The tables of a listed model.
#[derive(Drop)]
pub struct Tables {
    pub labels: Vec<Facts>,
    pub offsets: Vec<u32>,
    pub targets: Vec<u16>,
}

impl Tables {
    /// The tables that have a plain model's labels and rows.
    pub fn of(heap: Global, model: &Plain) -> Result<Tables, AllocError> {
        let mut tables = Tables {
            labels: Vec::new(heap),
            offsets: vec![in heap; 0]?,
            targets: Vec::new(heap),
        };
        for state in &model.states {
            tables.labels.push(Facts { bits: state.label })?;
            tables.targets.extend_from_slice(&state.moves)?;
            let end = u32::try_from(tables.targets.len()).unwrap_or(u32::MAX);
            tables.offsets.push(end)?;
        }
        Ok(tables)
    }

    /// The listed model.
    pub fn listed(&self) -> Listed<'_, Facts> {
        Listed {
            labels: self.labels.as_slice(),
            offsets: self.offsets.as_slice(),
            targets: self.targets.as_slice(),
        }
    }
}

/// A seeded generator of numbers.
#[derive(Clone, Copy)]
pub struct Dice(pub u64);

impl Dice {
    /// The next number below `limit`, or 0 where that is 0.
    pub fn below(&mut self, limit: u64) -> u64 {
        let mut x = self.0;
        x ^= x.wrapping_mul(1 << 13);
        x ^= x >> 7;
        x ^= x.wrapping_mul(1 << 17);
        self.0 = x;
        (x >> 11).checked_rem(limit).unwrap_or(0)
    }

    /// A total model of `size` states with words below `words`, where a row has each state once in `sparse` and at least one.
    pub fn model(
        &mut self,
        heap: Global,
        size: u16,
        words: u64,
        sparse: u64,
    ) -> Result<Plain, AllocError> {
        let mut states = Vec::new(heap);
        for _s in 0..size {
            let label = self.below(words);
            let sure = self.below(u64::from(size));
            let moves = (0..size)
                .filter(|t| u64::from(*t) == sure || self.below(sparse) == 0)
                .collect(heap)?;
            states.push(State { label, moves })?;
        }
        Ok(Plain { states })
    }
}

// The states of a set of numbers, which are its bits.
fn states_in(heap: Global, size: u16, bits: u32) -> Result<Vec<u16>, AllocError>
    ensures { IfOk result (λ states. states.items ≡ row size bits) }
{
    (0..size)
        .filter(|t| bits.checked_shr(u32::from(*t)).unwrap_or(0) % 2 == 1)
        .collect(heap)
}

/// Every total model of one size with one word, each made by its number.
#[derive(Drop)]
pub struct SmallModels {
    size: u16,
    // the states that such a model may have
    possible: Vec<State>,
}

impl SmallModels {
    /// Those of `size` states. What they are is promised of fewer than 31 states, where 2 ^ (size + 1) is a u32.
    pub fn of(heap: Global, size: u16) -> Result<SmallModels, AllocError>
        ensures { size < 31 → IfOk result (λ small. possible small ≡ states_of size) }
    {
        let mut possible = Vec::new(heap);
        // a label and a row for each number; the empty row, which comes first, is none
        for number in 2..2u32.saturating_pow(u32::from(size).saturating_add(1)) {
            let moves = states_in(heap, size, number / 2)?;
            let label = u64::from(number % 2);
            possible.push(State { label, moves })?;
        }
        Ok(SmallModels { size, possible })
    }

    /// Their numbers.
    pub fn numbers(&self) -> Range<u32> {
        let size = u32::from(self.size);
        let shorter = size
            .checked_sub(1)
            .map_or(0, |most| count_up_to(&self.possible, most));
        shorter..count_up_to(&self.possible, size)
    }

    /// The model of that number.
    pub fn model(&self, heap: Global, number: u32) -> Result<Plain, AllocError> {
        let states = list(heap, &self.possible, number)?;
        Ok(Plain { states })
    }
}

// Every total model of one size with one word.
fn models_of(heap: Global, size: u16) -> Result<Vec<Plain>, AllocError>
    ensures { size < 31 → IfOk result (λ models. map model models.items ≡ lists_of (states_of size) size) }
{
    let possible = SmallModels::of(heap, size)?.possible;
    let all = lists(heap, &possible, usize::from(size))?;
    all.into_iter().map(|states| Plain { states }).collect(heap)
}

/// Every total model of up to `most` states with one word, the smaller first.
// No memory holds those of 31 states or more, so the clause speaks of fewer.
pub fn small_models(heap: Global, most: u16) -> Result<Vec<Plain>, AllocError>
    ensures { most < 31 → IfOk result (λ models. map model models.items ≡ totals_below (most + 1)) }
{
    let mut models = Vec::new(heap);
    for size in 1..=most {
        models.append(&mut models_of(heap, size)?)?;
    }
    Ok(models)
}
