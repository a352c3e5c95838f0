//! The components in the order of their first members.
ghost use Rattle.std.specs.Prelude.{◌≡◌, ℕ, ◌<◌, ◌≤◌, ◌⊎◌, ◌↔◌, true};
ghost use Rattle.sets.specs.Sets.{In};
ghost use Rattle.components.specs.Numbers.{number, Numbered};

use crate::{Found, Parts};
use sets::Set;

// `set`, with `i` besides where `also` says so.
pub(crate) fn with_if(set: Set, i: usize, also: bool) -> Set
    ensures { (j : ℕ) → In result j ↔ (In set j ⊎ ((j ≡ i) × (i < 128) × (also ≡ true))) }
{
    if also { set.with(i) } else { set }
}

// Writes the component of each state to the front of `part`, numbered by first member, from numbers in any order;
// `cyclic` has those of the components that hold a cycle.
pub(crate) fn number(component: &Parts, cyclic: Set, size: usize, part: &mut Parts) -> Found
    requires size { size ≤ 128 }
    requires low { (s : ℕ) → s < size → number component.now s < 128 }
    ensures { Numbered component.now cyclic size part.old part.new result }
{
    // Kept: an array of fixed size, since the library takes no heap.
    let mut given = [None; 128];
    let mut found = Found {
        count: 0,
        cyclic: Set::NONE,
        order: [0; 128],
    };
    // Kept: `part` is written by number; of what is written under `iter_mut().zip(component)` the check knows nothing.
    for (s, &c) in component[..size].iter().enumerate() {
        match given[c as usize] {
            Some(i) => part[s] = i,
            None => {
                part[s] = found.count;
                found.order[c as usize] = found.count;
                given[c as usize] = Some(found.count);
                found.cyclic = with_if(found.cyclic, found.count as usize, cyclic.has(c as usize));
                found.count += 1;
            }
        }
    }
    found
}
