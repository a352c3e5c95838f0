//! Lists from an alphabet: all of them, or each by its number, so that a trial holds one at a time. The shorter come first,
//! and of those of one length the last item changes first.
ghost use Rattle.std.specs.Prelude.{◌<◌, ◌+◌, ◌^◌, ℕ, length, get_or, [], IfOk, SomeIff};
ghost use Rattle.std.specs.List.{AllZip};
ghost use Rattle.second.specs.Lists.{lists_of, lists_below};

use std::alloc::{AllocError, Global};

fn base_of<T>(alphabet: &[T]) -> u32 {
    u32::try_from(alphabet.len()).unwrap_or(u32::MAX)
}

/// How many lists of up to `most` items of an alphabet there are, or the largest number where there are more.
pub fn count_up_to<T>(alphabet: &[T], most: u32) -> u32 {
    let base = base_of(alphabet);
    (0..=most).fold(
        0u32,
        |sum, len| sum.saturating_add(base.saturating_pow(len)),
    )
}

/// The list of that number; of an alphabet of one item, at most 32 items of it.
pub fn list<T: Clone + Drop>(
    heap: Global,
    alphabet: &[T],
    number: u32,
) -> Result<Vec<T>, AllocError> {
    let base = base_of(alphabet);
    let mut items = Vec::new(heap);
    let mut rest = number;
    // its digits run from 1 to the base, so that each number is one list
    for _place in 0..u32::BITS {
        let Some(more) = rest.checked_sub(1) else {
            break;
        };
        let digit = more.checked_rem(base).unwrap_or(0);
        if let Some(item) = alphabet.get(digit as usize) {
            items.push(item.clone()?)?;
        }
        rest = more.checked_div(base).unwrap_or(0);
    }
    items.reverse();
    Ok(items)
}

// How many lists of `len` items there are, unless they are too many to count.
fn count_of_len<T>(alphabet: &[T], len: usize) -> Option<usize>
    ensures { SomeIff result (length alphabet.now ^ len < 2 ^ 64) (length alphabet.now ^ len) }
{
    // of longer lists there are more than can be counted, or the alphabet has at most one item
    let places = u32::try_from(len).unwrap_or(u32::MAX);
    alphabet.len().checked_pow(places)
}

// The list of that number among those of `len` items.
fn list_of_len<T: Clone + Drop>(
    heap: Global,
    alphabet: &[T],
    len: usize,
    number: usize,
) -> Result<Vec<T>, AllocError>
    requires { number < length alphabet.now ^ len }
    ensures { IfOk result (λ made. AllZip T.is_clone (get_or (lists_of alphabet.now len) number []) made.items) }
{
    let mut items = Vec::with_capacity(heap, len)?;
    let mut rest = number;
    for _place in 0..len {
        items.push(alphabet[rest % alphabet.len()].clone()?)?;
        rest /= alphabet.len();
    }
    items.reverse();
    Ok(items)
}

/// Every list of `len` items of an alphabet.
pub fn lists<T: Clone + Drop>(
    heap: Global,
    alphabet: &[T],
    len: usize,
) -> Result<Vec<Vec<T>>, AllocError>
    ensures { IfOk result (λ all. AllZip (λ list made. AllZip T.is_clone list made.items) (lists_of alphabet.now len) all.items) }
{
    // what cannot be counted has no room either
    let count = count_of_len(alphabet, len).ok_or(AllocError)?;
    let mut all = Vec::new(heap);
    for number in 0..count {
        all.push(list_of_len(heap, alphabet, len, number)?)?;
    }
    Ok(all)
}

/// Every list of up to `most` items of an alphabet.
pub fn lists_up_to<T: Clone + Drop>(
    heap: Global,
    alphabet: &[T],
    most: usize,
) -> Result<Vec<Vec<T>>, AllocError>
    ensures { IfOk result (λ all. AllZip (λ list made. AllZip T.is_clone list made.items) (lists_below alphabet.now (most + 1)) all.items) }
{
    let mut all = Vec::new(heap);
    for len in 0..=most {
        all.append(&mut lists(heap, alphabet, len)?)?;
    }
    Ok(all)
}
