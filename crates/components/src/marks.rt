//! What the search keeps of the way that it came.
use sets::Set;

/// A stretch of the way: states that all reach one another. The memory that is lent for these holds no answer: fill it with
/// `Walk::BLANK`.
#[derive(Clone, Copy)]
pub struct Walk {
    pub(crate) states: Set,
    // where these states move to
    pub(crate) moves: Set,
    // how many states stand before them on the stack of state numbers
    pub(crate) at: usize,
}

impl Walk {
    /// A record to make memory of.
    pub const BLANK: Walk = Walk {
        states: Set::NONE,
        moves: Set::NONE,
        at: 0,
    };
}
