//! What the trials count.
use std::fmt;

/// How many there are of something.
#[derive(Clone, Copy, Default)]
pub struct Count(u32);

impl Count {
    /// Counts one more.
    pub fn add_one(&mut self) {
        self.0 = self.0.saturating_add(1);
    }

    /// Counts one more where a test holds.
    pub fn add_if(&mut self, holds: bool) {
        if holds {
            self.add_one();
        }
    }
}

impl fmt::Display for Count {
    fn fmt<W: fmt::Write>(&self, f: &mut fmt::Formatter<W>) -> fmt::Result {
        self.0.fmt(f)
    }
}
