// The calls of an object in memory.
ghost use Rattle.std.specs.Prelude.{◌≡◌};
ghost use Rattle.bp_core.specs.Calls.{no_calls, next_fails, after_call};

use crate::lists::NumberList;

/// The calls of one object in memory, numbered from 0 in one sequence: how many were made, and the
/// numbers of those that are to fail.
#[derive(Debug, Drop)]
pub struct Calls {
    failing: NumberList,
    made: u64,
}

impl Calls {
    /// No call yet. It takes no memory.
    pub fn new(failing: NumberList) -> Calls
        ensures { result ≡ no_calls failing }
    {
        Calls { failing, made: 0 }
    }

    /// Numbers the next call, and tells whether it is to fail.
    pub fn next_fails(&mut self) -> bool
        ensures answer { result ≡ next_fails self.old }
        ensures counted { self.new ≡ after_call self.old }
    {
        let fails = self.failing.as_slice().contains(&self.made);
        self.made = self.made.saturating_add(1);
        fails
    }
}
