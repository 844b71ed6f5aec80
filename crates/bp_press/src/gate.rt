// What the job of each image enters before its work.
ghost use Rattle.std.specs.Prelude.{ℕ};

/// A gate that each job of `strips_of` enters before its work. A call returns.
pub trait Gate {
    /// That the job of a number has entered. Whoever knows nothing else of a gate learns it from
    /// `enter` alone.
    ghost entered: { Self → ℕ → Type 0 };

    /// The job of this number begins. Jobs are counted from 0 in the list of the call.
    fn enter(&self, job: usize)
        ensures { entered self.now job };
}

/// A gate that lets each job pass.
#[derive(Clone, Copy, Debug, PartialEq, Eq)]
pub struct OpenGate;

impl Gate for OpenGate {
    ghost entered = { λ gate job. Unit {0} };

    fn enter(&self, _job: usize) {}
}
