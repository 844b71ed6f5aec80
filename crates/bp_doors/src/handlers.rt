// Who answers what comes through a door.
use bp_core::{Bytes, OutOfMemory};
use bp_outside::Enough;
use std::alloc::Global;

/// What answers a request.
#[derive(Debug, Drop)]
pub struct Answered {
    /// The text to send; or memory ran out for it, and that is sent.
    pub text: Result<Bytes, OutOfMemory>,
    /// Whether something was made by it, as a call or an event.
    pub made: bool,
}

/// Who answers what comes through a door, at an S and with a T, which an answer may change; such as
/// the calls at a seat of a desk. How much of an input is read it says as `Enough`.
pub trait Handler<S, T>: Enough {
    ghost use Rattle.std.specs.Prelude.{Bool, false};
    ghost use Rattle.bp_outside.specs.declared.exchange.Exchange.{Exchange};
    ghost use Rattle.bp_doors.specs.Exchanges.{AnswersBytes, WasCut, text_of};

    // What holds of both before each answer, and after it.
    ghost Keeps: { Self → (S × T) → Type 0 };

    // What an exchange did: from what both were before it, to what they are after it, and whether
    // something was made in it.
    ghost Deals: { Self → (S × T) → Exchange → Bool → (S × T) → Type 0 };

    /// Answers the bytes of a request.
    fn answer(&self, alloc: Global, at: &mut S, by: &mut T, bytes: &[u8]) -> Answered
        requires { Keeps self.now (at.old, by.old) }
        ensures answers { AnswersBytes (Self.Tells self.now) (Deals self.now) (at.old, by.old)
            bytes.now (text_of result.text) result.made (at.new, by.new) }
        ensures keeps { Keeps self.now (at.new, by.new) };

    // An exchange that was cut off before it was answered, or for which memory ran out, leaves both.
    ghost cut_off: { (h : Self) (w : S × T) (x : Exchange) → WasCut (Self.Tells h) x
        → Deals h w x false w };
}
