// The texts that are sent, whoever answers.
ghost use Rattle.std.specs.Prelude.{◌≡◌};
ghost use Rattle.bp_doors.specs.Exchanges.{IsRefusalText, memory_text, text_of};

use bp_core::{Bytes, OutOfMemory};
use bp_web::{Answer, NO_MEMORY, WebRefusal, reply_bytes};
use std::alloc::Global;

/// The text that answers bytes that are no request.
pub fn refusal_bytes(alloc: Global, refusal: WebRefusal) -> Result<Bytes, OutOfMemory>
    ensures { IsRefusalText refusal (text_of result) }
{
    match refusal {
        WebRefusal::OutOfMemory => Err(OutOfMemory),
        _ => reply_bytes(alloc, &Answer::Web(refusal)),
    }
}

// The bytes to send. That memory ran out takes none.
pub(crate) fn text_of(text: &Result<Bytes, OutOfMemory>) -> &[u8]
    ensures { result.now ≡ text_of text.now }
{
    match text {
        Ok(bytes) => bytes.as_slice(),
        Err(OutOfMemory) => no_memory(),
    }
}

// What is sent for want of memory.
pub(crate) fn no_memory() -> &'static [u8]
    ensures { result.now ≡ memory_text }
{
    NO_MEMORY
}
