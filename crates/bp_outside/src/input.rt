// The input of one exchange at a door.
ghost use Rattle.std.specs.Prelude.{◌≡◌, ◌<◌, ◌≤◌, ℕ, Bool, List, IfOk, length, true};
ghost use Rattle.bp_outside.specs.Door.{DoorView};
ghost use Rattle.bp_outside.specs.Input.{TakesInput, TakesSome};

use crate::door::Door;
use crate::refusals::DoorRefusal;
use std::alloc::Global;

/// How many bytes are read at a time.
pub const INPUT_CHUNK: usize = 16_384;

/// How much of an input is read.
pub trait Enough {
    // What each answer says of bytes: true that they are enough, false that more are wanted.
    ghost Tells: { Self → List ℕ → Bool → Type 0 };

    // So many bytes are enough.
    ghost limit: { Self → ℕ };

    /// Whether these bytes are enough.
    fn enough(&self, bytes: &[u8]) -> bool
        ensures told { Tells self.now bytes.now result }
        ensures most { limit self.now ≤ length bytes.now → result ≡ true };

    /// So many bytes are enough.
    fn limit(&self) -> usize
        ensures { result ≡ limit self.now };
}

/// Why an input wasn't read.
#[derive(Clone, Copy, Debug, PartialEq, Eq)]
pub enum InputStop {
    /// There was too little memory for what was read.
    LackedMemory,
    /// The door refused a read.
    Refused(DoorRefusal),
}

/// Reads the input of the exchange under way until its bytes are enough, or to its end. No read is
/// asked for once they are enough.
pub fn read_input<D: Door, E: Enough>(
    alloc: Global,
    door: &mut D,
    until: &E,
) -> Result<Vec<u8>, InputStop>
    requires { (D.shows door.old).under_way ≡ true }
    ensures takes { TakesInput (E.Tells until.now) (D.shows door.old) result
        (D.shows door.new) }
    ensures limit { IfOk result (λ bytes. length bytes.items ≤ E.limit until.now) }
{
    let mut bytes = Vec::new(alloc);
    let mut chunk = [0u8; INPUT_CHUNK];
    let limit = until.limit();
    'reading: while !until.enough(bytes.as_slice()) {
        let room = (limit - bytes.len()).min(INPUT_CHUNK);
        match read_some(alloc, door, &mut chunk[..room], &mut bytes) {
            Ok(true) => {}
            Ok(false) => return Ok(bytes),
            Err(stop) => return Err(stop),
        }
    }
    Ok(bytes)
}

// Adds the next bytes of the input to those before. False at the end of input.
fn read_some<D: Door>(
    alloc: Global,
    door: &mut D,
    room: &mut [u8],
    bytes: &mut Vec<u8>,
) -> Result<bool, InputStop>
    requires exchange { (D.shows door.old).under_way ≡ true }
    requires room { 0 < length room.old }
    ensures { TakesSome (length room.old) (D.shows door.old) bytes.old.items result
        bytes.new.items (D.shows door.new) }
{
    let taken = match door.read(alloc, room) {
        Ok(taken) => taken,
        Err(refusal) => return Err(InputStop::Refused(refusal)),
    };
    if taken == 0 {
        return Ok(false);
    }
    if bytes.extend_from_slice(&room[..taken]).is_err() {
        return Err(InputStop::LackedMemory);
    }
    Ok(true)
}
