//! Laws of the definitions. Each function does nothing: its contract is the law.
ghost use Rattle.bp_desk.specs.Laws.{DoorLaw, FaultsLaw, RunLaw, SeatsLaw};
ghost use Rattle.bp_desk.specs.Run.{SeatLaw};

/// The matter after calls at a desk is that after the same calls without one.
pub fn run_law()
    ensures { RunLaw }
{}

/// What a door was served for a seat stands in the whole history.
pub fn seat_law()
    ensures { SeatLaw }
{}

/// What a door was served at a seat stands in the whole history, once the desk is closed.
pub fn door_law()
    ensures { DoorLaw }
{}

/// Over all seats together at most as many calls were answered that the keeper failed as its count rose
/// by.
pub fn faults_law()
    ensures { FaultsLaw }
{}

/// The seats that were dealt at the start are all seats of the desk, whatever was done at them.
pub fn seats_law()
    ensures { SeatsLaw }
{}
