// Counts of what a source couldn't read.
ghost use Rattle.std.specs.Prelude.{◌≡◌};
ghost use Rattle.bp_outside.specs.ReadCounts.{counts_raised};

use crate::refusals::ReadRefusal;

// How often a source failed, found no file, and found a file over its limit.
#[derive(Clone, Copy, Debug)]
pub struct ReadCounts {
    pub faults: u64,
    pub absences: u64,
    pub overlong: u64,
}

impl ReadCounts {
    pub const ZERO: ReadCounts = ReadCounts {
        faults: 0,
        absences: 0,
        overlong: 0,
    };

    // Raises the count of this refusal by one, and gives it back.
    pub fn refuse(&mut self, refusal: ReadRefusal) -> ReadRefusal
        ensures same { result ≡ refusal }
        ensures counted { self.new ≡ counts_raised self.old refusal }
    {
        match refusal {
            ReadRefusal::Absent => self.absences = self.absences.saturating_add(1),
            ReadRefusal::TooLong => self.overlong = self.overlong.saturating_add(1),
            ReadRefusal::Failed => self.faults = self.faults.saturating_add(1),
            ReadRefusal::OutOfMemory => {}
        }
        refusal
    }
}
