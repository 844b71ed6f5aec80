// What a keeper answers where the database refused.
ghost use Rattle.std.specs.Prelude.{◌≡◌, Err};
ghost use Rattle.bp_keep.specs.Keeper.{faults_after};
ghost use Rattle.bp_keep_sql.specs.Asked.{told_as};

use bp_keep::KeepRefusal;
use sqlite::{Error, ErrorCode};

// Want of memory, or a fault, which is counted.
pub fn refuse(faults: &mut u64, error: Error) -> KeepRefusal
    ensures told { result ≡ told_as error }
    ensures counted { faults.new ≡ faults_after {T = Unit {0}} faults.old (Err result) }
{
    match error {
        Error::SqliteFailure(ErrorCode::OutOfMemory) => KeepRefusal::OutOfMemory,
        _ => {
            *faults = faults.saturating_add(1);
            KeepRefusal::Failed
        }
    }
}
