// How a matter begins.
ghost use Rattle.std.specs.Prelude.{◌≡◌, IfOk, codes};
ghost use Rattle.bp_rules.specs.Beginning.{begun};

use bp_core::{OutOfMemory, Role, StaffNo, Text};
use bp_matter::{StaffRow, Tables};
use bp_shelves::Shelves;
use std::alloc::Global;

/// The tables of a new matter: staff 1, named `lead`, is a lead whose key has this SHA-256, and
/// there is nothing else.
///
///     let tables = begin(alloc, digest)?;
pub fn begin(alloc: Global, digest: [u8; 32]) -> Result<Tables, OutOfMemory>
    ensures { IfOk result (λ tables. tables.matter ≡ begun digest) }
{
    let mut staff = Vec::new(alloc);
    staff.push(StaffRow {
        staff: StaffNo(1),
        role: Role::Lead,
        digest,
        name: lead_name(alloc)?,
    })?;
    Ok(Tables {
        staff,
        fields: Vec::new(alloc),
        docs: Vec::new(alloc),
        pages: Vec::new(alloc),
        calls: Shelves::new(alloc),
        boxes: Shelves::new(alloc),
        held: Shelves::new(alloc),
        entries: Shelves::new(alloc),
        prefixes: Vec::new(alloc),
        productions: Vec::new(alloc),
        batches: Vec::new(alloc),
        words: Vec::new(alloc),
    })
}

fn lead_name(alloc: Global) -> Result<Text, OutOfMemory>
    ensures { IfOk result (λ name. name ≡ codes "lead") }
{
    Ok(Text::from_string(String::from_str(alloc, "lead")?))
}
