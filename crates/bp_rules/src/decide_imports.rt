// Deciding an import.
ghost use Rattle.std.specs.Prelude.{◌≡◌, None, true};
ghost use Rattle.std.specs.List.{find};
ghost use Rattle.std.specs.Option.{option_copied};
ghost use Rattle.std.specs.Str.{all_scalars, bytes_eq};
ghost use Rattle.bp_core.specs.Answers.{Answers};
ghost use Rattle.bp_rules.specs.Changes.{CanBeMade};
ghost use Rattle.bp_rules.specs.ImportRows.{import_rows};
ghost use Rattle.bp_rules.specs.Importing.{DecidesImport, batch_with, import_of, repeated};
ghost use Rattle.bp_rules.specs.Limits.{limit_passed};
ghost use Rattle.bp_rules.specs.Written.{RowsWritten};
ghost use Rattle.bp_rules.specs.declared.changes.Edit.TheVariants.{Import};

use crate::changes::{Change, Edit};
use crate::import_rows::import_rows;
use crate::limits::{documents_of_batch, limit_passed, pages_of_batch};
use bp_core::{Refusal, RuleKind, Text};
use bp_matter::laws::order_law;
use bp_matter::{Batch, BatchRow, Tables};
use std::alloc::Global;

/// What an import was decided to change, and how many documents and pages the batch has.
#[derive(Debug, Drop)]
pub struct Imported {
    pub change: Change,
    pub documents: u32,
    pub pages: u32,
}

/// Decides the import of a batch. A batch that was imported, by its name and its digest, changes
/// nothing and has its numbers told again. BatchDiffers where the name is kept with another digest,
/// and then MatterFull where a limit of the matter would be passed, with its number and what would
/// be reached.
pub fn decide_import(alloc: Global, tables: &Tables, batch: &Batch) -> Result<Imported, Refusal>
    ensures { DecidesImport tables.now.matter batch.now result }
{
    tables.know_valid();
    batch.know_batch();
    if let Some(row) = batch_with(tables, batch) {
        return repeated(alloc, row, batch);
    }
    if let Some(rule) = limit_passed(tables, batch) {
        return Err(Refusal::Rule(rule));
    }
    import_law(tables, batch);
    let rows = import_rows(alloc, tables, batch)?;
    let change = Change::new(alloc, Edit::Import(rows))?;
    Ok(Imported {
        change,
        documents: documents_of_batch(batch),
        pages: pages_of_batch(batch),
    })
}

// A batch that comes new and passes no limit makes a change that can be made.
fn import_law(tables: &Tables, batch: &Batch)
    requires new { batch_with batch.now.name tables.now.matter ≡ None }
    requires room { limit_passed tables.now.matter batch.now ≡ None }
    ensures made { CanBeMade tables.now.matter
        (Import (import_rows tables.now.matter batch.now)) }
    ensures written { RowsWritten (import_rows tables.now.matter batch.now) }
{
    order_law();
    tables.know_valid();
    batch.know_batch();
    name_law(batch);
}

// A name has characters that UTF-8 can write.
fn name_law(batch: &Batch)
    ensures { all_scalars batch.now.name ≡ true }
{
    let _name = batch.name.as_str();
}

// The batch of this batch's name.
fn batch_with<'a>(tables: &'a Tables, batch: &Batch) -> Option<&'a BatchRow>
    ensures { option_copied result ≡ batch_with batch.now.name tables.now.matter }
{
    named(&tables.batches, &batch.name)
}

fn named<'a>(rows: &'a [BatchRow], name: &Text) -> Option<&'a BatchRow>
    ensures { option_copied result ≡ find (λ row. bytes_eq row.name name.now) rows.now }
{
    rows.iter().find(|row| row.name == *name)
}

// The numbers of a batch that was imported.
fn repeated(alloc: Global, row: &BatchRow, batch: &Batch) -> Result<Imported, Refusal>
    ensures { Answers (λ imported. imported) result (repeated row.now batch.now) }
{
    if row.digest != batch.digest {
        return Err(Refusal::bare(RuleKind::BatchDiffers));
    }
    Ok(Imported {
        change: Change::new(alloc, Edit::Nothing)?,
        documents: row.documents,
        pages: row.pages,
    })
}
