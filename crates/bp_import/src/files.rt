// The files of a batch.
ghost use Rattle.std.specs.Prelude.{◌≡◌, ◌≤◌, length, IfOk, IfSome};
ghost use Rattle.std.specs.Str.{chars};
ghost use Rattle.bp_import.specs.Files.{below, batch_file_at, file_rule};
ghost use Rattle.bp_import.specs.Importing.{Comes, after_step};
ghost use Rattle.bp_import.specs.Refusals.{read_refused};

use crate::refusals::ImportRefusal;
use bp_core::{OutOfMemory, Rule, RuleKind, Text};
use bp_outside::{ReadRefusal, Source};
use std::alloc::Global;

/// The most bytes that a file may have which is read.
pub const FILE_LIMIT: u64 = 134_217_728;

/// Which file of a batch a rule speaks of: the DAT file.
pub const DAT: u64 = 0;

/// The OPT file.
pub const OPT: u64 = 1;

/// The words file.
pub const WORDS: u64 = 2;

/// An image file.
pub const IMAGE: u64 = 3;

/// The bytes of a file of a batch. FileAbsent where there is none at this path, FileTooLong where
/// it has more than FILE_LIMIT bytes, each with the number of the file and the OPT line of an
/// image, which is 0 for the others.
pub(crate) fn read_file<S: Source>(
    alloc: Global,
    source: &mut S,
    path: &Text,
    which: u64,
    line: u32,
) -> Result<Vec<u8>, ImportRefusal>
    // Over told files it is the file, or the rule.
    ensures told { IfSome (S.shows source.old).files (λ files.
        Comes (λ bytes. bytes.items)
        (λ answer. batch_file_at files path.now which line ≡ answer) result) }

    ensures limit { IfOk result (λ bytes. length bytes.items ≤ FILE_LIMIT) }

    // Of the source the count of the refusal's own cause alone rises.
    ensures after { S.shows source.new ≡ after_step (S.shows source.old) result }
{
    match source.read(alloc, path.as_str(), FILE_LIMIT) {
        Ok(bytes) => Ok(bytes),
        Err(refusal) => Err(refused_read(refusal, which, line)),
    }
}

fn refused_read(refusal: ReadRefusal, which: u64, line: u32) -> ImportRefusal
    ensures { result ≡ read_refused which line refusal }
{
    match refusal {
        ReadRefusal::Absent => ImportRefusal::Rule(file_rule(RuleKind::FileAbsent, which, line)),
        ReadRefusal::TooLong => ImportRefusal::Rule(file_rule(RuleKind::FileTooLong, which, line)),
        ReadRefusal::Failed => ImportRefusal::SourceFault,
        ReadRefusal::OutOfMemory => ImportRefusal::OutOfMemory,
    }
}

fn file_rule(kind: RuleKind, which: u64, line: u32) -> Rule
    ensures { result ≡ file_rule kind which line }
{
    Rule {
        a: which,
        ..Rule::at_line(kind, line)
    }
}

/// The path of a file in the folder of a batch.
pub(crate) fn path_below(alloc: Global, name: &Text, path: &str) -> Result<Text, OutOfMemory>
    ensures { IfOk result (λ joined. joined ≡ below name.now (chars path.now)) }
{
    let mut joined = String::from_str(alloc, name.as_str())?;
    joined.push('/')?;
    joined.push_str(path)?;
    Ok(Text::from_string(joined))
}
