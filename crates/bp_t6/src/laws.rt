//! The laws of strips. The functions do nothing: the contract of each is the law.
ghost use Rattle.std.specs.Prelude.{◌≡◌, ◌<◌, ◌≤◌, ◌+◌, ◌*◌, ◌^◌, ◌↔◌, ◌⊎◌, ℕ, Bool, List, None, length, slice_range, take};
ghost use Rattle.bp_core.specs.declared.rules.RuleKind.{RuleKind};
ghost use Rattle.bp_codes.specs.declared.span.Fill.TheVariants.{High};
ghost use Rattle.bp_codes.specs.Bits.{bits_of};
ghost use Rattle.bp_rows.specs.Changes.{Shows};
ghost use Rattle.bp_rows.specs.Image.{Image, IsPage, row_of};
ghost use Rattle.bp_rows.specs.Runs.{IsRuns};
ghost use Rattle.bp_t6.specs.Written.{row_code, bits_strip};
ghost use Rattle.bp_t6.specs.Faults.{StripFault};
ghost use Rattle.bp_t6.specs.Read.{StripReads};
ghost use Rattle.bp_t6.specs.SoFar.{ReadSoFar, ReadsLine, ReadsNextRow, ReadsPage, row_above, unread};
ghost use Rattle.bp_t6.specs.Strips.{SaysFault};
ghost use Rattle.bp_core.specs.declared.rules.Rule.{Rule as BrokenRule};

use bp_codes::laws::{black_laws, mode_laws, mode_place_laws, white_laws};

/// The strip of a page is read as the page's rows, and as no others.
pub fn strip_law()
    ensures { (p : Image) (lines : List (List Bool)) →
        IsPage p →
        StripReads (bits_of High (bits_strip p)) p.width p.height lines ↔ (lines ≡ p.rows) }
{
    white_laws();
    black_laws();
    mode_laws();
}

/// The code of a line has at most 64 bits for each pixel and 64 more; the strip of a page is not
/// longer than this, and its length fits 32 bits.
pub fn strip_size()
    ensures row { (above line : List Bool) →
        length above ≡ length line → length (row_code above line) ≤ 64 * (length line + 1) }
    ensures short { (p : Image) →
        IsPage p → length (bits_strip p) ≤ 8 * (p.width + 1) * p.height + 4 }
    ensures fits { (p : Image) → IsPage p → length (bits_strip p) < 2 ^ 32 }
{}

/// A strip is read as the same lines or as none, has no fault where it is read, and at most one.
pub fn reading_law()
    ensures read { (bits : List Bool) (width height : ℕ) (first second : List (List Bool)) →
        StripReads bits width height first →
        StripReads bits width height second →
        first ≡ second }
    ensures none { (bits : List Bool) (width height : ℕ) (lines : List (List Bool)) →
        (kind : RuleKind) (row at : ℕ) →
        StripReads bits width height lines →
        StripFault bits width height kind row at →
        ⊥ }
    ensures one { (bits : List Bool) (width height : ℕ) (k l : RuleKind) (r s a b : ℕ) →
        StripFault bits width height k r a →
        StripFault bits width height l s b →
        (k ≡ l) × (r ≡ s) × (a ≡ b) }
{
    white_laws();
    black_laws();
    mode_laws();
    mode_place_laws();
}

/// The rows that are read one after another over the strip of a page are the page's, in order, and
/// none of them breaks a rule. A fault of some rows is one of more rows too.
pub fn rows_law()
    ensures begins { (p : Image) (reader : ReadSoFar) →
        reader ≡ unread (bits_of High (bits_strip p)) p.width → ReadsPage p 0 reader }
    ensures next { (p : Image) (count : ℕ) (old new : ReadSoFar) (runs : List ℕ) →
        IsPage p → count < p.height → ReadsPage p count old →
        new.bits ≡ old.bits → new.width ≡ old.width → new.fault ≡ None →
        ReadsNextRow (take count p.rows) new runs →
        IsRuns runs (row_of p count) × ReadsPage p (count + 1) new }
    ensures line { (p : Image) (count : ℕ) (old new : ReadSoFar) →
        IsPage p → count < p.height → ReadsPage p count old →
        new.bits ≡ old.bits → new.width ≡ old.width → new.fault ≡ None →
        ReadsLine (take count p.rows) new →
        Shows new.above new.width (row_of p count) × ReadsPage p (count + 1) new }
    ensures never { (p : Image) (count : ℕ) (reader : ReadSoFar) (rule : BrokenRule) →
        IsPage p → count < p.height → ReadsPage p count reader →
        SaysFault reader.bits reader.width (reader.row + 1) 0 rule →
        ⊥ }
    ensures more { (bits : List Bool) (width count height : ℕ) →
        (kind : RuleKind) (row at : ℕ) →
        StripFault bits width count kind row at → count ≤ height →
        StripFault bits width height kind row at }
{
    strip_law();
    reading_law();
}

/// The code of a row of a page, against the row above it, stands in the strip of the page from where
/// reading stood before the row up to where it stands behind it.
pub fn code_law()
    ensures order { (p : Image) (count : ℕ) (old new : ReadSoFar) →
        IsPage p → count < p.height → ReadsPage p count old → ReadsPage p (count + 1) new →
        old.at ≤ new.at }
    ensures code { (p : Image) (count : ℕ) (old new : ReadSoFar) →
        IsPage p → count < p.height → ReadsPage p count old → ReadsPage p (count + 1) new →
        slice_range new.bits old.at new.at ≡ row_code (row_above p count) (row_of p count) }
{
    white_laws();
    black_laws();
    mode_laws();
}

/// Whatever the bits are, a strip of any sides is read as some lines or has some fault.
pub fn some_answer()
    ensures { (bits : List Bool) (width height : ℕ) →
        ((lines : List (List Bool)) × StripReads bits width height lines)
        ⊎ ((kind : RuleKind) × (row at : ℕ) × StripFault bits width height kind row at) }
{}
