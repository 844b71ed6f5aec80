// Strips read, one after another.
ghost use Rattle.std.specs.Prelude.{◌≡◌, ◌<◌, ◌≤◌, ◌^◌, ◌+◌, Bool, List, IfOk, IfErr, OnOk, IsTrue, ℕ, length, Ok, Err, false};
ghost use Rattle.bp_core.specs.declared.refusals.Refusal.TheVariants as refusals;
ghost use Rattle.bp_rows.specs.Limits.{sides_are_allowed};
ghost use Rattle.bp_core.specs.Rules.{page_limit_rule};
ghost use Rattle.bp_codes.specs.Bits.{bits_of};
ghost use Rattle.bp_codes.specs.Span.{span_bits};
ghost use Rattle.bp_t6.specs.Read.{StripReads};
ghost use Rattle.bp_t6.specs.Faults.{StripFault};
ghost use Rattle.bp_core.specs.declared.rules.RuleKind.{RuleKind};
ghost use Rattle.bp_t6.specs.Strips.{AppendsLines, StandsBehind, SaysFault, IsRefused, OrNoMemory, refusal_for, fault_rule, page_of_lines};
ghost use Rattle.bp_core.specs.Answers.{IfRule};

use crate::laws::reading_law;
use crate::line_reader::read_row;
use crate::reading::Stop;
use crate::tables::CodeTables;
use bp_codes::{BitSpan, Fill};
use bp_core::{Refusal, Rule, RuleKind};
use bp_rows::{MAX_WIDTH, Page, Res, Unit, allowed_sides, push_row};
use std::alloc::Global;
use std::mem;

/// A reader of strips with its tables, and with rooms for the changes of two rows and for the bytes
/// of one, which serve one strip after another.
#[derive(Drop)]
pub struct StripReader {
    tables: CodeTables,
    line: Vec<u32>,
    above: Vec<u32>,
    packed: Vec<u8>,
}

impl StripReader {
    /// A reader of empty rooms. It takes no memory.
    pub fn new(alloc: Global) -> StripReader {
        StripReader {
            tables: CodeTables::new(),
            line: Vec::new(alloc),
            above: Vec::new(alloc),
            packed: Vec::new(alloc),
        }
    }

    /// Appends the packed rows of a strip of so many rows of that width, or refuses its first fault,
    /// with its bit in the strip, and its row counted on from `first`. What stood in `out` before stays;
    /// after a refusal some rows may stand behind it.
    pub fn read_rows(
        &mut self,
        span: &BitSpan,
        width: u32,
        rows: u32,
        first: u32,
        out: &mut Vec<u8>,
    ) -> Result<(), Refusal>
        requires wide { width ≤ MAX_WIDTH }
        ensures read { OnOk result (
            AppendsLines (span_bits span.now) width rows out.old.items out.new.items) }
        ensures refused { IfErr result (
            IfRule (SaysFault (span_bits span.now) width rows first)) }
        ensures kept { StandsBehind out.old.items out.new.items }
    {
        self.above.clear();
        let mut at = 0;
        for row in 0..rows {
            at = match read_row(&self.tables, span, at, width, &self.above, &mut self.line) {
                Ok(next) => next,
                Err(stop) => return Err(refusal_of(stop, u64::from(first) + u64::from(row))),
            };
            push_row(out, &mut self.packed, &self.line, width)?;
            mem::swap(&mut self.line, &mut self.above);
        }
        Ok(())
    }
}

/// What is answered of a row where reading stops.
#[inline(never)]
pub fn refusal_of(stop: Stop, row: u64) -> Refusal
    ensures { result ≡ refusal_for stop row }
{
    match stop {
        Stop::Fault(fault) => Refusal::Rule(rule_at(fault.kind, row, fault.bit)),
        Stop::OutOfMemory => Refusal::OutOfMemory,
    }
}

fn rule_at(kind: RuleKind, row: u64, bit: u64) -> Rule
    ensures { result ≡ fault_rule kind row bit }
{
    Rule {
        a: row,
        b: bit,
        ..Rule::bare(kind)
    }
}

/// The page whose rows a strip has, at 200 by 200 dots an inch. Refused are sides that no page has,
/// and the first fault of the strip.
pub fn read_strip(
    alloc: Global,
    bytes: &[u8],
    fill: Fill,
    width: u32,
    rows: u32,
) -> Result<Page, Refusal>
    requires { length bytes.now < 2 ^ 32 }
    ensures page { IfOk result (λ p. p ≡ page_of_lines width rows p.rows) }
    ensures sides { IfOk result (λ _. IsTrue (sides_are_allowed width rows)) }
    ensures read { IfOk result (λ p. StripReads (bits_of fill bytes.now) width rows p.rows) }
    ensures refused { IfErr result (λ refusal.
        IsRefused (bits_of fill bytes.now) width rows refusal) }

    // Sides that no page has, lines that are read, and a fault of the strip are each answered
    // exactly.
    ensures limit { sides_are_allowed width rows ≡ false
        → result ≡ Err (refusals.Rule (page_limit_rule width rows)) }
    ensures lines { (lines : List (List Bool)) → IsTrue (sides_are_allowed width rows)
        → StripReads (bits_of fill bytes.now) width rows lines
        → OrNoMemory result (Ok (page_of_lines width rows lines)) }
    ensures fault { (kind : RuleKind) (row at : ℕ) → IsTrue (sides_are_allowed width rows)
        → StripFault (bits_of fill bytes.now) width rows kind row at
        → OrNoMemory result (Err (refusals.Rule (fault_rule kind row at))) }
{
    reading_law();
    if !allowed_sides(width, rows) {
        return Err(Refusal::Rule(Rule::page_limit(width, rows)));
    }
    let span = BitSpan { bytes, fill };
    let mut strip = Vec::new(alloc);
    StripReader::new(alloc).read_rows(&span, width, rows, 0, &mut strip)?;
    let res = Res { num: 200, den: 1 };
    Ok(Page::of_packed(width, rows, res, res, Unit::Inch, strip))
}
