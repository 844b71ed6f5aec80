// A strip read a row at a time.
ghost use Rattle.std.specs.Prelude.{◌≡◌, ◌<◌, ◌≤◌, ◌+◌, ◌^◌, Bool, List, [], IfOk, IfErr, Err, Some, None, length, sum};
ghost use Rattle.bp_core.specs.declared.refusals.Refusal.TheVariants as refusals;
ghost use Rattle.bp_core.specs.declared.rules.Rule.{Rule as BrokenRule};
ghost use Rattle.bp_core.specs.Answers.{IfRule};
ghost use Rattle.bp_codes.specs.Bits.{bits_of};
ghost use Rattle.bp_codes.specs.Span.{span_bits};
ghost use Rattle.bp_rows.specs.Changes.{Rises, Shows};
ghost use Rattle.bp_rows.specs.Runs.{IsRuns};
ghost use Rattle.bp_t6.specs.SoFar.{HasRead, ReadsLine, ReadsNextRow, unread, stopped, rule_of};
ghost use Rattle.bp_t6.specs.Strips.{SaysFault};

use crate::line_reader::read_row;
use crate::strip_reader::refusal_of;
use crate::tables::CodeTables;
use bp_codes::{BitSpan, Fill};
use bp_core::{OutOfMemory, Refusal, Rule};
use bp_rows::{MAX_WIDTH, Runs, push_runs};
use std::alloc::Global;
use std::marker::Model;
use std::mem;

/// A strip under way, whose rows are read as runs (ITU-T T.6). Beside the strip it keeps one row of
/// memory.
#[derive(Drop)]
pub struct StripRows<'a> {
    tables: CodeTables,
    span: BitSpan<'a>,
    width: u32,
    row: u64,
    at: u64,
    above: Vec<u32>,
    line: Vec<u32>,
    fault: Option<Rule>,
}

// Clauses see the bits, where reading stands, the last row, and the rule that was broken.
impl<'a> Model for StripRows<'a> {
    ghost use Rattle.bp_codes.specs.Span.{span_bits};
    ghost use Rattle.bp_t6.specs.SoFar.{ReadSoFar, IsReader};

    ghost Value = { ReadSoFar };

    ghost view = { λ r. record {
      bits = span_bits r.span;
      width = r.width;
      row = r.row;
      at = r.at;
      above = r.above.items;
      fault = r.fault;
    } };

    ghost invariant = { λ r. IsReader (span_bits r.span) r.width r.row r.at r.above.items };
}

impl<'a> StripRows<'a> {
    /// A reader at the first bit of a strip, for rows of that width in pixels. The bytes are lent.
    pub fn over(
        alloc: Global,
        bytes: &'a [u8],
        fill: Fill,
        width: u32,
    ) -> Result<StripRows<'a>, OutOfMemory>
        requires short { length bytes.now < 2 ^ 32 }
        requires some { 0 < width }
        requires wide { width ≤ MAX_WIDTH }
        ensures unread { IfOk result (λ reader. reader ≡ unread (bits_of fill bytes.now) width) }
        ensures none { IfOk result (λ reader. HasRead reader []) }
    {
        Ok(StripRows {
            tables: CodeTables::new(),
            span: BitSpan { bytes, fill },
            width,
            row: 0,
            at: 0,
            above: Vec::new(alloc),
            line: Vec::new(alloc),
            fault: None,
        })
    }

    /// Reads the next row, which `row_runs` and `StripWriter::add_read` then take, or answers the
    /// rule that it breaks, as `next_runs` does. Its runs aren't made.
    pub fn next_row(&mut self) -> Result<(), Refusal>
        ensures bits { self.new.bits ≡ self.old.bits }
        ensures width { self.new.width ≡ self.old.width }
        ensures read { IfOk result (λ _. self.new.fault ≡ None) }
        ensures next { (lines : List (List Bool)) → HasRead self.old lines
            → IfOk result (λ _. ReadsLine lines self.new) }
        ensures fault { (lines : List (List Bool)) → HasRead self.old lines → self.old.fault ≡ None
            → IfErr result (IfRule (SaysFault self.old.bits self.old.width (self.old.row + 1) 0)) }
        ensures stops { IfErr result (IfRule (λ rule. self.new ≡ stopped self.old rule)) }
        ensures again { (rule : BrokenRule) → self.old.fault ≡ Some rule
            → result ≡ Err (refusals.Rule rule) }
        ensures memory { result ≡ Err refusals.OutOfMemory → self.new ≡ self.old }
    {
        if let Some(rule) = self.fault {
            return Err(Refusal::Rule(rule));
        }
        let (tables, span) = (&self.tables, &self.span);
        match read_row(
            tables,
            span,
            self.at,
            self.width,
            &self.above,
            &mut self.line,
        ) {
            Ok(next) => {
                mem::swap(&mut self.line, &mut self.above);
                self.row += 1;
                self.at = next;
                Ok(())
            }
            Err(stop) => {
                let refused = refusal_of(stop, self.row);
                self.fault = broken_rule(&refused);
                Err(refused)
            }
        }
    }

    /// The runs of the row that was read last; before the first, those of a white row.
    pub fn row_runs(&self, alloc: Global) -> Result<Runs, OutOfMemory>
        ensures are { (row : List Bool) → Shows self.now.above self.now.width row
            → IfOk result (λ runs. IsRuns runs row) }
        ensures total { IfOk result (λ runs. sum runs ≡ self.now.width) }
    {
        runs_of(alloc, &self.above, self.width)
    }

    /// The bit up to which the strip is read, counted from 0.
    pub fn at(&self) -> u64
        ensures at { result ≡ self.now.at }
        ensures within { result ≤ length self.now.bits }
    {
        self.at
    }

    /// The places that show the row that was read last.
    pub(crate) fn places(&self) -> &[u32]
        ensures are { result.now ≡ self.now.above }
        ensures show { (line : List Bool) × Shows result.now self.now.width line }
    {
        &self.above
    }

    /// The runs of the next row, or the rule that it breaks, with its row and its bit, both counted
    /// from 0. After a rule every further call answers that rule; want of memory leaves the reader.
    pub fn next_runs(&mut self, alloc: Global) -> Result<Runs, Refusal>
        ensures bits { self.new.bits ≡ self.old.bits }
        ensures width { self.new.width ≡ self.old.width }
        ensures read { IfOk result (λ _. self.new.fault ≡ None) }
        ensures next { (lines : List (List Bool)) → HasRead self.old lines
            → IfOk result (λ runs. ReadsNextRow lines self.new runs) }
        ensures fault { (lines : List (List Bool)) → HasRead self.old lines → self.old.fault ≡ None
            → IfErr result (IfRule (SaysFault self.old.bits self.old.width (self.old.row + 1) 0)) }
        ensures stops { IfErr result (IfRule (λ rule. self.new ≡ stopped self.old rule)) }
        ensures again { (rule : BrokenRule) → self.old.fault ≡ Some rule
            → result ≡ Err (refusals.Rule rule) }
        ensures memory { result ≡ Err refusals.OutOfMemory → self.new ≡ self.old }
    {
        if let Some(rule) = self.fault {
            return Err(Refusal::Rule(rule));
        }
        let (tables, span) = (&self.tables, &self.span);
        let next = match read_row(
            tables,
            span,
            self.at,
            self.width,
            &self.above,
            &mut self.line,
        ) {
            Ok(next) => next,
            Err(stop) => {
                let refusal = refusal_of(stop, self.row);
                self.fault = broken_rule(&refusal);
                return Err(refusal);
            }
        };
        let runs = runs_of(alloc, &self.line, self.width)?;
        mem::swap(&mut self.line, &mut self.above);
        self.row += 1;
        self.at = next;
        Ok(runs)
    }
}

// The rule of a refusal; none of want of memory.
fn broken_rule(refusal: &Refusal) -> Option<Rule>
    ensures { result ≡ rule_of refusal.now }
{
    match refusal {
        Refusal::Rule(rule) => Some(*rule),
        Refusal::OutOfMemory => None,
    }
}

// The runs of the row that places show.
fn runs_of(alloc: Global, places: &[u32], width: u32) -> Result<Runs, OutOfMemory>
    requires { Rises places.now width }
    ensures { (row : List Bool) → Shows places.now width row
        → IfOk result (λ runs. IsRuns runs row) }
{
    let mut runs = Vec::with_capacity(alloc, places.len() + 1)?;
    push_runs(&mut runs, places, width)?;
    Ok(Runs::from_vec(runs))
}
