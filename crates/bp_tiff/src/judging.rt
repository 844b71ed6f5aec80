// Page files judged: whether each holds a page, which isn't made.
ghost use Rattle.std.specs.Prelude.{◌<◌, ◌≤◌, ◌^◌, ℕ, Bool, List, Result, length, IfOk, IfErr};
ghost use Rattle.bp_codes.specs.Span.{span_bits};
ghost use Rattle.bp_core.specs.Answers.{Answers, IfRule};
ghost use Rattle.bp_core.specs.declared.rules.Rule.{Rule as BrokenRule};
ghost use Rattle.bp_rows.specs.Image.{Image};
ghost use Rattle.bp_t6.specs.Read.{StripReads};
ghost use Rattle.bp_t6.specs.Strips.{SaysFault};
ghost use Rattle.bp_tiff.specs.Judged.{judged};
ghost use Rattle.bp_tiff.specs.Layout.{IsLaid};
ghost use Rattle.bp_tiff.specs.PageRules.{IsPageRule};
ghost use Rattle.bp_tiff.specs.Pixels.{Lines};
ghost use Rattle.bp_tiff.specs.Read.{Breaks, StripHoldsRows, StripsBreak, StripsHold, TiffReads, TiffFault, TiffAnswers};

use crate::laws::one_answer;
use crate::layout::{Layout, read_layout};
use crate::strips::{rows_at, strip_at, test_packed};
use bp_codes::BitSpan;
use bp_core::{Refusal, Rule};
use bp_rows::MAX_WIDTH;
use bp_t6::StripRows;
use std::alloc::Global;

/// Whether a file holds one bilevel page, as `read_tiff` reads it, or the first rule that the bytes
/// break, with the same values. The page isn't made: a strip in Group 4 (ITU-T T.6) is read a row
/// at a time, and of one without compression the length alone is tested.
///
/// Memory is taken for two rows, and for no rows of a strip without compression.
pub fn judge_tiff(alloc: Global, bytes: &[u8]) -> Result<(), Refusal>
    // Bytes that pass hold a page.
    ensures found { IfOk result (λ _. (p : Image) × TiffReads bytes.now p) }

    // A rule is the first that they break.
    ensures refused { IfErr result (IfRule (TiffFault bytes.now)) }

    // It is one of the sides, of T.6 or of TIFF.
    ensures kind { IfErr result (IfRule (λ rule. IsPageRule rule.kind)) }

    // The answer to the bytes is given but for the page, unless memory runs out.
    ensures exact { (answer : Result Image BrokenRule) → TiffAnswers bytes.now answer
        → Answers (λ _. tt) result (judged answer) }
{
    one_answer();
    judge(alloc, bytes)
}

fn judge(alloc: Global, bytes: &[u8]) -> Result<(), Refusal>
    ensures found { IfOk result (λ _. (p : Image) × TiffReads bytes.now p) }
    ensures refused { IfErr result (IfRule (TiffFault bytes.now)) }
{
    let layout = match read_layout(bytes) {
        Ok(layout) => layout,
        Err(rule) => return Err(Refusal::Rule(rule)),
    };
    judge_strips(alloc, bytes, &layout)
}

// All strips hold rows, or the first that doesn't breaks a rule.
fn judge_strips(alloc: Global, bytes: &[u8], layout: &Layout) -> Result<(), Refusal>
    requires { IsLaid bytes.now layout.now }
    ensures found { let l = layout.now in
        IfOk result (λ _. (lines : Lines) × StripsHold bytes.now l l.strips.count 0 lines) }
    ensures refused { let l = layout.now in
        IfErr result (IfRule (StripsBreak bytes.now l l.strips.count 0)) }
{
    for k in 0..layout.strips.count {
        if let Err(refusal) = judge_strip(alloc, bytes, layout, k) {
            return Err(refusal);
        }
    }
    Ok(())
}

fn judge_strip(alloc: Global, bytes: &[u8], layout: &Layout, k: u32) -> Result<(), Refusal>
    requires laid { IsLaid bytes.now layout.now }
    requires within { k < layout.now.strips.count }
    ensures found { IfOk result (λ _.
        (lines : Lines) × StripHoldsRows bytes.now layout.now k lines) }
    ensures refused { IfErr result (IfRule (Breaks bytes.now layout.now k)) }
{
    let strip = strip_at(bytes, layout, k);
    let rows = rows_at(layout, k);
    let width = layout.sides.width;
    if layout.coding.is_t6 {
        let span = BitSpan {
            bytes: strip,
            fill: layout.coding.fill,
        };
        judge_coded(alloc, &span, width, rows, k * layout.strips.rows)
    } else {
        test_packed(strip, width, rows)
    }
}

// A strip of T.6 is read as so many rows. The row of a rule is counted on from `first`.
fn judge_coded(
    alloc: Global,
    span: &BitSpan,
    width: u32,
    rows: u32,
    first: u32,
) -> Result<(), Refusal>
    requires short { length span.now.bytes.now < 2 ^ 32 }
    requires some { 0 < width }
    requires wide { width ≤ MAX_WIDTH }
    ensures found { IfOk result (λ _.
        (values : Lines) × StripReads (span_bits span.now) width rows values) }
    ensures refused { IfErr result (IfRule (SaysFault (span_bits span.now) width rows first)) }
{
    let mut reader = StripRows::over(alloc, span.bytes, span.fill, width)?;
    for _row in 0..rows {
        if let Err(refusal) = reader.next_row() {
            return Err(counted_on(refusal, first));
        }
    }
    Ok(())
}

// The refusal of a strip, whose row, counted from 0 in it, is counted on from `first`.
fn counted_on(refusal: Refusal, first: u32) -> Refusal
    requires { IfRule (λ rule. rule.a < 2 ^ 32) refusal }
    ensures { (bits : List Bool) (width rows : ℕ)
        → IfRule (SaysFault bits width rows 0) refusal
        → IfRule (SaysFault bits width rows first) result }
{
    match refusal {
        Refusal::Rule(rule) => Refusal::Rule(Rule {
            a: u64::from(first) + rule.a,
            ..rule
        }),
        Refusal::OutOfMemory => Refusal::OutOfMemory,
    }
}
