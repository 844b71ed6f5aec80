// One mode of a row read.
ghost use Rattle.std.specs.Prelude.{◌≡◌, ◌<◌, ◌≤◌, ◌+◌, ◌-◌, ◌*◌, ◌++◌, ℕ, Bool, List, IfOk, IfErr, IfSome, Ok, Some, length, drop, slice_index_or, not, vec_len, vec_capacity};
ghost use Rattle.bp_codes.specs.Ahead.{IsAhead};
ghost use Rattle.bp_codes.specs.NextCode.{next_row};
ghost use Rattle.bp_codes.specs.Span.{span_bits};
ghost use Rattle.bp_codes.specs.CodeLists.{mode_codes};
ghost use Rattle.bp_t6.specs.Modes.{code, vertical_rows, Vertical};
ghost use Rattle.bp_rows.specs.Changes.{Shows, Rises};
ghost use Rattle.bp_t6.specs.Coding.{IsNextFrom};
ghost use Rattle.bp_t6.specs.Faults.{due_codes, mode_fault};
ghost use Rattle.bp_t6.specs.Reading.{IsUnder, Steps, ModeReads, ModeStops, VerticalStops};

use crate::canonical::are_canonical;
use crate::lengths::VERTICAL_REACH;
use crate::missing::missing_kind;
use crate::reading::Under;
use crate::row::{next_from, next_near};
use crate::run_reader::{ReadFault, read_run};
use crate::tables::CodeTables;
use crate::turns::turn;
use bp_codes::{BitSpan, mode_ahead};
use bp_core::RuleKind;
use bp_rows::{MAX_WIDTH, place_in};

/// The code of a mode that was read: its row in the mode table, and the bit after it.
#[derive(Clone, Copy)]
struct ModeCode {
    row: usize,
    next: u64,
}

// The mode whose code begins at a bit. `ahead` holds the bits that come next there, where they are at hand.
#[inline(always)]
fn next_mode(
    tables: &CodeTables,
    span: &BitSpan,
    ahead: Option<u64>,
    at: u64,
) -> Result<ModeCode, ReadFault>
    requires ahead { IfSome ahead (λ word. IsAhead word (drop at (span_bits span.now))) }
    requires place { at ≤ length (span_bits span.now) }
    ensures row { IfOk result (λ mode. mode.row < 9) }
    ensures found { let bits = span_bits span.now in
        IfOk result (λ mode. next_row mode_codes (drop at bits) ≡ Ok mode.row) }
    ensures next { IfOk result (λ mode. mode.next ≡ at + length (code mode_codes mode.row)) }
    ensures bit { IfErr result (λ fault. fault.bit ≡ at) }
    ensures fault { let bits = span_bits span.now in
        IfErr result (λ fault.
        mode_fault (next_row due_codes (drop at bits)) ≡ Some fault.kind) }
{
    if let Some(word) = ahead {
        if let Some(code) = mode_ahead(word) {
            return Ok(ModeCode {
                row: code.row,
                next: at + code.len,
            });
        }
    }
    look_up_mode(tables, span, at)
}

// The mode whose code begins at a bit, looked up in the mode table.
#[inline(never)]
fn look_up_mode(tables: &CodeTables, span: &BitSpan, at: u64) -> Result<ModeCode, ReadFault>
    requires { at ≤ length (span_bits span.now) }
    ensures row { IfOk result (λ mode. mode.row < 9) }
    ensures found { let bits = span_bits span.now in
        IfOk result (λ mode. next_row mode_codes (drop at bits) ≡ Ok mode.row) }
    ensures next { IfOk result (λ mode. mode.next ≡ at + length (code mode_codes mode.row)) }
    ensures bit { IfErr result (λ fault. fault.bit ≡ at) }
    ensures fault { let bits = span_bits span.now in
        IfErr result (λ fault.
        mode_fault (next_row due_codes (drop at bits)) ≡ Some fault.kind) }
{
    match tables.mode_table().next_code(span, at) {
        Ok(row) => Ok(ModeCode {
            row,
            next: at + u64::from(tables.mode_table().code_of(row).len),
        }),
        Err(why) => Err(ReadFault {
            kind: missing_kind(span, at, why),
            bit: at,
        }),
    }
}

// A row goes on at another place, in the colour that it has.
#[inline(always)]
fn go_on(above: &[u32], width: u32, under: Under, right: u32, at: u64, canonical: bool) -> Under
    requires more { under.right ≤ right }
    requires from { IsNextFrom above.now width under.from under.right under.black }
    ensures right { result.right ≡ right }
    ensures black { result.black ≡ under.black }
    ensures at { result.at ≡ at }
    ensures canonical { result.canonical ≡ canonical }
    ensures from { right ≤ width → IsNextFrom above.now width result.from right under.black }
{
    Under {
        right,
        black: under.black,
        from: next_from(above, under.from, right, width),
        at,
        canonical,
    }
}

// A row goes on at another place, in the other colour.
#[inline(always)]
fn go_over(above: &[u32], width: u32, under: Under, right: u32, at: u64, canonical: bool) -> Under
    requires above { Rises above.now width }
    requires more { under.right ≤ right }
    requires from { IsNextFrom above.now width under.from under.right under.black }
    ensures right { result.right ≡ right }
    ensures black { result.black ≡ not under.black }
    ensures at { result.at ≡ at }
    ensures canonical { result.canonical ≡ canonical }
    ensures from { right ≤ width → IsNextFrom above.now width result.from right (not under.black) }
{
    let back = if under.from > 0 { under.from - 1 } else { 1 };
    Under {
        right,
        black: !under.black,
        from: next_near(above, back, right, width),
        at,
        canonical,
    }
}

// The vertical mode of a row of the mode table: a1 stands at b1 + n - 3.
#[inline(always)]
fn shift_of(row: usize) -> u32
    requires low { 2 ≤ row }
    requires high { row < 9 }
    ensures small { result ≤ 2 * VERTICAL_REACH }
    ensures row { slice_index_or vertical_rows result 0 ≡ row }
{
    if row < 6 {
        row as u32 + 1
    } else {
        8 - row as u32
    }
}

// A vertical mode, whose code ends at a bit.
#[inline(always)]
fn read_vertical(
    width: u32,
    above: &[u32],
    under: Under,
    n: u32,
    at: u64,
    line: &mut Vec<u32>,
) -> Result<Under, ReadFault>
    requires room { vec_len line.old + 2 ≤ vec_capacity line.old }
    requires wide { width ≤ MAX_WIDTH }
    requires above { Rises above.now width }
    requires on { under.right ≤ width }
    requires shift { n ≤ 2 * VERTICAL_REACH }
    requires under { IsUnder above.now line.old.items width under }
    ensures at { IfOk result (λ new. new.at ≡ at) }
    ensures under { IfOk result (λ new. IsUnder above.now line.new.items width new) }
    ensures moves { IfOk result (λ new. under.right < new.right) }
    ensures steps { (over px : List Bool) → Shows above.now width over
        → Shows line.old.items (under.right - 1) px
        → IfOk result (λ new. Steps over px line.new.items under new (Vertical n)) }
    ensures fault { IfErr result (VerticalStops width above.now under n) }
    ensures room { vec_capacity line.new ≡ vec_capacity line.old }
{
    let right = (place_in(above, under.from, width) + 1 + n).saturating_sub(VERTICAL_REACH);
    if right <= under.right || width + 1 < right {
        return Err(ReadFault {
            kind: RuleKind::T6BadPlace,
            bit: under.at,
        });
    }
    turn(line, right - 1);
    let b2 = place_in(above, under.from + 1, width);
    let canonical = under.canonical & (right <= b2 + 1);
    Ok(go_over(above, width, under, right, at, canonical))
}

// A horizontal mode, whose first run begins at a bit.
#[inline(always)]
fn read_horizontal(
    tables: &CodeTables,
    span: &BitSpan,
    ahead: Option<u64>,
    width: u32,
    above: &[u32],
    under: Under,
    at: u64,
    line: &mut Vec<u32>,
) -> Result<Under, ReadFault>
    requires room { vec_len line.old + 2 ≤ vec_capacity line.old }
    requires ahead { IfSome ahead (λ word. IsAhead word (drop under.at (span_bits span.now))) }
    requires wide { width ≤ MAX_WIDTH }
    requires on { under.right ≤ width }
    requires place { at ≤ length (span_bits span.now) }
    requires three { at ≡ under.at + 3 }
    requires code { let bits = span_bits span.now in
        drop under.at bits ≡ code mode_codes 1 ++ drop at bits }
    requires under { IsUnder above.now line.old.items width under }
    ensures next { IfOk result (λ new. new.at ≤ length (span_bits span.now)) }
    ensures under { IfOk result (λ new. IsUnder above.now line.new.items width new) }
    ensures moves { IfOk result (λ new. under.right < new.right) }
    ensures read { let bits = span_bits span.now in
        IfOk result (λ new.
        ModeReads bits width above.now line.old.items line.new.items under new) }
    ensures fault { let bits = span_bits span.now in
        IfErr result (ModeStops bits width above.now under) }
    ensures room { vec_capacity line.new ≡ vec_capacity line.old }
{
    let from = under.right.saturating_sub(1);
    let first = match read_run(tables, span, ahead, under.at, at, under.black, width - from) {
        Ok(run) => run,
        Err(fault) => return Err(fault),
    };
    let room = width - from - first.pixels;
    let second = match read_run(
        tables,
        span,
        ahead,
        under.at,
        first.next,
        !under.black,
        room,
    ) {
        Ok(run) => run,
        Err(fault) => return Err(fault),
    };
    let middle = from + first.pixels;
    let end = middle + second.pixels;
    if end < under.right {
        return Err(ReadFault {
            kind: RuleKind::T6BadPlace,
            bit: under.at,
        });
    }
    turn(line, middle);
    turn(line, end);
    let canonical = under.canonical & are_canonical(above, width, under, first, second);
    Ok(go_on(above, width, under, end + 1, second.next, canonical))
}

/// The next mode of a row, in a line that has room for its turns. It takes no memory.
#[inline(always)]
pub fn read_mode(
    tables: &CodeTables,
    span: &BitSpan,
    width: u32,
    above: &[u32],
    under: Under,
    line: &mut Vec<u32>,
) -> Result<Under, ReadFault>
    requires room { vec_len line.old + 2 ≤ vec_capacity line.old }
    requires wide { width ≤ MAX_WIDTH }
    requires above { Rises above.now width }
    requires on { under.right ≤ width }
    requires place { under.at ≤ length (span_bits span.now) }
    requires under { IsUnder above.now line.old.items width under }
    ensures next { IfOk result (λ new. new.at ≤ length (span_bits span.now)) }
    ensures under { IfOk result (λ new. IsUnder above.now line.new.items width new) }
    ensures moves { IfOk result (λ new. under.right < new.right) }
    ensures read { let bits = span_bits span.now in
        IfOk result (λ new.
        ModeReads bits width above.now line.old.items line.new.items under new) }
    ensures fault { let bits = span_bits span.now in
        IfErr result (ModeStops bits width above.now under) }
    ensures room { vec_capacity line.new ≡ vec_capacity line.old }
{
    let ahead = span.ahead(under.at);
    let ModeCode { row, next } = match next_mode(tables, span, ahead, under.at) {
        Ok(mode) => mode,
        Err(fault) => return Err(fault),
    };
    if row == 0 {
        let right = place_in(above, under.from + 1, width) + 1;
        let canonical = under.canonical & (right <= width);
        return Ok(go_on(above, width, under, right, next, canonical));
    }
    if row == 1 {
        return read_horizontal(tables, span, ahead, width, above, under, next, line);
    }
    read_vertical(width, above, under, shift_of(row), next, line)
}
