// A row read.
ghost use Rattle.std.specs.Prelude.{◌≡◌, ◌<◌, ◌≤◌, ◌+◌, List, Bool, false, IfOk, IfErr, IfSome, length, vec_capacity};
ghost use Rattle.bp_codes.specs.Span.{span_bits};
ghost use Rattle.bp_rows.specs.Changes.{Shows, Rises};
ghost use Rattle.bp_t6.specs.Canonical.{RowIsCoded};
ghost use Rattle.bp_t6.specs.Reading.{IfFault, RowIsRead, RowStops};

use crate::mode_reader::read_mode;
use crate::quick_reader::read_quick_modes;
use crate::reading::{Stop, Under};
use crate::run_reader::ReadFault;
use crate::same_row::{ones_ahead, ones_of};
use crate::tables::CodeTables;
use crate::turns::make_room;
use bp_codes::BitSpan;
use bp_rows::MAX_WIDTH;

/// The row whose codes begin at a bit, as its changes, and the bit after its codes. The line grows with
/// the row.
#[inline(never)]
pub fn read_row(
    tables: &CodeTables,
    span: &BitSpan,
    start: u64,
    width: u32,
    above: &[u32],
    line: &mut Vec<u32>,
) -> Result<u64, Stop>
    requires wide { width ≤ MAX_WIDTH }
    requires above { Rises above.now width }
    requires place { start ≤ length (span_bits span.now) }
    ensures next { IfOk result (λ next. next ≤ length (span_bits span.now)) }
    ensures read { let bits = span_bits span.now in
        (over : List Bool) → Shows above.now width over
        → IfOk result (λ next. RowIsRead over bits start next width line.new.items) }
    ensures fault { let bits = span_bits span.now in
        (over : List Bool) → Shows above.now width over
        → IfErr result (λ stop. IfFault (λ f. RowStops over bits start f) stop) }
{
    line.clear();
    let ones = ones_of(above, width);
    if ones_ahead(span, start, ones) {
        line.extend_from_slice(above)?;
        return Ok(start + ones);
    }
    let mut under = first_under(start, false);
    while under.right <= width {
        make_room(line)?;
        let next = match read_mode(tables, span, width, above, under, line) {
            Ok(next) => next,
            Err(fault) => return Err(Stop::Fault(fault)),
        };
        under = read_quick_modes(span, width, above, next, line);
    }
    Ok(under.at)
}

/// How many places a line has that holds the changes of any row of a width: a row has at most one at
/// each place and one at its end, and one more may be put and taken back.
pub fn room_for(width: u32) -> usize
    requires { width ≤ MAX_WIDTH }
    ensures { result ≡ width + 2 }
{
    width as usize + 2
}

/// The same, in a line that has room for any row. It takes no memory, and has no answer for want of it.
#[inline(never)]
pub fn read_row_in_room(
    tables: &CodeTables,
    span: &BitSpan,
    start: u64,
    width: u32,
    above: &[u32],
    line: &mut Vec<u32>,
) -> Result<u64, ReadFault>
    requires some { 0 < width }
    requires wide { width ≤ MAX_WIDTH }
    requires room { width + 2 ≤ vec_capacity line.old }
    requires above { Rises above.now width }
    requires place { start ≤ length (span_bits span.now) }
    ensures next { IfOk result (λ next. next ≤ length (span_bits span.now)) }
    ensures read { let bits = span_bits span.now in
        (over : List Bool) → Shows above.now width over
        → IfOk result (λ next. RowIsRead over bits start next width line.new.items) }
    ensures fault { let bits = span_bits span.now in
        (over : List Bool) → Shows above.now width over
        → IfErr result (RowStops over bits start) }
    ensures room { vec_capacity line.new ≡ vec_capacity line.old }
{
    line.clear();
    let mut under = first_under(start, false);
    while under.right <= width {
        let next = match read_mode(tables, span, width, above, under, line) {
            Ok(next) => next,
            Err(fault) => return Err(fault),
        };
        under = read_quick_modes(span, width, above, next, line);
    }
    Ok(under.at)
}

/// The same, where each mode is the one that the coder chooses; none where one isn't, or where the row
/// breaks a rule.
#[inline(never)]
pub fn read_canonical_row(
    tables: &CodeTables,
    span: &BitSpan,
    start: u64,
    width: u32,
    above: &[u32],
    line: &mut Vec<u32>,
) -> Option<u64>
    requires some { 0 < width }
    requires wide { width ≤ MAX_WIDTH }
    requires room { width + 2 ≤ vec_capacity line.old }
    requires above { Rises above.now width }
    requires place { start ≤ length (span_bits span.now) }
    ensures next { IfSome result (λ next. next ≤ length (span_bits span.now)) }
    ensures coded { let bits = span_bits span.now in
        (over : List Bool) → Shows above.now width over
        → IfSome result (λ next. RowIsCoded over bits start next width line.new.items) }
    ensures room { vec_capacity line.new ≡ vec_capacity line.old }
{
    line.clear();
    let mut under = first_under(start, true);
    while under.right <= width {
        let next = match read_mode(tables, span, width, above, under, line) {
            Ok(next) => next,
            Err(_) => return None,
        };
        if next.canonical {
            let next = Under {
                canonical: true,
                ..next
            };
            under = read_quick_modes(span, width, above, next, line);
        } else {
            return None;
        }
    }
    if under.canonical {
        Some(under.at)
    } else {
        None
    }
}

// Before a row, whose codes begin at a bit; only the coder's modes may be wanted.
#[inline(always)]
fn first_under(start: u64, canonical: bool) -> Under
    ensures right { result.right ≡ 0 }
    ensures black { result.black ≡ false }
    ensures from { result.from ≡ 0 }
    ensures at { result.at ≡ start }
    ensures canonical { result.canonical ≡ canonical }
{
    Under {
        right: 0,
        black: false,
        from: 0,
        at: start,
        canonical,
    }
}
