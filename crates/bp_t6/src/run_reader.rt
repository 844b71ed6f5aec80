// A run read.
ghost use Rattle.std.specs.Prelude.{◌≡◌, ◌<◌, ◌≤◌, ◌-◌, IfOk, IfErr, IfSome, List, Bool, length, drop};
ghost use Rattle.bp_codes.specs.Ahead.{IsAhead, FindsCode};
ghost use Rattle.bp_codes.specs.Span.{span_bits};
ghost use Rattle.bp_t6.specs.Modes.{run_codes};
ghost use Rattle.bp_t6.specs.Reading.{RunReads};
ghost use Rattle.bp_t6.specs.Faults.{RunFault, row_pixels};

use crate::lengths::{BEFORE_MAKE_UPS, LONGEST_MAKE_UP, MAKE_UP_STEP, TERMINATING_CODES};
use crate::tables::CodeTables;
use bp_codes::{BitSpan, Found, NoCode, black_ahead, white_ahead};
use bp_core::RuleKind;
use bp_rows::MAX_WIDTH;

/// How many pixels a run has, the bit after its codes, and whether they are the codes that the coder
/// puts for it.
#[derive(Clone, Copy)]
pub struct RunRead {
    pub pixels: u32,
    pub next: u64,
    pub canonical: bool,
}

/// The rule that is broken, and the bit.
#[derive(Clone, Copy)]
pub struct ReadFault {
    pub kind: RuleKind,
    pub bit: u64,
}

// How many bits of a look-ahead may be skipped: the longest code that stands behind them is there.
const MOST_SKIPPED: u64 = 44;

/// The run whose codes begin at a place, of at most so many pixels. `ahead` holds the bits that come next
/// at a bit `from` on the way there, where they are at hand: a run of one code is found in them.
#[inline(always)]
pub fn read_run(
    tables: &CodeTables,
    span: &BitSpan,
    ahead: Option<u64>,
    from: u64,
    start: u64,
    black: bool,
    room: u32,
) -> Result<RunRead, ReadFault>
    requires ahead { IfSome ahead (λ word. IsAhead word (drop from (span_bits span.now))) }
    requires from { from ≤ start }
    requires place { start ≤ length (span_bits span.now) }
    requires small { room ≤ MAX_WIDTH }
    ensures found { let bits = span_bits span.now in
        IfOk result (λ r. RunReads black (drop start bits) r.pixels r.canonical (drop r.next bits)) }
    ensures room { IfOk result (λ r. r.pixels ≤ room) }
    ensures next { IfOk result (λ r. r.next ≤ length (span_bits span.now)) }
    ensures after { IfOk result (λ r. start ≤ r.next) }
    ensures since { IfErr result (λ f. start ≤ f.bit) }
    ensures fault { let bits = span_bits span.now in
        IfErr result (λ f. RunFault black room (drop start bits) f.kind (f.bit - start)) }
{
    if let Some(word) = ahead {
        if let Some(run) = run_ahead(span, word, from, start, black) {
            if run.pixels <= room {
                return Ok(run);
            }
        }
    }
    look_up_run(tables, span, start, black, room)
}

/// The run of one code at a place, found in a word with the bits that come next at a bit `from` on the
/// way there, where it is.
#[inline(always)]
pub fn run_ahead(span: &BitSpan, word: u64, from: u64, start: u64, black: bool) -> Option<RunRead>
    requires ahead { IsAhead word (drop from (span_bits span.now)) }
    requires from { from ≤ start }
    requires place { start ≤ length (span_bits span.now) }
    ensures found { let bits = span_bits span.now in
        IfSome result (λ r. RunReads black (drop start bits) r.pixels r.canonical (drop r.next bits)) }
    ensures short { IfSome result (λ r. r.pixels < MAKE_UP_STEP) }
    ensures next { IfSome result (λ r. r.next ≤ length (span_bits span.now)) }
    ensures after { IfSome result (λ r. start ≤ r.next) }
{
    if start - from > MOST_SKIPPED {
        return None;
    }
    let code = match code_ahead(word, start - from, black) {
        Some(code) => code,
        None => return None,
    };
    if code.row >= TERMINATING_CODES {
        return None;
    }
    Some(RunRead {
        pixels: code.row as u32,
        next: start + code.len,
        canonical: true,
    })
}

// The run code behind the first bits of a look-ahead.
#[inline(always)]
fn code_ahead(word: u64, skipped: u64, black: bool) -> Option<Found>
    requires { skipped ≤ MOST_SKIPPED }
    ensures { (bits : List Bool) → IsAhead word bits
        → FindsCode (run_codes black) (drop skipped bits) result }
{
    if black {
        black_ahead(word, skipped)
    } else {
        white_ahead(word, skipped)
    }
}

// The run whose codes begin at a place, of at most so many pixels, each code looked up in its table.
#[inline(never)]
fn look_up_run(
    tables: &CodeTables,
    span: &BitSpan,
    start: u64,
    black: bool,
    room: u32,
) -> Result<RunRead, ReadFault>
    requires place { start ≤ length (span_bits span.now) }
    requires small { room ≤ MAX_WIDTH }
    ensures found { let bits = span_bits span.now in
        IfOk result (λ r. RunReads black (drop start bits) r.pixels r.canonical (drop r.next bits)) }
    ensures room { IfOk result (λ r. r.pixels ≤ room) }
    ensures next { IfOk result (λ r. r.next ≤ length (span_bits span.now)) }
    ensures after { IfOk result (λ r. start ≤ r.next) }
    ensures since { IfErr result (λ f. start ≤ f.bit) }
    ensures fault { let bits = span_bits span.now in
        IfErr result (λ f. RunFault black room (drop start bits) f.kind (f.bit - start)) }
{
    let codes = tables.run_table(black);
    let mut pixels = 0u32;
    let mut at = start;
    let mut canonical = true;
    'codes: loop {
        let row = match codes.next_code(span, at) {
            Ok(row) => row,
            Err(NoCode::Ends) => {
                return Err(ReadFault {
                    kind: RuleKind::T6ShortData,
                    bit: at,
                });
            }
            Err(NoCode::Strange) => {
                return Err(ReadFault {
                    kind: RuleKind::T6BadCode,
                    bit: at,
                });
            }
        };
        let more = pixels_of_row(row);
        if more > room - pixels {
            return Err(ReadFault {
                kind: RuleKind::T6BadPlace,
                bit: at,
            });
        }
        let is_longest = pixels % LONGEST_MAKE_UP == 0;
        pixels += more;
        at += u64::from(codes.code_of(row).len);
        if row < TERMINATING_CODES {
            return Ok(RunRead {
                pixels,
                next: at,
                canonical,
            });
        }
        canonical &= is_longest;
    }
}

// How many pixels a row of a run table stands for.
#[inline(always)]
fn pixels_of_row(row: usize) -> u32
    requires { row < 104 }
    ensures { result ≡ row_pixels row }
{
    if row < TERMINATING_CODES {
        row as u32
    } else {
        MAKE_UP_STEP * (row - BEFORE_MAKE_UPS) as u32
    }
}
