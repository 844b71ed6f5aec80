// Modes read out of look-aheads at once.
ghost use Rattle.std.specs.Prelude.{◌≡◌, ◌<◌, ◌≤◌, ◌+◌, ℕ, Bool, List, IfSome, None, length, drop, vec_capacity};
ghost use Rattle.bp_codes.specs.Ahead.{IsAhead};
ghost use Rattle.bp_codes.specs.Span.{span_bits};
ghost use Rattle.bp_rows.specs.Changes.{Shows, Rises};
ghost use Rattle.bp_t6.specs.Reading.{IsUnder, ModeReads, ModesRead};

use crate::canonical::are_canonical;
use crate::near_reader::{near_ahead, read_near};
use crate::reading::Under;
use crate::row::next_likely;
use crate::run_reader::run_ahead;
use bp_codes::{BitSpan, mode_ahead};
use bp_rows::MAX_WIDTH;

// The row of the mode table for horizontal mode (ITU-T T.6, table 1), and the length of its code.
const HORIZONTAL: usize = 1;

const HORIZONTAL_BITS: u64 = 3;

// So many codes of modes near b1 lie in the first 57 bits of a look-ahead.
const CODES_AHEAD: u64 = 8;

// The codes of a horizontal mode of two short runs have at most so many bits.
const RUN_BITS: u64 = 28;

// So many codes of modes near b1 lie behind them.
const CODES_BEHIND: u64 = 4;

// A horizontal mode of two runs below 64 pixels, neither empty, where all its codes stand in a
// look-ahead, it stays left of the width, and the list has room; else nothing is done. So no push lacks
// memory, and no turn is taken back.
#[inline(always)]
fn read_short_horizontal(
    span: &BitSpan,
    word: u64,
    width: u32,
    above: &[u32],
    under: Under,
    line: &mut Vec<u32>,
) -> Option<Under>
    requires wide { width ≤ MAX_WIDTH }
    requires above { Rises above.now width }
    requires onward { 0 < under.right }
    requires place { under.at ≤ length (span_bits span.now) }
    requires under { IsUnder above.now line.old.items width under }
    requires ahead { IsAhead word (drop under.at (span_bits span.now)) }
    ensures on { IfSome result (λ new. new.right ≤ width) }
    ensures short { IfSome result (λ new. new.at ≤ under.at + RUN_BITS) }
    ensures onward { IfSome result (λ new. under.at ≤ new.at) }
    ensures next { IfSome result (λ new. new.at ≤ length (span_bits span.now)) }
    ensures under { IfSome result (λ new. IsUnder above.now line.new.items width new) }
    ensures moves { IfSome result (λ new. under.right < new.right) }
    ensures kept { result ≡ None → line.new.items ≡ line.old.items }
    ensures room { vec_capacity line.new ≡ vec_capacity line.old }
    ensures read { let bits = span_bits span.now in
        IfSome result (λ new.
        ModeReads bits width above.now line.old.items line.new.items under new) }
{
    let mode = match mode_ahead(word) {
        Some(mode) => mode,
        None => return None,
    };
    if mode.row != HORIZONTAL {
        return None;
    }
    let start = under.at + HORIZONTAL_BITS;
    let first = match run_ahead(span, word, under.at, start, under.black) {
        Some(run) => run,
        None => return None,
    };
    let second = match run_ahead(span, word, under.at, first.next, !under.black) {
        Some(run) => run,
        None => return None,
    };
    let middle = under.right - 1 + first.pixels;
    let end = middle + second.pixels;
    if first.pixels == 0 || second.pixels == 0 || end >= width {
        return None;
    }
    if line.len() + 1 >= line.capacity() || second.next - under.at > RUN_BITS {
        return None;
    }
    let is_refused = under.canonical & !are_canonical(above, width, under, first, second);
    if is_refused {
        return None;
    }
    line.push_reserved(middle);
    line.push_reserved(end);
    Some(Under {
        right: end + 1,
        black: under.black,
        from: next_likely(above, under.from, end + 1, width),
        at: second.next,
        canonical: under.canonical,
    })
}

/// Modes near b1 and short horizontal modes, as many as come one after another. None of them lacks
/// memory or breaks a rule.
#[inline(always)]
pub fn read_quick_modes(
    span: &BitSpan,
    width: u32,
    above: &[u32],
    first: Under,
    line: &mut Vec<u32>,
) -> Under
    requires wide { width ≤ MAX_WIDTH }
    requires above { Rises above.now width }
    requires onward { 0 < first.right }
    requires place { first.at ≤ length (span_bits span.now) }
    requires under { IsUnder above.now line.old.items width first }
    ensures next { result.at ≤ length (span_bits span.now) }
    ensures under { IsUnder above.now line.new.items width result }
    ensures moves { first.right ≤ result.right }
    ensures room { vec_capacity line.new ≡ vec_capacity line.old }
    ensures read { let bits = span_bits span.now in
        (over : List Bool) (start : ℕ) → Shows above.now width over
        → ModesRead over bits start line.old.items first
        → ModesRead over bits start line.new.items result }
{
    let mut under = first;
    if width < under.right {
        return under;
    }
    loop {
        let mut word = match span.ahead(under.at) {
            Some(word) => word,
            None => return under,
        };
        let since = under.right;
        let mut left = CODES_AHEAD;
        while left > 0 {
            match near_ahead(word) {
                Some(near) => {
                    under = match read_near(width, above, under, near, line) {
                        Some(next) => next,
                        None => return under,
                    };
                    word <<= near.len;
                    left -= 1;
                }
                None => {
                    let ahead = match span.ahead(under.at) {
                        Some(ahead) => ahead,
                        None => return under,
                    };
                    let next = match read_short_horizontal(span, ahead, width, above, under, line) {
                        Some(next) => next,
                        None => return under,
                    };
                    word = ahead << (next.at - under.at);
                    left = CODES_BEHIND;
                    under = next;
                }
            }
        }
    }
}
