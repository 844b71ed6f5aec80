// The labels of the pages.
ghost use Rattle.std.specs.Prelude.{◌≡◌, ◌+◌, ◌-◌, ◌<◌, ◌≤◌, ◌^◌, IfSome, IsTrue, Some, length, take};
ghost use Rattle.std.specs.Char.{is_ascii_digit};
ghost use Rattle.std.specs.List.{list_all};
ghost use Rattle.std.specs.Option.{option_map};
ghost use Rattle.std.specs.Str.Parse.{digits_value};
ghost use Rattle.bp_check.specs.Labels.{end_digits, follows, label_of, labels_of, gap_rule, label_seen};

use bp_core::{Rule, RuleKind};
use bp_load::OptLine;

/// The most digits at the end of a label: their number and the next one fit in 64 bits.
pub const MOST_LABEL_DIGITS: usize = 18;

/// The text before the digits at the end of a label, how many digits there are, and their number.
#[derive(Clone, Copy, Debug)]
pub(crate) struct EndNumber<'a> {
    head: &'a [u8],
    width: usize,
    number: u64,
}

/// Tests that the labels follow one another. CheckLabel with the first line whose label doesn't end
/// in 1 to 18 digits; CheckGap with the first whose label isn't the next one.
pub(crate) fn labels_follow(lines: &[OptLine]) -> Result<(), Rule>
    requires { length lines.now + 1 < 2 ^ 32 }
    ensures { result ≡ labels_of lines.now }
{
    let mut before = None;
    let mut number = 0;
    let mut rest = lines;
    while let Some((line, others)) = rest.split_first() {
        number += 1;
        let Some(label) = label_of(line.image.as_str().as_bytes()) else {
            return Err(Rule::at_line(RuleKind::CheckLabel, number));
        };
        if let Some(last) = before {
            if !follows(&last, &label) {
                return Err(gap(number, &last, &label));
            }
        }
        before = Some(label);
        rest = others;
    }
    Ok(())
}

fn gap(line: u32, before: &EndNumber<'_>, label: &EndNumber<'_>) -> Rule
    requires { before.now.number < 10 ^ 18 }
    ensures { result ≡ gap_rule line (Some (label_seen before.now)) (label_seen label.now) }
{
    Rule::check_gap(line, before.number + 1, label.number)
}

fn follows(before: &EndNumber<'_>, next: &EndNumber<'_>) -> bool
    requires { before.now.number < 10 ^ 18 }
    ensures { result ≡ follows (label_seen before.now) (label_seen next.now) }
{
    next.number == before.number + 1 && next.width == before.width && next.head == before.head
}

// The label in the bytes of a text.
fn label_of(text: &[u8]) -> Option<EndNumber<'_>>
    ensures value { option_map label_seen result ≡ label_of text.now }
    ensures small { IfSome result (λ found. found.number < 10 ^ 18) }
{
    let (head, digits) = split_digits(text);
    if digits.is_empty() || digits.len() > MOST_LABEL_DIGITS {
        return None;
    }
    Some(EndNumber {
        head,
        width: digits.len(),
        number: number_of(digits),
    })
}

// The digits at the end, and what stands before them.
fn split_digits(text: &[u8]) -> (&[u8], &[u8])
    ensures digits { result.1.now ≡ end_digits text.now }
    ensures head { result.0.now ≡ take (length text.now - length result.1.now) text.now }
    ensures all { IsTrue (list_all is_ascii_digit result.1.now) }
{
    let mut head = text;
    while let Some((byte, before)) = head.split_last() {
        if !byte.is_ascii_digit() {
            break;
        }
        head = before;
    }
    text.split_at(head.len())
}

// The number that at most 18 digits write.
fn number_of(digits: &[u8]) -> u64
    requires few { length digits.now ≤ 18 }
    requires digits { IsTrue (list_all is_ascii_digit digits.now) }
    ensures value { result ≡ digits_value 10 digits.now }
    ensures small { result < 10 ^ 18 }
{
    let mut number = 0;
    for digit in digits {
        number = number * 10 + u64::from(*digit - b'0');
    }
    number
}
