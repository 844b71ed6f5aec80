// The numbers that a production takes.
ghost use Rattle.std.specs.Prelude.{◌≡◌, ◌+◌, ◌≤◌};
ghost use Rattle.bp_bates.specs.Spans.{largest_of, taken_of};

use bp_core::Rule;

/// The numbers from the first to the last, both of them in it.
#[derive(Clone, Copy, Debug, PartialEq, Eq)]
pub struct Span {
    pub first: u64,
    pub last: u64,
}

/// A span that was taken, and the number that comes after it.
#[derive(Clone, Copy, Debug, PartialEq, Eq)]
pub struct Taken {
    pub span: Span,
    pub next: u64,
}

/// The largest number of that many digits.
pub fn largest(width: u8) -> u64
    requires from { 4 ≤ width }
    requires to { width ≤ 10 }
    ensures { result ≡ largest_of width }
{
    match width {
        4 => 9_999,
        5 => 99_999,
        6 => 999_999,
        7 => 9_999_999,
        8 => 99_999_999,
        9 => 999_999_999,
        _ => 9_999_999_999,
    }
}

/// The next `count` numbers from `next` on, or BatesFull with the largest number where the last of
/// them would pass it.
pub fn take(next: u64, width: u8, count: u64) -> Result<Taken, Rule>
    requires width_from { 4 ≤ width }
    requires width_to { width ≤ 10 }
    requires next_from { 1 ≤ next }
    requires next_to { next ≤ largest_of width + 1 }
    requires count_from { 1 ≤ count }
    requires count_to { count ≤ 20000 }
    ensures { result ≡ taken_of next width count }
{
    let largest = largest(width);
    let last = next + count - 1;
    if last > largest {
        return Err(Rule::bates_full(largest));
    }
    Ok(Taken {
        span: Span { first: next, last },
        next: last + 1,
    })
}
