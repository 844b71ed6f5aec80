// Tests of lists of rows of several kinds.
ghost use Rattle.std.specs.Prelude.{◌<◌, ◌^◌, ◌≡◌};
ghost use Rattle.bp_matter.specs.ValidRows.{is_numbered, names};

use bp_core::Keyed;

// Whether the rows are numbered from this number on without a gap.
pub(crate) fn is_numbered<T: Keyed>(rows: &[T], from: u128) -> bool
    requires { from < 2 ^ 64 }
    ensures { result ≡ is_numbered T.key_of from rows.now }
{
    let mut number = from;
    let mut rest = rows;
    while let Some((first, others)) = rest.split_first() {
        if first.key() != number {
            return false;
        }
        number += 1;
        rest = others;
    }
    true
}

pub(crate) fn names(count: usize, number: u32) -> bool
    ensures { result ≡ names count number }
{
    number >= 1 && number as usize <= count
}
