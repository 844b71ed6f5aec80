// Rows with a key that is one number, by which their list is ordered.
ghost use Rattle.std.specs.Prelude.{◌≡◌, ◌<◌, ◌^◌, ℕ};
ghost use Rattle.bp_core.specs.Sorted.{two_keys};

use crate::kept::Row;

/// A row that stands in its list at the place of its key.
pub trait Keyed {
    ghost key_of: { Self → ℕ };

    /// The key, below 2^72.
    fn key(&self) -> u128
        ensures value { result ≡ key_of self.now }
        ensures small { result < 2 ^ 72 };
}

/// The key of two numbers, the first before the second, as one number.
pub fn two_keys(k1: u32, k2: u32) -> u128
    ensures value { result ≡ two_keys k1 k2 }
    ensures small { result < 2 ^ 64 }
{
    u128::from(k1) * 4_294_967_296 + u128::from(k2)
}

/// Its kind, and within a kind its two numbers.
impl Keyed for Row {
    ghost use Rattle.bp_core.specs.Sorted.{row_key};

    ghost key_of = { row_key };

    fn key(&self) -> u128 {
        u128::from(self.kind) * 18_446_744_073_709_551_616 + two_keys(self.k1, self.k2)
    }
}
