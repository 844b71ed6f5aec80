// Rows that stand on the shelf of their document.
ghost use Rattle.std.specs.Prelude.{ℕ, ◌≡◌, ◌≤◌, ◌<◌, ◌+◌, ◌*◌};

use bp_core::{DocNo, Keyed};

/// A row whose key tells its document: each document has the same number of keys, one behind the other,
/// and document 0 the first.
pub trait Shelved: Keyed {
    // How many keys a document has.
    ghost span: { ℕ };

    ghost doc_of: { Self → ℕ };

    /// Its document.
    fn doc(&self) -> DocNo
        ensures value { result.0 ≡ doc_of self.now }
        ensures low { result.0 * span ≤ Self.key_of self.now }
        ensures high { Self.key_of self.now < result.0 * span + span };
}
