// The claims of a notice.
use bp_core::{Basis, DocNo, ListOf};
use bp_matter::Entry;

/// A document that is claimed back.
#[derive(Debug, Drop)]
pub struct Claim {
    pub doc: DocNo,
    /// The privilege that is claimed.
    pub basis: Basis,
    /// What the privilege log is to say of the document.
    pub entry: Entry,
}

pub type Notice = ListOf<Claim>;
