// That the matter has no such document, or the document no such page.
ghost use Rattle.std.specs.Prelude.{◌≡◌};
ghost use Rattle.bp_looks.specs.Refusing.{no_document, no_page};

use bp_core::{DocNo, Rule, RuleKind};

pub(crate) fn no_document(doc: DocNo) -> Rule
    ensures { result ≡ no_document doc.0 }
{
    Rule::naming(RuleKind::NoDocument, u64::from(doc.0))
}

pub(crate) fn no_page(page: u32) -> Rule
    ensures { result ≡ no_page page }
{
    Rule::naming(RuleKind::NoPage, u64::from(page))
}
