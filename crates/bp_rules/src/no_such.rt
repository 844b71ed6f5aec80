// That no such document, or no such page of it, is there.
ghost use Rattle.std.specs.Prelude.{◌≡◌};
ghost use Rattle.bp_rules.specs.Refusing.{no_document, no_page};

use bp_core::{DocNo, PageNo, Rule, RuleKind};

pub(crate) fn no_document(doc: DocNo) -> Rule
    ensures { result ≡ no_document doc.0 }
{
    Rule::naming(RuleKind::NoDocument, u64::from(doc.0))
}

pub(crate) fn no_page(page: PageNo) -> Rule
    ensures { result ≡ no_page page.0 }
{
    Rule::naming(RuleKind::NoPage, u64::from(page.0))
}
