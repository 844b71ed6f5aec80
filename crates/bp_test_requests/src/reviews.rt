// The words of a review, as requests say them.
use bp_core::{Basis, Role, Treatment};

pub fn role_word(role: Role) -> &'static str {
    match role {
        Role::Reviewer => "Reviewer",
        Role::Second => "Second",
        Role::Lead => "Lead",
        Role::Clerk => "Clerk",
        Role::Receiver => "Receiver",
    }
}

pub fn basis_word(basis: Basis) -> &'static str {
    basis.code()
}

/// With a space before it.
pub fn treatment_word(treatment: Treatment) -> &'static str {
    match treatment {
        Treatment::Produce => " Produce",
        Treatment::Redact => " Redact",
        Treatment::Withhold(Basis::Ac) => " Withhold-AC",
        Treatment::Withhold(Basis::Wp) => " Withhold-WP",
        Treatment::Withhold(Basis::Pi) => " Withhold-PI",
        Treatment::Withhold(Basis::Ts) => " Withhold-TS",
    }
}
