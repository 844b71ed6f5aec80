// What treatments and grounds mean.
ghost use Rattle.std.specs.Prelude.{◌≡◌};
ghost use Rattle.bp_matter.specs.Treatments.{is_ground, is_privileged, is_redact, is_withheld};

use bp_core::{Basis, Treatment};

/// Whether a whole document may be withheld on this ground.
pub fn is_ground(treatment: Treatment) -> bool
    ensures { result ≡ is_ground treatment }
{
    !matches!(treatment, Treatment::Withhold(Basis::Pi | Basis::Ts))
}

/// Whether a document is called Redact.
pub fn is_redact(treatment: Treatment) -> bool
    ensures { result ≡ is_redact treatment }
{
    matches!(treatment, Treatment::Redact)
}

/// Whether a document is withheld.
pub fn is_withheld(treatment: Treatment) -> bool
    ensures { result ≡ is_withheld treatment }
{
    matches!(treatment, Treatment::Withhold(_))
}

/// Whether the ground is a privilege, so that the log lists what is held back on it.
pub fn is_privileged(basis: Basis) -> bool
    ensures { result ≡ is_privileged basis }
{
    matches!(basis, Basis::Ac | Basis::Wp)
}
