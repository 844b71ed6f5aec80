// Who may make which call.
ghost use Rattle.std.specs.Prelude.{◌≡◌};
ghost use Rattle.bp_matter.specs.ValidStaff.{is_checker};
ghost use Rattle.bp_rules.specs.Roles.{is_clerk, is_insider, is_reviewer, may};

use bp_core::Role;
use bp_matter::Call;

/// Whether a member of the staff of this role may make the call.
pub fn may(role: Role, call: &Call) -> bool
    ensures { result ≡ may role call.now }
{
    match call {
        Call::AddStaff { .. } => matches!(role, Role::Lead),
        Call::SeeDoc { .. } | Call::SeePage { .. } | Call::SeeWords { .. } => is_insider(role),
        Call::SetCall { .. } | Call::PutBox { .. } | Call::DropBox { .. } => is_reviewer(role),
        Call::HoldField { .. } | Call::FreeField { .. } => is_reviewer(role),
        Call::PutEntry { .. } => is_reviewer(role),
        Call::Confirm { .. } | Call::SendBack { .. } => is_checker(role),
        Call::Freeze { .. } => is_clerk(role),
        Call::GetProduction { .. } => is_insider(role),
        Call::SeeStates { .. } | Call::SeeValues { .. } => is_insider(role),
        Call::SeeStaff | Call::SeeProductions => is_insider(role),
        Call::Find { .. } | Call::Plan { .. } => is_insider(role),
    }
}

// All but a receiver.
fn is_insider(role: Role) -> bool
    ensures { result ≡ is_insider role }
{
    !matches!(role, Role::Receiver)
}

fn is_reviewer(role: Role) -> bool
    ensures { result ≡ is_reviewer role }
{
    matches!(role, Role::Reviewer | Role::Second | Role::Lead)
}

fn is_checker(role: Role) -> bool
    ensures { result ≡ is_checker role }
{
    matches!(role, Role::Second | Role::Lead)
}

fn is_clerk(role: Role) -> bool
    ensures { result ≡ is_clerk role }
{
    matches!(role, Role::Clerk | Role::Lead)
}
