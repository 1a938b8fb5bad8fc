// What a decision refuses.
ghost use Rattle.std.specs.Prelude.{◌≡◌};
ghost use Rattle.iam_law.specs.Asked as spec;

use iam_names::PermissionName;
use iam_types::{Decision, Refusal};

/// The refusal of a call that needs the permission, where the decision doesn't allow it.
pub fn unless_allowed(permission: PermissionName, decision: Decision) -> Option<Refusal>
    ensures { result ≡ spec.unless_allowed permission decision }
{
    match decision {
        Decision::Allowed { .. } => None,
        Decision::DeniedBoundary { binding } => Some(Refusal::DeniedBoundary { binding }),
        Decision::DeniedRule { policy, rule } => Some(Refusal::DeniedRule { policy, rule }),
        Decision::NotGranted => Some(Refusal::NotGranted { permission }),
    }
}
