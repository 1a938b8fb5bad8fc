// A test of permissions on a node.
ghost use Rattle.std.specs.Prelude.{◌≡◌, [], ◌∷◌, ◌++◌, not, IfOk, OnOk, IsTrue, filter};
ghost use Rattle.std.specs.List.{find, list_all};
ghost use Rattle.std.specs.Option.{option_copied};
ghost use Rattle.iam_model.specs.Catalogue as catalogue_spec;
ghost use Rattle.iam_model.specs.Nodes.{exists};
ghost use Rattle.iam_answer.specs.Answer.{test_answer};
ghost use Rattle.iam_answer.specs.Asking as asking_spec;

use iam_catalogue::{Catalogue, is_permission};
use iam_judge::{Index, decision_on};
use iam_names::{Caller, NodeId, PermissionName, copy_permission};
use iam_readings::limit_of;
use iam_text::{List, Moment, OutOfMemory};
use iam_types::{Answer, Decision, LimitName, Refusal};
use std::alloc::Global;

fn allows(decision: &Decision) -> bool
    ensures { result ≡ asking_spec.allows decision.now }
{
    match decision {
        Decision::Allowed { .. } => true,
        Decision::DeniedBoundary { .. } | Decision::DeniedRule { .. } | Decision::NotGranted => {
            false
        }
    }
}

fn is_allowed(
    alloc: Global,
    index: &Index,
    node: NodeId,
    caller: &Caller,
    moment: Moment,
    permission: &PermissionName,
) -> Result<bool, OutOfMemory>
    requires node { IsTrue (exists index.now node) }
    requires permission { IsTrue (catalogue_spec.is_permission permission.now) }
    ensures { IfOk result (λ allowed. allowed ≡ asking_spec.is_allowed index.now node caller.now moment permission.now) }
{
    let decision = decision_on(alloc, index, caller, moment, permission, node)?;
    Ok(allows(&decision))
}

// Puts the permission behind the others where the decision allows it.
fn push_allowed(
    alloc: Global,
    index: &Index,
    node: NodeId,
    caller: &Caller,
    moment: Moment,
    permission: &PermissionName,
    allowed: &mut List<PermissionName>,
) -> Result<(), OutOfMemory>
    requires node { IsTrue (exists index.now node) }
    requires permission { IsTrue (catalogue_spec.is_permission permission.now) }
    ensures { OnOk result (allowed.new ≡ allowed.old ++ filter (asking_spec.is_allowed index.now node caller.now moment) (permission.now ∷ [])) }
{
    if is_allowed(alloc, index, node, caller, moment, permission)? {
        allowed.push(copy_permission(permission)?)?;
    }
    Ok(())
}

// Those that the decision allows, in the order asked.
fn allowed_of(
    alloc: Global,
    index: &Index,
    node: NodeId,
    caller: &Caller,
    moment: Moment,
    permissions: &[PermissionName],
) -> Result<List<PermissionName>, OutOfMemory>
    requires node { IsTrue (exists index.now node) }
    requires permissions { IsTrue (list_all catalogue_spec.is_permission permissions.now) }
    ensures { IfOk result (λ allowed. allowed ≡ asking_spec.allowed_of index.now node caller.now moment permissions.now) }
{
    let mut allowed = List::new(alloc);
    for permission in permissions {
        push_allowed(alloc, index, node, caller, moment, permission, &mut allowed)?;
    }
    Ok(allowed)
}

fn first_unknown<'a>(
    catalogue: &Catalogue,
    permissions: &'a [PermissionName],
) -> Option<&'a PermissionName>
    ensures { option_copied result ≡ find (λ permission. not (catalogue_spec.is_permission permission)) permissions.now }
{
    permissions
        .iter()
        .find(|permission| !is_permission(catalogue, permission))
}

/// What a test of permissions comes to on a node.
#[tactic(auto, using(crate::proofs::Tests::none_unknown))]
pub fn test(
    alloc: Global,
    index: &Index,
    node: NodeId,
    permissions: &[PermissionName],
    caller: &Caller,
    moment: Moment,
) -> Result<Answer, OutOfMemory>
    requires { IsTrue (exists index.now node) }
    ensures { IfOk result (λ answer. answer ≡ test_answer index.now node permissions.now caller.now moment) }
{
    if let Some(unknown) = first_unknown(index.catalogue(), permissions) {
        let permission = unknown.text(alloc)?;
        return Ok(Answer::Refused(Refusal::PermissionUnknown { permission }));
    }
    let counted = permissions.len() as u64;
    let limit = limit_of(LimitName::PermissionsAsked);
    if counted > limit {
        return Ok(Answer::Refused(Refusal::Limit {
            counted,
            limit,
            which: LimitName::PermissionsAsked,
        }));
    }
    let allowed = allowed_of(alloc, index, node, caller, moment, permissions)?;
    Ok(Answer::Permissions(allowed))
}
