// Rules that several commands have.
ghost use Rattle.std.specs.Prelude.{◌≡◌, ◌+◌, ◌<◌, ◌^◌, IfOk, IsTrue, Some};
ghost use Rattle.iam_names.specs.Node.{node_text};
ghost use Rattle.iam_types.specs.declared.refusal.Refusal.TheVariants.{NotActive, NotFound};
ghost use Rattle.iam_model.specs.Creation.{taken_name};
ghost use Rattle.iam_model.specs.Limits.{beyond};
ghost use Rattle.iam_model.specs.Nodes as node_spec;
ghost use Rattle.iam_model.specs.Shared.{inactive, many_changes, missing};
ghost use Rattle.iam_law.specs.Asked as asked_spec;
ghost use Rattle.iam_admit.specs.Follows.{Follows};

use crate::stop::AdmitStop;
use iam_judge::unless_allowed;
use iam_names::{NodeId, NodeName, PermissionName};
use iam_readings::{has_own_name, is_active, limit_of, resolve};
use iam_text::OutOfMemory;
use iam_types::{Decision, Fault, LimitName, Node, Refusal, Tables};
use std::alloc::Global;

fn not_found(alloc: Global, name: &NodeName) -> Result<Refusal, OutOfMemory>
    ensures { IfOk result (λ refusal. refusal ≡ NotFound (node_text name.now)) }
{
    let name = name.text(alloc)?;
    Ok(Refusal::NotFound { name })
}

/// The node of a name, which must be there.
pub fn found(alloc: Global, tables: &Tables, name: &NodeName) -> Result<NodeId, AdmitStop>
    ensures follows { Follows result (missing tables.now name.now) }
    ensures node { IfOk result (λ node. node_spec.resolve tables.now name.now ≡ Some node) }
    ensures there { IfOk result (λ node. IsTrue (node_spec.exists tables.now node)) }
{
    match resolve(tables, name) {
        Some(node) => Ok(node),
        None => Err(AdmitStop::Refused(not_found(alloc, name)?)),
    }
}

/// What a node that isn't ACTIVE is refused with.
pub fn not_active(alloc: Global, name: &NodeName) -> Result<Refusal, OutOfMemory>
    ensures { IfOk result (λ refusal. refusal ≡ NotActive (node_text name.now)) }
{
    let name = name.text(alloc)?;
    Ok(Refusal::NotActive { name })
}

/// The node of a name is ACTIVE.
pub fn active(
    alloc: Global,
    tables: &Tables,
    name: &NodeName,
    node: NodeId,
) -> Result<(), AdmitStop>
    ensures { Follows result (inactive tables.now name.now node) }
{
    if is_active(tables, node) {
        Ok(())
    } else {
        Err(AdmitStop::Refused(not_active(alloc, name)?))
    }
}

/// No ACTIVE folder with the same parent has the folder's name.
pub fn has_free_name(tables: &Tables, node: &Node) -> Result<(), AdmitStop>
    ensures { Follows result (taken_name tables.now.nodes node.now) }
{
    if has_own_name(tables.nodes.as_slice(), node) {
        Ok(())
    } else {
        Err(AdmitStop::Refused(Refusal::Hierarchy {
            counted: 0,
            limit: 0,
            which: Fault::SiblingName,
        }))
    }
}

/// The decision on the permission allows.
pub fn allowed(permission: PermissionName, decision: Decision) -> Result<(), AdmitStop>
    ensures { Follows result (asked_spec.unless_allowed permission decision) }
{
    match unless_allowed(permission, decision) {
        Some(refusal) => Err(AdmitStop::Refused(refusal)),
        None => Ok(()),
    }
}

/// A limit isn't passed.
pub fn within(counted: u64, which: LimitName) -> Result<(), AdmitStop>
    ensures { Follows result (beyond counted which) }
{
    let limit = limit_of(which);
    if counted > limit {
        return Err(AdmitStop::Refused(Refusal::Limit {
            counted,
            limit,
            which,
        }));
    }
    Ok(())
}

/// One more change isn't one too many.
pub fn few_changes(tables: &Tables) -> Result<(), AdmitStop>
    requires { tables.now.org.changes + 1 < 2 ^ 64 }
    ensures { Follows result (many_changes tables.now) }
{
    within(tables.org.changes + 1, LimitName::Changes)
}
