// What is asked where no role of a policy is to be modified.
ghost use Rattle.std.specs.Prelude.{◌≡◌, [], IfOk, IsTrue};
ghost use Rattle.iam_model.specs.Catalogue.{is_permission};
ghost use Rattle.iam_model.specs.Nodes.{exists};
ghost use Rattle.iam_law.specs.Asked as spec;
ghost use Rattle.iam_law.specs.Decide.{decide};

use crate::decided::unless_allowed;
use crate::index::Index;
use crate::resource::resource_facts_of;
use iam_catalogue::permission_named;
use iam_names::{Caller, NodeId, PermissionName, copy_caller, copy_permission};
use iam_text::{List, Moment, OutOfMemory};
use iam_types::{Decision, Query, Refusal};
use std::alloc::Global;

fn query_on(
    alloc: Global,
    caller: &Caller,
    moment: Moment,
    permission: &PermissionName,
    node: NodeId,
) -> Result<Query, OutOfMemory>
    ensures { IfOk result (λ query. query ≡ spec.query_on caller.now moment [] permission.now node) }
{
    Ok(Query {
        caller: copy_caller(caller)?,
        node,
        permission: copy_permission(permission)?,
        resource: resource_facts_of(alloc, node)?,
        moment,
        modified: List::new(alloc),
    })
}

/// The decision on a permission of the caller on a node, at a moment.
pub fn decision_on(
    alloc: Global,
    index: &Index,
    caller: &Caller,
    moment: Moment,
    permission: &PermissionName,
    node: NodeId,
) -> Result<Decision, OutOfMemory>
    requires node { IsTrue (exists index.now node) }
    requires permission { IsTrue (is_permission permission.now) }
    ensures { IfOk result (λ decision. decision ≡ decide index.now (spec.query_on caller.now moment [] permission.now node)) }
{
    let query = query_on(alloc, caller, moment, permission, node)?;
    index.decision(alloc, &query)
}

/// The refusal of a caller who hasn't the permission on a node, at a moment.
pub fn forbidden(
    alloc: Global,
    index: &Index,
    caller: &Caller,
    moment: Moment,
    permission: &str,
    node: NodeId,
) -> Result<Option<Refusal>, OutOfMemory>
    requires node { IsTrue (exists index.now node) }
    requires permission { IsTrue (is_permission permission.now) }
    ensures { IfOk result (λ refusal. refusal ≡ spec.forbidden index.now (spec.query_on caller.now moment [] permission.now node)) }
{
    let permission = permission_named(alloc, permission)?;
    let decision = decision_on(alloc, index, caller, moment, &permission, node)?;
    Ok(unless_allowed(permission, decision))
}
