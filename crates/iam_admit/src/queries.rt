// Who may do what.
ghost use Rattle.std.specs.Prelude.{◌≡◌, [], IfOk, IsTrue, codes};
ghost use Rattle.iam_model.specs.Catalogue.{is_permission};
ghost use Rattle.iam_model.specs.Nodes.{exists};
ghost use Rattle.iam_law.specs.Admit as spec;
ghost use Rattle.iam_law.specs.Asked as asked_spec;
ghost use Rattle.iam_law.specs.Asked.{permission_at, query_on};
ghost use Rattle.iam_admit.specs.Follows.{Follows};

use crate::rules::allowed;
use crate::stop::AdmitStop;
use iam_catalogue::permission_named;
use iam_judge::{Index, forbidden, resource_facts_of};
use iam_modified::modified_roles;
use iam_names::{Caller, NodeId, NodeKind, PermissionName, copy_caller, copy_permission};
use iam_readings::bindings_at;
use iam_text::{Moment, OutOfMemory};
use iam_types::{Binding, Query, Tables};
use std::alloc::Global;

/// The caller may use a permission on a node, where no role of its policy is to be modified.
pub fn may(
    alloc: Global,
    index: &Index,
    caller: &Caller,
    moment: Moment,
    text: &str,
    node: NodeId,
) -> Result<(), AdmitStop>
    requires node { IsTrue (exists index.now node) }
    requires permission { IsTrue (is_permission text.now) }
    ensures { Follows result (asked_spec.forbidden index.now (query_on caller.now moment [] text.now node)) }
{
    match forbidden(alloc, index, caller, moment, text, node)? {
        Some(refusal) => Err(AdmitStop::Refused(refusal)),
        None => Ok(()),
    }
}

fn set_text(kind: NodeKind) -> &'static str
    ensures { result.now ≡ permission_at kind (codes "setIamPolicy") }
{
    match kind {
        NodeKind::Organization => "resourcemanager.organizations.setIamPolicy",
        NodeKind::Folder => "resourcemanager.folders.setIamPolicy",
        NodeKind::Project => "resourcemanager.projects.setIamPolicy",
    }
}

fn set_query(
    alloc: Global,
    tables: &Tables,
    caller: &Caller,
    moment: Moment,
    node: NodeId,
    bindings: &[Binding],
    permission: &PermissionName,
) -> Result<Query, OutOfMemory>
    requires { permission.now ≡ permission_at node.kind (codes "setIamPolicy") }
    ensures { IfOk result (λ query. query ≡ spec.set_query tables.now caller.now moment node bindings.now) }
{
    Ok(Query {
        caller: copy_caller(caller)?,
        node,
        permission: copy_permission(permission)?,
        resource: resource_facts_of(alloc, node)?,
        moment,
        modified: modified_roles(alloc, bindings_at(tables, node), bindings)?,
    })
}

/// The caller may set the policy there.
pub fn may_set(
    alloc: Global,
    index: &Index,
    caller: &Caller,
    moment: Moment,
    node: NodeId,
    bindings: &[Binding],
) -> Result<(), AdmitStop>
    requires { IsTrue (exists index.now node) }
    ensures { Follows result (spec.may_not_set index.now caller.now moment node bindings.now) }
{
    let permission = permission_named(alloc, set_text(node.kind))?;
    let query = set_query(
        alloc,
        index.tables(),
        caller,
        moment,
        node,
        bindings,
        &permission,
    )?;
    let decision = index.decision(alloc, &query)?;
    allowed(permission, decision)
}
