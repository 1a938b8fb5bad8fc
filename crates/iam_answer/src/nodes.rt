// The reading of a node, the listing of what stands under it, and what is shown of its changes.
ghost use Rattle.std.specs.Prelude.{◌≡◌, IfOk, IsTrue, codes};
ghost use Rattle.std.specs.Option.{option_copied};
ghost use Rattle.iam_model.specs.Nodes.{exists};
ghost use Rattle.iam_law.specs.Asked.{permission_at};
ghost use Rattle.iam_answer.specs.NodeAnswers as node_spec;

use iam_judge::{Index, forbidden};
use iam_names::{Caller, NodeId, NodeKind};
use iam_readings::{children_of, node_at};
use iam_text::{Moment, OutOfMemory};
use iam_types::{Answer, Node, Org, Resource, Tables, copy_node, copy_org};
use std::alloc::Global;

fn organization_shown(org: &Org) -> Result<Resource, OutOfMemory>
    ensures { IfOk result (λ shown. shown ≡ node_spec.organization_shown org.now) }
{
    let org = copy_org(org)?;
    Ok(Resource::Organization {
        number: org.number,
        domain: org.domain,
        customer: org.customer,
    })
}

fn node_shown(node: Option<&Node>) -> Result<Resource, OutOfMemory>
    ensures { IfOk result (λ shown. shown ≡ node_spec.node_shown (option_copied node.entry)) }
{
    match node {
        Some(node) => Ok(Resource::Node(copy_node(node)?)),
        None => Ok(Resource::Nothing),
    }
}

/// What is shown of a node.
pub fn resource_at(tables: &Tables, node: NodeId) -> Result<Resource, OutOfMemory>
    ensures { IfOk result (λ shown. shown ≡ node_spec.resource_at tables.now node) }
{
    match node.kind {
        NodeKind::Organization => organization_shown(&tables.org),
        NodeKind::Folder => node_shown(node_at(tables, node)),
        NodeKind::Project => node_shown(node_at(tables, node)),
    }
}

fn get_text(kind: NodeKind) -> &'static str
    ensures { result.now ≡ permission_at kind (codes "get") }
{
    match kind {
        NodeKind::Organization => "resourcemanager.organizations.get",
        NodeKind::Folder => "resourcemanager.folders.get",
        NodeKind::Project => "resourcemanager.projects.get",
    }
}

/// What the reading of a node comes to.
pub fn node(
    alloc: Global,
    index: &Index,
    node: NodeId,
    caller: &Caller,
    moment: Moment,
) -> Result<Answer, OutOfMemory>
    requires { IsTrue (exists index.now node) }
    ensures { IfOk result (λ answer. answer ≡ node_spec.node_answer index.now node caller.now moment) }
{
    let refusal = forbidden(alloc, index, caller, moment, get_text(node.kind), node)?;
    if let Some(refusal) = refusal {
        return Ok(Answer::Refused(refusal));
    }
    Ok(Answer::Resource(resource_at(index.tables(), node)?))
}

/// What the listing of the folders under a node comes to.
pub fn folders(
    alloc: Global,
    index: &Index,
    parent: NodeId,
    caller: &Caller,
    moment: Moment,
) -> Result<Answer, OutOfMemory>
    requires { IsTrue (exists index.now parent) }
    ensures { IfOk result (λ answer. answer ≡ node_spec.folders_answer index.now parent caller.now moment) }
{
    let list = "resourcemanager.folders.list";
    if let Some(refusal) = forbidden(alloc, index, caller, moment, list, parent)? {
        return Ok(Answer::Refused(refusal));
    }
    Ok(Answer::Folders(children_of(alloc, index.tables(), NodeKind::Folder, parent)?))
}

/// What the listing of the projects under a node comes to.
pub fn projects(
    alloc: Global,
    index: &Index,
    parent: NodeId,
    caller: &Caller,
    moment: Moment,
) -> Result<Answer, OutOfMemory>
    requires { IsTrue (exists index.now parent) }
    ensures { IfOk result (λ answer. answer ≡ node_spec.projects_answer index.now parent caller.now moment) }
{
    let list = "resourcemanager.projects.list";
    if let Some(refusal) = forbidden(alloc, index, caller, moment, list, parent)? {
        return Ok(Answer::Refused(refusal));
    }
    Ok(Answer::Projects(children_of(alloc, index.tables(), NodeKind::Project, parent)?))
}

/// What an accepted change of a node is answered, where the tables are those after it.
pub fn change_shown(tables: &Tables, node: NodeId) -> Result<Answer, OutOfMemory>
    ensures { IfOk result (λ answer. answer ≡ node_spec.change_shown tables.now node) }
{
    Ok(Answer::Operation {
        revision: tables.org.changes,
        response: resource_at(tables, node)?,
    })
}

/// What an accepted change that made a node is answered, where the tables are those after it.
pub fn creation_shown(kind: NodeKind, tables: &Tables) -> Result<Answer, OutOfMemory>
    ensures { IfOk result (λ answer. answer ≡ node_spec.creation_shown kind tables.now) }
{
    let made = NodeId {
        kind,
        number: tables.org.next.saturating_sub(1),
    };
    change_shown(tables, made)
}
