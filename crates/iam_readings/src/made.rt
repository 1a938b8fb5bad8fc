// The rows that commands make: the policy that a node gets, new nodes, and what nodes become.
ghost use Rattle.std.specs.Prelude.{◌≡◌, ◌+◌, ◌<◌, ◌^◌, IfOk, filter};
ghost use Rattle.iam_model.specs.Allow as allow_spec;
ghost use Rattle.iam_model.specs.Creation as spec;
ghost use Rattle.iam_model.specs.NodeChanges as change_spec;
ghost use Rattle.iam_model.specs.Policies as policy_spec;

use iam_names::{NodeId, NodeKind};
use iam_text::{List, OutOfMemory, Text};
use iam_types::{AllowPolicy, Binding, Node, Tables, copy_binding, copy_node};
use std::alloc::Global;

fn has_members(binding: &Binding) -> bool
    ensures { result ≡ policy_spec.has_members binding.now }
{
    !binding.members.as_slice().is_empty()
}

fn with_members(alloc: Global, bindings: &[Binding]) -> Result<List<Binding>, OutOfMemory>
    ensures { IfOk result (λ kept. kept ≡ filter policy_spec.has_members bindings.now) }
{
    let mut kept = List::new(alloc);
    for binding in bindings {
        if has_members(binding) {
            kept.push(copy_binding(binding)?)?;
        }
    }
    Ok(kept)
}

/// The policy that a node gets.
pub fn policy_after(
    alloc: Global,
    tables: &Tables,
    node: NodeId,
    bindings: &List<Binding>,
) -> Result<AllowPolicy, OutOfMemory>
    requires { tables.now.org.changes + 1 < 2 ^ 64 }
    ensures { IfOk result (λ policy. policy ≡ allow_spec.policy_after tables.now node bindings.now) }
{
    Ok(AllowPolicy {
        node,
        bindings: with_members(alloc, bindings.as_slice())?,
        set: tables.org.changes + 1,
    })
}

/// A folder with the next number.
pub fn new_folder(
    alloc: Global,
    tables: &Tables,
    parent: NodeId,
    display: &Text,
) -> Result<Node, OutOfMemory>
    ensures { IfOk result (λ node. node ≡ spec.new_folder tables.now parent display.now) }
{
    Ok(Node {
        id: NodeId {
            kind: NodeKind::Folder,
            number: tables.org.next,
        },
        parent,
        display: Text::of(alloc, display.as_str())?,
        project: None,
        active: true,
    })
}

/// A project with the next number.
pub fn new_project(
    alloc: Global,
    tables: &Tables,
    project: &Text,
    parent: NodeId,
    display: &Text,
) -> Result<Node, OutOfMemory>
    ensures { IfOk result (λ node. node ≡ spec.new_project tables.now project.now parent display.now) }
{
    let id = Text::of(alloc, project.as_str())?;
    Ok(Node {
        id: NodeId {
            kind: NodeKind::Project,
            number: tables.org.next,
        },
        parent,
        display: Text::of(alloc, display.as_str())?,
        project: Some(id),
        active: true,
    })
}

/// A node with another name.
pub fn renamed(alloc: Global, node: &Node, display: &Text) -> Result<Node, OutOfMemory>
    ensures { IfOk result (λ renamed. renamed ≡ change_spec.renamed display.now node.now) }
{
    let mut renamed = copy_node(node)?;
    renamed.display = Text::of(alloc, display.as_str())?;
    Ok(renamed)
}

/// A node that is deleted.
pub fn deleted(node: &Node) -> Result<Node, OutOfMemory>
    ensures { IfOk result (λ deleted. deleted ≡ change_spec.deleted node.now) }
{
    let mut deleted = copy_node(node)?;
    deleted.active = false;
    Ok(deleted)
}

/// A node that is undeleted.
pub fn undeleted(node: &Node) -> Result<Node, OutOfMemory>
    ensures { IfOk result (λ undeleted. undeleted ≡ change_spec.undeleted node.now) }
{
    let mut undeleted = copy_node(node)?;
    undeleted.active = true;
    Ok(undeleted)
}
