// Folders with one parent and one name.
ghost use Rattle.std.specs.Prelude.{◌≡◌};
ghost use Rattle.std.specs.List.{list_any};
ghost use Rattle.iam_model.specs.Hierarchy as spec;
ghost use Rattle.iam_model.specs.Nodes as node_spec;
ghost use Rattle.iam_model.specs.Same as same_spec;

use iam_names::{NodeId, NodeKind};
use iam_types::Node;

/// Whether a node is a folder.
pub fn is_folder(node: NodeId) -> bool
    ensures { result ≡ node_spec.is_folder node }
{
    node.kind == NodeKind::Folder
}

/// Whether two nodes are one.
pub fn same_node(a: NodeId, b: NodeId) -> bool
    ensures { result ≡ same_spec.same_node a b }
{
    a == b
}

fn is_active_folder(row: &Node) -> bool
    ensures { result ≡ spec.is_active_folder row.now }
{
    row.active && is_folder(row.id)
}

fn are_namesakes(a: &Node, b: &Node) -> bool
    ensures { result ≡ spec.are_namesakes a.now b.now }
{
    !same_node(a.id, b.id)
        && is_active_folder(a)
        && is_active_folder(b)
        && same_node(a.parent, b.parent)
        && a.display.as_str() == b.display.as_str()
}

fn has_namesake(nodes: &[Node], row: &Node) -> bool
    ensures { result ≡ list_any (spec.are_namesakes row.now) nodes.now }
{
    nodes.iter().any(|other| are_namesakes(row, other))
}

/// Whether no other ACTIVE folder has the parent and the name of this one.
pub fn has_own_name(nodes: &[Node], row: &Node) -> bool
    ensures { result ≡ spec.is_alone spec.are_namesakes nodes.now row.now }
{
    !has_namesake(nodes, row)
}
