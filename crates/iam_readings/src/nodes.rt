// Nodes of the hierarchy: which there are, and what stands above them.
ghost use Rattle.std.specs.Prelude.{◌≡◌, IfOk, IfSome, IsTrue};
ghost use Rattle.std.specs.Option.{option_copied};
ghost use Rattle.iam_model.specs.Nodes as spec;

use iam_model::{named_nodes_exist, named_rows_exist};
use iam_names::{NodeId, NodeKind, NodeName};
use iam_text::{List, OutOfMemory, Text};
use iam_types::{Node, Tables};
use std::alloc::Global;

/// The most nodes of a path: the organisation, ten folders and a project.
const LONGEST_PATH: u64 = 12;

/// The deepest that a folder may stand.
pub const DEEPEST: u64 = 10;

/// The organisation's node.
pub fn organization_of(tables: &Tables) -> NodeId
    ensures { result ≡ spec.organization_of tables.now }
{
    NodeId {
        kind: NodeKind::Organization,
        number: tables.org.number,
    }
}

/// The row of a folder or a project; the organisation has none.
pub fn node_at(tables: &Tables, node: NodeId) -> Option<&Node>
    ensures { option_copied result ≡ spec.node_at tables.now.nodes node }
{
    tables.nodes.as_slice().iter().find(|row| row.id == node)
}

fn has_project_id(id: &Text, row: &Node) -> bool
    ensures { result ≡ spec.has_project_id id.now row.now }
{
    match &row.project {
        Some(own) => own.as_str() == id.as_str(),
        None => false,
    }
}

/// The row of the project with an id.
pub fn project_with<'a>(tables: &'a Tables, id: &Text) -> Option<&'a Node>
    ensures { option_copied result ≡ spec.project_with tables.now.nodes id.now }
{
    tables
        .nodes
        .as_slice()
        .iter()
        .find(|row| has_project_id(id, row))
}

/// Whether a node is there.
pub fn exists(tables: &Tables, node: NodeId) -> bool
    ensures { result ≡ spec.exists tables.now node }
{
    node == organization_of(tables) || node_at(tables, node).is_some()
}

fn numbered(tables: &Tables, kind: NodeKind, number: u64) -> Option<NodeId>
    ensures { result ≡ spec.found_node (spec.node_at tables.now.nodes (record { kind = kind; number = number })) }
{
    node_at(tables, NodeId { kind, number }).map(|row| row.id)
}

fn named_by_id(tables: &Tables, id: &Text) -> Option<NodeId>
    ensures { result ≡ spec.found_node (spec.project_with tables.now.nodes id.now) }
{
    project_with(tables, id).map(|row| row.id)
}

fn node_of(tables: &Tables, name: &NodeName) -> Option<NodeId>
    ensures { result ≡ spec.resolve tables.now name.now }
{
    match name {
        NodeName::Organization(number) => {
            if *number == tables.org.number {
                Some(organization_of(tables))
            } else {
                None
            }
        }
        NodeName::Folder(number) => numbered(tables, NodeKind::Folder, *number),
        NodeName::ProjectNumber(number) => numbered(tables, NodeKind::Project, *number),
        NodeName::ProjectId(id) => named_by_id(tables, id),
    }
}

/// The node of a name, if it is there.
pub fn resolve(tables: &Tables, name: &NodeName) -> Option<NodeId>
    ensures node { result ≡ spec.resolve tables.now name.now }
    ensures there { IfSome result (λ node. IsTrue (spec.exists tables.now node)) }
{
    named_nodes_exist();
    node_of(tables, name)
}

// The row of a name, by the kind of name.
fn row_of<'a>(tables: &'a Tables, name: &NodeName) -> Option<&'a Node>
    ensures { option_copied result ≡ spec.row_named tables.now name.now }
{
    match name {
        NodeName::Organization(_) => None,
        NodeName::Folder(number) => node_at(
            tables,
            NodeId {
                kind: NodeKind::Folder,
                number: *number,
            },
        ),
        NodeName::ProjectNumber(number) => node_at(
            tables,
            NodeId {
                kind: NodeKind::Project,
                number: *number,
            },
        ),
        NodeName::ProjectId(id) => project_with(tables, id),
    }
}

/// The row of a name, if it is there; the organisation has none.
pub fn row_named<'a>(tables: &'a Tables, name: &NodeName) -> Option<&'a Node>
    ensures row { option_copied result ≡ spec.row_named tables.now name.now }
    ensures there { IfSome result (λ row. IsTrue (spec.exists tables.now row.now.id)) }
{
    named_rows_exist();
    row_of(tables, name)
}

/// The parent of a folder or a project; the organisation has none.
pub fn parent_of(tables: &Tables, node: NodeId) -> Option<NodeId>
    ensures { result ≡ spec.parent_of tables.now.nodes node }
{
    node_at(tables, node).map(|row| row.parent)
}

/// Whether a node is ACTIVE; the organisation always is.
pub fn is_active(tables: &Tables, node: NodeId) -> bool
    ensures { result ≡ spec.is_active tables.now.nodes node }
{
    match node_at(tables, node) {
        Some(row) => row.active,
        None => true,
    }
}

/// The nodes from a node up to the organisation.
#[tactic(auto, unfolding(iam_model::specs::Nodes::way_up))]
pub fn way_up(alloc: Global, tables: &Tables, node: NodeId) -> Result<List<NodeId>, OutOfMemory>
    ensures { IfOk result (λ way. way ≡ spec.way_up tables.now.nodes node) }
{
    let mut way = List::new(alloc);
    let mut next = Some(node);
    for _ in 0..LONGEST_PATH {
        let Some(at) = next else {
            return Ok(way);
        };
        way.push(at)?;
        next = parent_of(tables, at);
    }
    Ok(way)
}

/// How deep a folder stands whose parent this is: 1 below the organisation.
#[tactic(auto, unfolding(iam_model::specs::Nodes::way_up))]
pub fn depth_below(tables: &Tables, parent: NodeId) -> u64
    ensures { result ≡ spec.depth_below tables.now.nodes parent }
{
    let mut depth = 0;
    let mut next = Some(parent);
    for _ in 0..LONGEST_PATH {
        let Some(at) = next else {
            return depth;
        };
        depth += 1;
        next = parent_of(tables, at);
    }
    depth
}
