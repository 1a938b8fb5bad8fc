// The rules of the hierarchy that tables of facts may break, a function each.
ghost use Rattle.std.specs.Prelude.{◌≡◌, ◌↔◌, IfSome, IfNone, IsTrue, length};
ghost use Rattle.std.specs.List.{list_all, list_any};
ghost use Rattle.iam_model.specs.Broken.{IsFirstBrokenBy};
ghost use Rattle.iam_model.specs.Consistent.{FoldersFit, HierarchyStands, ParentsAreActive, ParentsLead};
ghost use Rattle.iam_model.specs.Hierarchy as spec;
ghost use Rattle.iam_model.specs.Nodes as node_spec;
ghost use Rattle.iam_model.specs.Same as same_spec;

use iam_model::ways_are_short;
use iam_names::NodeId;
use iam_readings::{
    DEEPEST, depth_below, has_own_name, is_active, is_folder, organization_of, parent_of, same_node,
};
use iam_types::{Node, Tables};

// Whether a node is the organisation, or a folder whose parents lead there through folders, in at most so many steps.
fn is_led_up(tables: &Tables, steps: usize, node: NodeId) -> bool
    ensures { result ≡ spec.is_led_up steps (node_spec.organization_of tables.now) tables.now.nodes node }
{
    let root = organization_of(tables);
    let mut at = node;
    for _ in 0..steps {
        if same_node(at, root) {
            return true;
        }
        if !is_folder(at) {
            return false;
        }
        let Some(parent) = parent_of(tables, at) else {
            return false;
        };
        at = parent;
    }
    same_node(at, root)
}

fn all_lead(tables: &Tables) -> bool
    ensures { result ≡ list_all (λ row. spec.is_led_up (length tables.now.nodes) (node_spec.organization_of tables.now) tables.now.nodes row.parent) tables.now.nodes }
{
    let steps = tables.nodes.len();
    tables
        .nodes
        .as_slice()
        .iter()
        .all(|row| is_led_up(tables, steps, row.parent))
}

// Each node's parents lead to the organisation through folders. They do so in no more steps than there are nodes.
fn parents_lead(tables: &Tables) -> bool
    ensures { IsTrue result ↔ ParentsLead tables.now }
{
    ways_are_short();
    all_lead(tables)
}

fn is_shallow(tables: &Tables, row: &Node) -> bool
    ensures { result ≡ spec.is_shallow tables.now.nodes row.now }
{
    !is_folder(row.id) || depth_below(tables, row.parent) <= DEEPEST
}

fn all_shallow(tables: &Tables) -> bool
    ensures { result ≡ list_all (spec.is_shallow tables.now.nodes) tables.now.nodes }
{
    tables
        .nodes
        .as_slice()
        .iter()
        .all(|row| is_shallow(tables, row))
}

fn all_named(nodes: &[Node]) -> bool
    ensures { result ≡ list_all (spec.is_alone spec.are_namesakes nodes.now) nodes.now }
{
    nodes.iter().all(|row| has_own_name(nodes, row))
}

// No folder is too deep, and ACTIVE folders with one parent have different names.
fn folders_fit(tables: &Tables) -> bool
    ensures { IsTrue result ↔ FoldersFit tables.now }
{
    all_shallow(tables) && all_named(tables.nodes.as_slice())
}

fn is_below_active(tables: &Tables, row: &Node) -> bool
    ensures { result ≡ spec.is_below_active tables.now.nodes row.now }
{
    !row.active || is_active(tables, row.parent)
}

fn all_below_active(tables: &Tables) -> bool
    ensures { result ≡ list_all (spec.is_below_active tables.now.nodes) tables.now.nodes }
{
    tables
        .nodes
        .as_slice()
        .iter()
        .all(|row| is_below_active(tables, row))
}

// An ACTIVE node's parent is ACTIVE, or the organisation.
fn parents_are_active(tables: &Tables) -> bool
    ensures { IsTrue result ↔ ParentsAreActive tables.now }
{
    all_below_active(tables)
}

/// The first rule of the hierarchy that the tables break, by its number.
pub fn broken_hierarchy(tables: &Tables) -> Option<u8>
    ensures broken { IfSome result (IsFirstBrokenBy tables.now) }
    ensures kept { IfNone result (HierarchyStands tables.now) }
{
    if !parents_lead(tables) {
        return Some(3);
    }
    if !folders_fit(tables) {
        return Some(4);
    }
    if !parents_are_active(tables) {
        return Some(5);
    }
    None
}
