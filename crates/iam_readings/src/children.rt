// What stands below a node.
ghost use Rattle.std.specs.Prelude.{◌≡◌, ◌∷◌, ◌<◌, ◌^◌, IfOk, OnOk, List as Items};
ghost use Rattle.iam_types.specs.declared.node.Node.{Node};
ghost use Rattle.iam_text.specs.Put.{placed};
ghost use Rattle.iam_model.specs.Hierarchy as hierarchy_spec;
ghost use Rattle.iam_model.specs.Nodes as spec;
ghost use Rattle.iam_model.specs.Nodes.{active_children, number_order};

use iam_names::{NodeId, NodeKind};
use iam_text::{List, Ordered, OutOfMemory, put_row};
use iam_types::{Node, Tables, copy_node};
use std::alloc::Global;
use std::cmp::Ordering;
use std::marker::Model;

/// A row that stands by its number. It is seen as the row.
#[derive(Drop)]
struct ByNumber {
    row: Node,
}

impl Model for ByNumber {
    ghost use Rattle.iam_types.specs.declared.node.Node.{Node};

    ghost Value = { Node };

    ghost view = { λ b. b.row };
}

impl Ordered for ByNumber {
    ghost use Rattle.iam_model.specs.Nodes.{number_order};
    ghost use Rattle.std.specs.Cmp.{nat_cmp_total, on_total};
    ghost use Rattle.iam_types.specs.declared.node.Node.{Node};

    ghost order = { number_order };

    ghost total = { on_total (λ (node : Node). node.id.number) nat_cmp_total };

    fn order(&self, other: &ByNumber) -> Ordering {
        self.row.id.number.cmp(&other.row.id.number)
    }
}

/// Whether a row is that of an ACTIVE node of a kind with a parent.
fn is_active_child(kind: NodeKind, parent: NodeId, row: &Node) -> bool
    ensures { result ≡ spec.is_active_child kind parent row.now }
{
    row.active && row.id.kind == kind && row.parent == parent
}

/// How many ACTIVE folders a parent has.
pub fn count_folders(tables: &Tables, parent: NodeId) -> usize
    ensures count { result ≡ hierarchy_spec.count_folders tables.now.nodes parent }
    ensures small { result < 2 ^ 63 }
{
    let mut count = 0;
    for row in tables.nodes.as_slice() {
        if is_active_child(NodeKind::Folder, parent, row) {
            count += 1;
        }
    }
    count
}

/// Whether anything ACTIVE stands below a node.
pub fn has_active_child(tables: &Tables, parent: NodeId) -> bool
    ensures { result ≡ spec.has_active_child tables.now.nodes parent }
{
    tables
        .nodes
        .as_slice()
        .iter()
        .any(|row| row.active && row.parent == parent)
}

// Puts one more row, which stands before the others, in its place by its number, if it is a child.
fn put_child(
    rows: &mut List<ByNumber>,
    kind: NodeKind,
    parent: NodeId,
    row: &Node,
) -> Result<(), OutOfMemory>
    ensures { (others : Items Node) → rows.old ≡ placed number_order (active_children others kind parent) → OnOk result (rows.new ≡ placed number_order (active_children (row.now ∷ others) kind parent)) }
{
    if is_active_child(kind, parent, row) {
        put_row(
            rows,
            ByNumber {
                row: copy_node(row)?,
            },
        )
    } else {
        Ok(())
    }
}

// The children in their order. The last row comes first, so that of rows in order each is put in front.
fn placed_children(
    alloc: Global,
    nodes: &[Node],
    kind: NodeKind,
    parent: NodeId,
) -> Result<List<ByNumber>, OutOfMemory>
    ensures { IfOk result (λ rows. rows ≡ spec.children_of nodes.now kind parent) }
{
    let mut rows = List::new(alloc);
    let mut left = nodes.len();
    while left > 0 {
        left -= 1;
        put_child(&mut rows, kind, parent, &nodes[left])?;
    }
    Ok(rows)
}

/// The ACTIVE folders or projects of a parent, in the order of their numbers.
pub fn children_of(
    alloc: Global,
    tables: &Tables,
    kind: NodeKind,
    parent: NodeId,
) -> Result<List<Node>, OutOfMemory>
    ensures { IfOk result (λ rows. rows ≡ spec.children_of tables.now.nodes kind parent) }
{
    let placed = placed_children(alloc, tables.nodes.as_slice(), kind, parent)?;
    let mut rows = List::new(alloc);
    for child in placed.as_slice() {
        rows.push(copy_node(&child.row)?)?;
    }
    Ok(rows)
}
