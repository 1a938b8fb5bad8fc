ghost use Rattle.std.specs.Prelude.{◌≡◌, IfOk};

use iam_names::NodeId;
use iam_text::{Ordered, OutOfMemory, Text};
use std::cmp::Ordering;

/// The organisation; `next` is the next number of a node or a tag, `changes` the number of the last change.
#[derive(Clone, Drop)]
pub struct Org {
    pub number: u64,
    pub domain: Text,
    pub customer: Text,
    pub next: u64,
    pub changes: u64,
}

/// A folder, or a project with its id.
#[derive(Clone, Drop)]
pub struct Node {
    pub id: NodeId,
    pub parent: NodeId,
    pub display: Text,
    pub project: Option<Text>,
    pub active: bool,
}

// Nodes stand by their names, in bytes.
impl Ordered for Node {
    ghost use Rattle.std.specs.Cmp.Lexicographic.{on_texts, slice_cmp};
    ghost use Rattle.std.specs.Ordering.{nat_cmp};
    ghost use Rattle.iam_names.specs.Node.{node_id_text};
    ghost use Rattle.iam_types.specs.declared.node.Node.{Node};

    ghost order = { λ a b. slice_cmp nat_cmp (node_id_text a.id) (node_id_text b.id) };

    ghost total = { on_texts (λ (node : Node). node_id_text node.id) };

    fn order(&self, other: &Node) -> Ordering {
        self.id.name_order(other.id)
    }
}

pub fn copy_org(org: &Org) -> Result<Org, OutOfMemory>
    ensures { IfOk result (λ copy. copy ≡ org.now) }
{
    match org.clone() {
        Ok(copy) => Ok(copy),
        Err(_) => Err(OutOfMemory),
    }
}

pub fn copy_node(node: &Node) -> Result<Node, OutOfMemory>
    ensures { IfOk result (λ copy. copy ≡ node.now) }
{
    match node.clone() {
        Ok(copy) => Ok(copy),
        Err(_) => Err(OutOfMemory),
    }
}
