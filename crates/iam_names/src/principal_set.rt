// Sets of principals that boundary policies are bound to.
ghost use Rattle.std.specs.Prelude.{◌≡◌, ◌↔◌, ◌++◌, IfOk, IsTrue, codes};
ghost use Rattle.iam_names.specs.Node.{node_id_text};
ghost use Rattle.iam_names.specs.PrincipalSet.{principal_set_text};

use crate::node::NodeId;
use crate::pool::{Pool, pool_behind};
use crate::text::prefixed;
use iam_text::{OutOfMemory, Text};
use std::alloc::Global;

/// The principals of a node, or of a pool.
#[derive(Clone, PartialEq, Eq, Drop)]
pub enum PrincipalSet {
    Node(NodeId),
    Pool(Pool),
}

impl PrincipalSet {
    pub fn text(&self, alloc: Global) -> Result<Text, OutOfMemory>
        ensures { IfOk result (λ text. text ≡ principal_set_text self.now) }
    {
        match self {
            PrincipalSet::Node(node) => node_set_text(alloc, node),
            PrincipalSet::Pool(pool) => Ok(Text::from(pool_behind(alloc, "//", pool)?)),
        }
    }
}

fn node_set_text(alloc: Global, node: &NodeId) -> Result<Text, OutOfMemory>
    ensures { IfOk result (λ text. text ≡ codes "//cloudresourcemanager.googleapis.com/" ++ node_id_text node.now) }
{
    let name = node.text(alloc)?;
    prefixed(
        alloc,
        "//cloudresourcemanager.googleapis.com/",
        name.as_str(),
    )
}

pub fn same_principal_set(a: &PrincipalSet, b: &PrincipalSet) -> bool
    ensures { IsTrue result ↔ (a.now ≡ b.now) }
{
    *a == *b
}

pub fn copy_principal_set(set: &PrincipalSet) -> Result<PrincipalSet, OutOfMemory>
    ensures { IfOk result (λ copy. copy ≡ set.now) }
{
    match set.clone() {
        Ok(copy) => Ok(copy),
        Err(_) => Err(OutOfMemory),
    }
}
