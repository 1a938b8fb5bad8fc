ghost use Rattle.std.specs.Prelude.{◌≡◌, IfOk};

use iam_names::{Member, NodeId, RoleName};
use iam_text::{List, Ordered, OutOfMemory, Text};
use std::cmp::Ordering;

/// An IAM condition: an expression of the Common Expression Language, with a title and a description.
#[derive(Clone, Drop)]
pub struct Condition {
    pub expression: Text,
    pub title: Text,
    pub description: Text,
}

/// A role that is granted to members, where the condition holds.
#[derive(Clone, Drop)]
pub struct Binding {
    pub role: RoleName,
    pub members: List<Member>,
    pub condition: Option<Condition>,
}

/// The allow policy of a node; `set` is the number of the change that set it, and its etag.
#[derive(Clone, Drop)]
pub struct AllowPolicy {
    pub node: NodeId,
    pub bindings: List<Binding>,
    pub set: u64,
}

// Policies stand by their nodes' names, in bytes.
impl Ordered for AllowPolicy {
    ghost use Rattle.std.specs.Cmp.Lexicographic.{on_texts, slice_cmp};
    ghost use Rattle.std.specs.Ordering.{nat_cmp};
    ghost use Rattle.iam_names.specs.Node.{node_id_text};
    ghost use Rattle.iam_types.specs.declared.allow.AllowPolicy.{AllowPolicy};

    ghost order = { λ a b. slice_cmp nat_cmp (node_id_text a.node) (node_id_text b.node) };

    ghost total = { on_texts (λ (policy : AllowPolicy). node_id_text policy.node) };

    fn order(&self, other: &AllowPolicy) -> Ordering {
        self.node.name_order(other.node)
    }
}

pub fn copy_condition(condition: &Condition) -> Result<Condition, OutOfMemory>
    ensures { IfOk result (λ copy. copy ≡ condition.now) }
{
    match condition.clone() {
        Ok(copy) => Ok(copy),
        Err(_) => Err(OutOfMemory),
    }
}

pub fn copy_binding(binding: &Binding) -> Result<Binding, OutOfMemory>
    ensures { IfOk result (λ copy. copy ≡ binding.now) }
{
    match binding.clone() {
        Ok(copy) => Ok(copy),
        Err(_) => Err(OutOfMemory),
    }
}

pub fn copy_policy(policy: &AllowPolicy) -> Result<AllowPolicy, OutOfMemory>
    ensures { IfOk result (λ copy. copy ≡ policy.now) }
{
    match policy.clone() {
        Ok(copy) => Ok(copy),
        Err(_) => Err(OutOfMemory),
    }
}
