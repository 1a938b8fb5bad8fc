// The reading of a node's policy.
ghost use Rattle.std.specs.Prelude.{◌≡◌, IfOk, IsTrue, codes};
ghost use Rattle.iam_model.specs.Nodes.{exists};
ghost use Rattle.iam_law.specs.Asked.{permission_at};
ghost use Rattle.iam_answer.specs.Answer.{may_not_get, policy_answer, policy_shown};

use iam_judge::{Index, forbidden};
use iam_names::{Caller, NodeId, NodeKind};
use iam_readings::{is_version, policy_of};
use iam_text::{List, Moment, OutOfMemory};
use iam_types::{Answer, Binding, Refusal, Tables, copy_binding};
use std::alloc::Global;

fn get_text(kind: NodeKind) -> &'static str
    ensures { result.now ≡ permission_at kind (codes "getIamPolicy") }
{
    match kind {
        NodeKind::Organization => "resourcemanager.organizations.getIamPolicy",
        NodeKind::Folder => "resourcemanager.folders.getIamPolicy",
        NodeKind::Project => "resourcemanager.projects.getIamPolicy",
    }
}

// The refusal of a caller who may not read the policy.
fn may_not_get(
    alloc: Global,
    index: &Index,
    node: NodeId,
    caller: &Caller,
    moment: Moment,
) -> Result<Option<Refusal>, OutOfMemory>
    requires { IsTrue (exists index.now node) }
    ensures { IfOk result (λ refusal. refusal ≡ may_not_get index.now node caller.now moment) }
{
    forbidden(alloc, index, caller, moment, get_text(node.kind), node)
}

// Copies of the bindings.
fn copies(alloc: Global, bindings: &[Binding]) -> Result<List<Binding>, OutOfMemory>
    ensures { IfOk result (λ copies. copies ≡ bindings.now) }
{
    let mut copies = List::new(alloc);
    for binding in bindings {
        copies.push(copy_binding(binding)?)?;
    }
    Ok(copies)
}

/// The policy of a node as it is shown.
pub fn policy_shown(alloc: Global, tables: &Tables, node: NodeId) -> Result<Answer, OutOfMemory>
    ensures { IfOk result (λ answer. answer ≡ policy_shown tables.now node) }
{
    match policy_of(tables, node) {
        Some(policy) => Ok(Answer::Policy {
            bindings: copies(alloc, policy.bindings.as_slice())?,
            set: policy.set,
            version: 1,
        }),
        None => Ok(Answer::Policy {
            bindings: List::new(alloc),
            set: 0,
            version: 1,
        }),
    }
}

/// What the reading of a node's policy comes to.
pub fn policy(
    alloc: Global,
    index: &Index,
    node: NodeId,
    version: u64,
    caller: &Caller,
    moment: Moment,
) -> Result<Answer, OutOfMemory>
    requires { IsTrue (exists index.now node) }
    ensures { IfOk result (λ answer. answer ≡ policy_answer index.now node version caller.now moment) }
{
    if let Some(refusal) = may_not_get(alloc, index, node, caller, moment)? {
        return Ok(Answer::Refused(refusal));
    }
    if !is_version(version) {
        return Ok(Answer::Refused(Refusal::Version { given: version }));
    }
    policy_shown(alloc, index.tables(), node)
}
