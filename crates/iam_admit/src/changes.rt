// The facts that an accepted command changes.
ghost use Rattle.std.specs.Prelude.{◌≡◌, ◌+◌, ◌<◌, ◌≤◌, ◌^◌, IfOk};
ghost use Rattle.iam_model.specs.Allow as allow_spec;
ghost use Rattle.iam_model.specs.Creation as creation_spec;
ghost use Rattle.iam_model.specs.NodeChanges as node_spec;
ghost use Rattle.iam_model.specs.Shared as shared_spec;

use iam_names::NodeId;
use iam_readings::policy_after;
use iam_text::{List, OutOfMemory};
use iam_types::{Binding, Fact, FactChange, Node, Org, Tables, copy_org};
use std::alloc::Global;

fn changed(org: &Org) -> Result<Org, OutOfMemory>
    requires { org.now.changes + 1 < 2 ^ 64 }
    ensures { IfOk result (λ changed. changed ≡ shared_spec.changed org.now) }
{
    let mut changed = copy_org(org)?;
    changed.changes += 1;
    Ok(changed)
}

fn numbered(org: &Org) -> Result<Org, OutOfMemory>
    requires next { org.now.next ≤ org.now.changes }
    requires changes { org.now.changes + 1 < 2 ^ 64 }
    ensures { IfOk result (λ numbered. numbered ≡ creation_spec.numbered org.now) }
{
    let mut numbered = copy_org(org)?;
    numbered.next += 1;
    numbered.changes += 1;
    Ok(numbered)
}

/// A creation puts the node, and the organisation with one more number and one more change.
pub fn creation_changes(
    alloc: Global,
    tables: &Tables,
    node: Node,
) -> Result<List<FactChange>, OutOfMemory>
    requires next { tables.now.org.next ≤ tables.now.org.changes }
    requires changes { tables.now.org.changes + 1 < 2 ^ 64 }
    ensures { IfOk result (λ changes. changes ≡ creation_spec.added_changes tables.now node) }
{
    let org = numbered(&tables.org)?;
    let mut changes = List::new(alloc);
    changes.push(FactChange::Put(Fact::Node(node)))?;
    changes.push(FactChange::Put(Fact::Org(org)))?;
    Ok(changes)
}

/// A change of a node puts the node, and the organisation with one more change.
pub fn replaced_changes(
    alloc: Global,
    tables: &Tables,
    node: Node,
) -> Result<List<FactChange>, OutOfMemory>
    requires { tables.now.org.changes + 1 < 2 ^ 64 }
    ensures { IfOk result (λ changes. changes ≡ node_spec.replaced_changes tables.now node) }
{
    let org = changed(&tables.org)?;
    let mut changes = List::new(alloc);
    changes.push(FactChange::Put(Fact::Node(node)))?;
    changes.push(FactChange::Put(Fact::Org(org)))?;
    Ok(changes)
}

/// The setting of a policy puts the policy, and the organisation with one more change.
pub fn set_changes(
    alloc: Global,
    tables: &Tables,
    node: NodeId,
    bindings: &List<Binding>,
) -> Result<List<FactChange>, OutOfMemory>
    requires { tables.now.org.changes + 1 < 2 ^ 64 }
    ensures { IfOk result (λ changes. changes ≡ allow_spec.set_changes tables.now node bindings.now) }
{
    let policy = policy_after(alloc, tables, node, bindings)?;
    let org = changed(&tables.org)?;
    let mut changes = List::new(alloc);
    changes.push(FactChange::Put(Fact::Allow(policy)))?;
    changes.push(FactChange::Put(Fact::Org(org)))?;
    Ok(changes)
}
