// The facts of the tables.
ghost use Rattle.std.specs.Prelude.{◌≡◌, ◌++◌, IfOk, OnOk, map};
ghost use Rattle.iam_types.specs.declared.fact.Fact.TheVariants as fact;
ghost use Rattle.iam_model.specs.Consistent.{Consistent};
ghost use Rattle.iam_model.specs.Facts as spec;

use iam_model::facts_are_few;
use iam_text::{List, OutOfMemory};
use iam_types::{AllowPolicy, Fact, Node, Tables, copy_node, copy_org, copy_policy};
use std::alloc::Global;

fn push_policies(facts: &mut List<Fact>, policies: &[AllowPolicy]) -> Result<(), OutOfMemory>
    ensures { OnOk result (facts.new ≡ facts.old ++ map (λ policy. fact.Allow policy) policies.now) }
{
    for policy in policies {
        facts.push(Fact::Allow(copy_policy(policy)?))?;
    }
    Ok(())
}

fn push_nodes(facts: &mut List<Fact>, nodes: &[Node]) -> Result<(), OutOfMemory>
    ensures { OnOk result (facts.new ≡ facts.old ++ map (λ node. fact.Node node) nodes.now) }
{
    for node in nodes {
        facts.push(Fact::Node(copy_node(node)?))?;
    }
    Ok(())
}

/// The facts, one row each, in the order of rows.
pub fn facts_of(alloc: Global, tables: &Tables) -> Result<List<Fact>, OutOfMemory>
    requires { Consistent tables.now }
    ensures { IfOk result (λ facts. facts ≡ spec.facts_of tables.now) }
{
    facts_are_few();
    let mut facts = List::new(alloc);
    push_policies(&mut facts, tables.allows.as_slice())?;
    push_nodes(&mut facts, tables.nodes.as_slice())?;
    facts.push(Fact::Org(copy_org(&tables.org)?))?;
    Ok(facts)
}
