// The tables of given facts.
ghost use Rattle.std.specs.Prelude.{◌≡◌, ◌↔◌, ◌+◌, ℕ, [], ◌∷◌, List, All, Contains, IfOk, IfSome, IfNone, IsErrOf, IsTrue, OnOk, length};
ghost use Rattle.std.specs.Option.{option_copied};
ghost use Rattle.iam_types.specs.declared.fact.Fact.{Fact};
ghost use Rattle.iam_text.specs.Put.{placed};
ghost use Rattle.iam_model.specs.Broken.{GiveTables, HasOneOrg, IsFirstBroken, IsOnlyOrg};
ghost use Rattle.iam_model.specs.Consistent.{Consistent};
ghost use Rattle.iam_model.specs.Facts as spec;
ghost use Rattle.iam_model.specs.Facts.{AreApart, fact_order, facts_of};
ghost use Rattle.iam_model.specs.Formed.{IsFact};
ghost use Rattle.iam_model.specs.Part.{rows_in, table_of};
ghost use Rattle.iam_model.specs.Parts.{allow_part, node_part, org_part};
ghost use Rattle.iam_types.specs.declared.tables.Tables.{Tables};
ghost use Rattle.iam_tables.specs.Back.{GivesBack};

use crate::consistent::broken_rule;
use crate::stop::TablesStop;
use iam_model::{
    apart_facts_are_counted, broken_facts_give_none, consistent_tables_are_given,
    given_tables_are_consistent, nothing_else_is_given, tables_have_placed_facts,
};
use iam_text::{List, OutOfMemory, put_row};
use iam_types::{AllowPolicy, Fact, Node, Org, Tables, copy_node, copy_org, copy_policy};
use std::alloc::Global;

fn org_of(fact: &Fact) -> Option<&Org>
    ensures { option_copied result ≡ org_part.out fact.now }
{
    match fact {
        Fact::Org(org) => Some(org),
        Fact::Node(_)
        | Fact::Key(_)
        | Fact::Value(_)
        | Fact::Tag(_)
        | Fact::Group(_)
        | Fact::Edge(_)
        | Fact::Role(_)
        | Fact::Allow(_)
        | Fact::Deny(_)
        | Fact::Boundary(_)
        | Fact::Bound(_) => None,
    }
}

// The first organisation, and the facts behind it.
fn first_org(facts: &[Fact]) -> Option<(&Org, &[Fact])>
    ensures first { IfSome result (λ found. rows_in org_part facts.now ≡ found.0.now ∷ rows_in org_part found.1.now) }
    ensures none { IfNone result (rows_in org_part facts.now ≡ []) }
{
    for (at, fact) in facts.iter().enumerate() {
        if let Some(org) = org_of(fact) {
            return Some((org, facts.split_at(at + 1).1));
        }
    }
    None
}

// The organisation, where there is exactly one.
#[tactic(auto, using(crate::proofs::Parts::two_not_one, crate::proofs::Parts::none_not_one))]
fn only_org(facts: &[Fact]) -> Option<&Org>
    ensures one { IfSome result (λ org. IsOnlyOrg facts.now org.now) }
    ensures other { IfNone result (¬ HasOneOrg facts.now) }
{
    match first_org(facts) {
        Some((org, others)) => match first_org(others) {
            Some(_) => None,
            None => Some(org),
        },
        None => None,
    }
}

// Puts the node of one more fact that stands before the others, if it has one.
fn put_node_of(rows: &mut List<Node>, fact: &Fact) -> Result<(), OutOfMemory>
    ensures { (others : List Fact) → rows.old ≡ table_of node_part others → OnOk result (rows.new ≡ table_of node_part (fact.now ∷ others)) }
{
    match fact {
        Fact::Node(node) => put_row(rows, copy_node(node)?),
        Fact::Org(_)
        | Fact::Key(_)
        | Fact::Value(_)
        | Fact::Tag(_)
        | Fact::Group(_)
        | Fact::Edge(_)
        | Fact::Role(_)
        | Fact::Allow(_)
        | Fact::Deny(_)
        | Fact::Boundary(_)
        | Fact::Bound(_) => Ok(()),
    }
}

// The nodes in their order. The last fact comes first, so that each node of facts in order is put in front.
fn nodes_of(alloc: Global, facts: &[Fact]) -> Result<List<Node>, OutOfMemory>
    ensures { IfOk result (λ rows. rows ≡ table_of node_part facts.now) }
{
    let mut rows = List::new(alloc);
    let mut left = facts.len();
    while left > 0 {
        left -= 1;
        put_node_of(&mut rows, &facts[left])?;
    }
    Ok(rows)
}

// Puts the policy of one more fact that stands before the others, if it has one.
fn put_policy_of(rows: &mut List<AllowPolicy>, fact: &Fact) -> Result<(), OutOfMemory>
    ensures { (others : List Fact) → rows.old ≡ table_of allow_part others → OnOk result (rows.new ≡ table_of allow_part (fact.now ∷ others)) }
{
    match fact {
        Fact::Allow(policy) => put_row(rows, copy_policy(policy)?),
        Fact::Node(_)
        | Fact::Key(_)
        | Fact::Value(_)
        | Fact::Tag(_)
        | Fact::Group(_)
        | Fact::Edge(_)
        | Fact::Role(_)
        | Fact::Org(_)
        | Fact::Deny(_)
        | Fact::Boundary(_)
        | Fact::Bound(_) => Ok(()),
    }
}

// The policies in their order, as the nodes.
fn policies_of(alloc: Global, facts: &[Fact]) -> Result<List<AllowPolicy>, OutOfMemory>
    ensures { IfOk result (λ rows. rows ≡ table_of allow_part facts.now) }
{
    let mut rows = List::new(alloc);
    let mut left = facts.len();
    while left > 0 {
        left -= 1;
        put_policy_of(&mut rows, &facts[left])?;
    }
    Ok(rows)
}

fn tables_with(
    alloc: Global,
    org: &Org,
    nodes: List<Node>,
    allows: List<AllowPolicy>,
) -> Result<Tables, OutOfMemory>
    ensures { (facts : List Fact) → All IsFact facts → nodes ≡ table_of node_part facts → allows ≡ table_of allow_part facts → IfOk result (λ tables. tables ≡ spec.tables_with org.now facts) }
{
    nothing_else_is_given();
    Ok(Tables {
        org: copy_org(org)?,
        nodes,
        keys: List::new(alloc),
        values: List::new(alloc),
        tags: List::new(alloc),
        groups: List::new(alloc),
        edges: List::new(alloc),
        roles: List::new(alloc),
        allows,
        denies: List::new(alloc),
        boundaries: List::new(alloc),
        bounds: List::new(alloc),
    })
}

// Facts in one place are put over one another, so that fewer are left in their places.
fn are_apart(facts: &[Fact], nodes: &[Node], allows: &[AllowPolicy]) -> bool
    requires { length (placed fact_order facts.now) ≡ length allows.now + (length nodes.now + 1) }
    ensures { IsTrue result ↔ AreApart facts.now }
{
    apart_facts_are_counted();
    let others = facts.len() - 1;
    nodes.len() <= others && allows.len() == others - nodes.len()
}

fn tables_of(alloc: Global, facts: &[Fact]) -> Result<Tables, TablesStop>
    requires { All IsFact facts.now }
    ensures given { IfOk result (GiveTables facts.now) }
    ensures consistent { IfOk result Consistent }
    ensures broken { (rule : ℕ) → IsErrOf result (TablesStop.Inconsistent rule) → IsFirstBroken facts.now rule }
{
    given_tables_are_consistent();
    tables_have_placed_facts();
    nothing_else_is_given();
    let Some(org) = only_org(facts) else {
        return Err(TablesStop::Inconsistent { rule: 1 });
    };
    let nodes = nodes_of(alloc, facts)?;
    let allows = policies_of(alloc, facts)?;
    if !are_apart(facts, nodes.as_slice(), allows.as_slice()) {
        return Err(TablesStop::Inconsistent { rule: 2 });
    }
    let tables = tables_with(alloc, org, nodes, allows)?;
    match broken_rule(alloc, &tables)? {
        Some(rule) => Err(TablesStop::Inconsistent { rule }),
        None => Ok(tables),
    }
}

/// The tables of well formed facts in any order, where they keep all rules.
pub fn from_facts(alloc: Global, facts: List<Fact>) -> Result<Tables, TablesStop>
    requires { All IsFact facts }
    ensures given { IfOk result (GiveTables facts) }
    ensures consistent { IfOk result Consistent }
    ensures broken { (rule : ℕ) → IsErrOf result (TablesStop.Inconsistent rule) → IsFirstBroken facts rule }
    // The facts of consistent tables give these tables back, in any order.
    ensures back { (tables : Tables) → Consistent tables → AreApart facts → ((fact : Fact) → Contains facts fact ↔ Contains (facts_of tables) fact) → GivesBack tables result }
{
    consistent_tables_are_given();
    broken_facts_give_none();
    tables_of(alloc, facts.as_slice())
}
