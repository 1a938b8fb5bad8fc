// The decision.
ghost use Rattle.std.specs.Prelude.{◌≡◌, ◌<◌, ◌^◌, ◌&&◌, All, IfOk, length, unwrap_or};
ghost use Rattle.std.specs.List.{find, list_any};
ghost use Rattle.std.specs.Option.{option_map};
ghost use Rattle.std.specs.Ordering.{is_lt, nat_cmp};
ghost use Rattle.std.specs.Cmp.Lexicographic.{slice_cmp};
ghost use Rattle.iam_model.specs.Holds as holds_spec;
ghost use Rattle.iam_law.specs.Decide as decide_spec;
ghost use Rattle.iam_law.specs.Decide.{in_turn};
ghost use Rattle.iam_law.specs.Shown.{lets_grant, shown};
ghost use Rattle.iam_judge.specs.Granting as spec;
ghost use Rattle.iam_judge.specs.Granting.{first_grant};
ghost use Rattle.iam_judge.specs.Leading.{role_before};

use crate::holds::holds;
use crate::roles::grants;
use iam_catalogue::Catalogue;
use iam_law::{firsts_are_one, grants_are_first};
use iam_names::{Caller, Member, NodeId};
use iam_readings::{bindings_at, way_up};
use iam_text::{OutOfMemory, Text};
use iam_types::{Binding, Condition, Decision, Query, Tables};
use std::alloc::Global;
use std::cmp::Ordering;

fn any_holds(tables: &Tables, members: &[Member], caller: &Caller) -> bool
    ensures { result ≡ list_any (λ member. holds_spec.holds tables.now member caller.now) members.now }
{
    members.iter().any(|member| holds(tables, member, caller))
}

// One that is given is an error, which doesn't grant.
fn condition_grants(_query: &Query, condition: &Option<Condition>) -> bool
    ensures { result ≡ lets_grant (shown _query.now condition.now) }
{
    condition.is_none()
}

fn binding_grants(tables: &Tables, catalogue: &Catalogue, query: &Query, binding: &Binding) -> bool
    ensures { result ≡ decide_spec.binding_grants tables.now query.now binding.now }
{
    grants(tables, catalogue, &binding.role, &query.permission)
        && any_holds(tables, binding.members.as_slice(), &query.caller)
        && condition_grants(query, &binding.condition)
}

fn is_before(a: &Text, b: &Text) -> bool
    ensures { result ≡ is_lt (slice_cmp nat_cmp a.now b.now) }
{
    a.cmp(b) == Ordering::Less
}

fn comes_before(
    alloc: Global,
    binding: &Binding,
    best: Option<(u32, &Binding)>,
) -> Result<bool, OutOfMemory>
    ensures { IfOk result (λ before. before ≡ role_before binding.now (option_map (λ found. (found.0, found.1.now)) best.entry)) }
{
    match best {
        None => Ok(true),
        Some((_, found)) => {
            let role = binding.role.text(alloc)?;
            let other = found.role.text(alloc)?;
            Ok(is_before(&role, &other))
        }
    }
}

// The binding grants, and leads the best so far.
fn leads(
    alloc: Global,
    tables: &Tables,
    catalogue: &Catalogue,
    query: &Query,
    binding: &Binding,
    best: Option<(u32, &Binding)>,
) -> Result<bool, OutOfMemory>
    ensures { IfOk result (λ leads. leads ≡ (decide_spec.binding_grants tables.now query.now binding.now && role_before binding.now (option_map (λ found. (found.0, found.1.now)) best.entry))) }
{
    if binding_grants(tables, catalogue, query, binding) {
        comes_before(alloc, binding, best)
    } else {
        Ok(false)
    }
}

fn place_of(best: Option<(u32, &Binding)>) -> Option<u32>
    ensures { result ≡ option_map (λ found. found.0) best.entry }
{
    match best {
        Some((place, _)) => Some(place),
        None => None,
    }
}

// The place of the first binding that grants: the one whose role's text is least in bytes, and of these the first.
fn place_in(
    alloc: Global,
    tables: &Tables,
    catalogue: &Catalogue,
    query: &Query,
    bindings: &[Binding],
) -> Result<Option<u32>, OutOfMemory>
    requires { length bindings.now < 2 ^ 32 }
    ensures { IfOk result (λ place. place ≡ option_map (λ turn. turn.0) (find (λ turn. decide_spec.binding_grants tables.now query.now turn.1) (in_turn bindings.now))) }
{
    grants_are_first();
    firsts_are_one();
    let mut best: Option<(u32, &Binding)> = None;
    let mut place = 0u32;
    for binding in bindings {
        if leads(alloc, tables, catalogue, query, binding, best)? {
            best = Some((place, binding));
        }
        place += 1;
    }
    Ok(place_of(best))
}

// The grant of the node's own policy.
#[tactic(auto, using(crate::proofs::Deciding::found_is_countable))]
fn grant_at(
    alloc: Global,
    tables: &Tables,
    catalogue: &Catalogue,
    query: &Query,
    node: NodeId,
) -> Result<Option<Decision>, OutOfMemory>
    requires { All (λ policy. length policy.bindings < 2 ^ 32) tables.now.allows }
    ensures { IfOk result (λ grant. grant ≡ spec.grant_at tables.now query.now node) }
{
    match place_in(alloc, tables, catalogue, query, bindings_at(tables, node))? {
        Some(place) => Ok(Some(Decision::Allowed { node, place })),
        None => Ok(None),
    }
}

// The first grant of these nodes.
fn decide_on(
    alloc: Global,
    tables: &Tables,
    catalogue: &Catalogue,
    query: &Query,
    nodes: &[NodeId],
) -> Result<Decision, OutOfMemory>
    requires { All (λ policy. length policy.bindings < 2 ^ 32) tables.now.allows }
    ensures { IfOk result (λ decision. decision ≡ unwrap_or (first_grant tables.now query.now nodes.now) Decision.NotGranted) }
{
    for node in nodes {
        if let Some(decision) = grant_at(alloc, tables, catalogue, query, *node)? {
            return Ok(decision);
        }
    }
    Ok(Decision::NotGranted)
}

/// The decision, by a scan of the tables for each node from the query's own up to the organisation.
pub fn decide(
    alloc: Global,
    tables: &Tables,
    catalogue: &Catalogue,
    query: &Query,
) -> Result<Decision, OutOfMemory>
    requires { All (λ policy. length policy.bindings < 2 ^ 32) tables.now.allows }
    ensures { IfOk result (λ decision. decision ≡ decide_spec.decide tables.now query.now) }
{
    let way = way_up(alloc, tables, query.node)?;
    let decision = decide_on(alloc, tables, catalogue, query, way.as_slice())?;
    Ok(decision)
}
