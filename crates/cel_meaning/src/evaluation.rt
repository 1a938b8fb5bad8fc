ghost use Rattle.std.specs.Prelude.{◌≡◌, [], ◌∷◌, map, IfOk};
ghost use Rattle.cel_tree.specs.declared.tree.Expr.{out-Expr};
ghost use Rattle.cel_types.specs.Heads.{head_of};
ghost use Rattle.cel_types.specs.Laws.{IsTruthOrFault};
ghost use Rattle.cel_types.specs.Means.{Means};
ghost use Rattle.cel_meaning.specs.OutcomeOf.{all_values, headed, outcome_of};
ghost use Rattle.cel_meaning.specs.Results.{Gathered, Gathers, Gives, at, behind, junction, side_of};

use crate::apply::apply;
use crate::head::head_of;
use crate::operators::{Side, decision, decisive, done, junction, side_of};
use crate::stop::{NO_VALUE, Stop};
use cel_tree::Expr;
use cel_types::{Typed, conditions_come_to_truths, is_whole};
use cel_value::{Facts, Outcome, Value};
use iam_text::{List, OutOfMemory};
use std::alloc::Global;

/// What a condition comes to in the context that the facts stand for.
pub fn evaluate<F: Facts>(alloc: Global, typed: &Typed, facts: &F) -> Result<Outcome, OutOfMemory>
    ensures value { IfOk result (λ o. o ≡ outcome_of (at (F.context facts.now)) typed.now.expr) }
    ensures meaning { IfOk result (Means (at (F.context facts.now)) typed.now.expr) }
    ensures truth { IfOk result IsTruthOrFault }
{
    conditions_come_to_truths();
    outcome(alloc, typed.expr(), facts)
}

fn outcome<F: Facts>(alloc: Global, expr: &Expr, facts: &F) -> Result<Outcome, OutOfMemory>
    ensures { IfOk result (λ o. o ≡ outcome_of (at (F.context facts.now)) expr.now) }
{
    match value(alloc, expr, facts) {
        Ok(value) => Ok(Outcome::Given(value)),
        Err(Stop::Fault(fault)) => Ok(Outcome::Stopped(fault)),
        Err(Stop::OutOfMemory) => Err(OutOfMemory),
    }
}

// A node all of whose parts are evaluated, to these values or a stop. No condition has one without a head.
fn headed<F: Facts>(
    alloc: Global,
    expr: &Expr,
    gathered: Result<List<Value>, Stop>,
    facts: &F,
) -> Result<Value, Stop>
    ensures { (all : Gathered) → Gathers all gathered → Gives (headed (at (F.context facts.now)) (head_of (out-Expr expr.now)) all) result }
{
    match gathered {
        Ok(values) => match head_of(expr) {
            Some(head) => apply(alloc, head, values, facts),
            None => Err(Stop::Fault(NO_VALUE)),
        },
        Err(stop) => Err(stop),
    }
}

#[cycle(evaluation)]
fn value<F: Facts>(alloc: Global, expr: &Expr, facts: &F) -> Result<Value, Stop>
    ensures { Gives (outcome_of (at (F.context facts.now)) expr.now) result }
{
    match expr {
        Expr::Bool(..) | Expr::Int(..) | Expr::Str(..) | Expr::Name(..) | Expr::Select(..) => {
            headed(alloc, expr, Ok(List::new(alloc)), facts)
        }
        Expr::Call(_, _, items) | Expr::Many(_, items) => {
            let found = values(alloc, items.as_slice(), List::new(alloc), facts);
            headed(alloc, expr, found, facts)
        }
        Expr::Method(_, base, name, arguments) => {
            let base = base.get();
            if is_whole(base, name.as_str()) {
                return headed(alloc, expr, Ok(List::new(alloc)), facts);
            }
            let first = with_value(alloc, base, List::new(alloc), facts)?;
            let found = values(alloc, arguments.as_slice(), first, facts);
            headed(alloc, expr, found, facts)
        }
        Expr::Not(_, operand) | Expr::Neg(_, operand) => {
            let found = with_value(alloc, operand.get(), List::new(alloc), facts);
            headed(alloc, expr, found, facts)
        }
        Expr::Two(_, op, left, right) => match decisive(*op) {
            Some(truth) => {
                let left = side(alloc, left.get(), truth, facts)?;
                either(alloc, right.get(), truth, left, facts)
            }
            None => {
                let first = with_value(alloc, left.get(), List::new(alloc), facts)?;
                let found = with_value(alloc, right.get(), first, facts);
                headed(alloc, expr, found, facts)
            }
        },
        Expr::Pick(_, condition, picked, other) => {
            let condition = value(alloc, condition.get(), facts)?;
            if decision(condition)? {
                value(alloc, picked.get(), facts)
            } else {
                value(alloc, other.get(), facts)
            }
        }
    }
}

// The value of a node, behind others.
#[cycle(evaluation)]
fn with_value<F: Facts>(
    alloc: Global,
    expr: &Expr,
    found: List<Value>,
    facts: &F,
) -> Result<List<Value>, Stop>
    ensures { Gathers (behind found (all_values (outcome_of (at (F.context facts.now)) expr.now ∷ []))) result }
{
    let mut found = found;
    let item = value(alloc, expr, facts)?;
    found.push(item)?;
    Ok(found)
}

// The values of some nodes, from left to right, behind others.
#[cycle(evaluation)]
fn values<F: Facts>(
    alloc: Global,
    exprs: &[Expr],
    found: List<Value>,
    facts: &F,
) -> Result<List<Value>, Stop>
    ensures { Gathers (behind found (all_values (map (outcome_of (at (F.context facts.now))) exprs.now))) result }
{
    let mut found = found;
    for expr in exprs {
        let item = value(alloc, expr, facts)?;
        found.push(item)?;
    }
    Ok(found)
}

// What a side of `&&` or `||` says of the whole.
#[cycle(evaluation)]
fn side<F: Facts>(
    alloc: Global,
    expr: &Expr,
    decisive: bool,
    facts: &F,
) -> Result<Side, OutOfMemory>
    ensures { IfOk result (λ side. side ≡ side_of decisive (outcome_of (at (F.context facts.now)) expr.now)) }
{
    match value(alloc, expr, facts) {
        Ok(found) => Ok(side_of(decisive, found)),
        Err(Stop::Fault(fault)) => Ok(Side::Stops(fault)),
        Err(Stop::OutOfMemory) => Err(OutOfMemory),
    }
}

// `&&` or `||`, behind its left side. The right side isn't asked where the left one decides.
#[cycle(evaluation)]
fn either<F: Facts>(
    alloc: Global,
    right: &Expr,
    decisive: bool,
    left: Side,
    facts: &F,
) -> Result<Value, Stop>
    ensures { Gives (junction decisive left (side_of decisive (outcome_of (at (F.context facts.now)) right.now))) result }
{
    if let Side::Decides = left {
        return Ok(Value::Bool(decisive));
    }
    let right = side(alloc, right, decisive, facts)?;
    done(junction(decisive, left, right))
}
