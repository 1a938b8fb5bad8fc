// What conditions of bindings come to: `cel_lines` evaluates those of allow policies alone.
use crate::trees::tree_of;
use cel_meaning::evaluate;
use cel_tree::Expr;
use cel_types::{Place, Typed, check};
use cel_value::{Context, Outcome, Value};
use iam_text::{OutOfMemory, let_go};
use std::alloc::Global;

fn name_of(outcome: &Outcome) -> &'static str {
    match outcome {
        Outcome::Given(Value::Bool(true)) => "True",
        Outcome::Given(Value::Bool(false)) => "False",
        Outcome::Given(_) => "no truth",
        Outcome::Stopped(_) => "a fault",
    }
}

// Values of many kinds are let go before anything can be refused.
fn evaluated(alloc: Global, facts: &Context, typed: Typed) -> Result<&'static str, OutOfMemory> {
    let outcome = evaluate(alloc, &typed, facts);
    let_go(typed);
    let outcome = outcome?;
    let name = name_of(&outcome);
    let_go(outcome);
    Ok(name)
}

fn checked(alloc: Global, facts: &Context, tree: Expr) -> Result<&'static str, OutOfMemory> {
    match check(tree, Place::Binding) {
        Ok(typed) => evaluated(alloc, facts, typed),
        Err(_) => Ok("no condition"),
    }
}

/// What a condition of a binding comes to in the context.
pub fn principal_line(alloc: Global, facts: &Context, text: &str) -> Result<String, OutOfMemory> {
    let name = match tree_of(alloc, text)? {
        Some(tree) => checked(alloc, facts, tree)?,
        None => "?",
    };
    Ok(String::from_str(alloc, name)?)
}
