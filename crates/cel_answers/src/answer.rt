ghost use Rattle.std.specs.Prelude.{◌≡◌, ℕ, List, Err, IfOk, string_bytes};
ghost use Rattle.cel_syntax.specs.CelText.{CelText, Answers};
ghost use Rattle.cel_answers.specs.Names.{eval_name_of, name_of, truth_name, type_name_of};
ghost use Rattle.cel_answers.specs.declared.task.Task.TheVariants as asked;
ghost use Rattle.cel_answers.specs.Answers.{tree_line, fault_line, Answer, IsNamed, LineAnswer};
ghost use Rattle.cel_value.specs.declared.context.Context.{Context as Meant};
ghost use Rattle.cel_meaning.specs.Results.{at};
ghost use Rattle.cel_types.specs.Laws.{IsTruthOrFault};
ghost use Rattle.cel_types.specs.Means.{Means};

use crate::escapes::unescaped;
use crate::laws::one_answer_a_line;
use crate::task::Task;
use cel_meaning::evaluate;
use cel_syntax::{Expr, ReadStop, SyntaxKind, print, read};
use cel_types::{Place, TypeKind, Typed, check};
use cel_value::{Context, EvalFault, Outcome, Value};
use iam_text::{OutOfMemory, let_go};
use std::alloc::Global;

fn name(kind: SyntaxKind) -> &'static str
    ensures { result.now ≡ name_of kind }
{
    match kind {
        SyntaxKind::TooLong => "TOO_LONG",
        SyntaxKind::BadToken => "BAD_TOKEN",
        SyntaxKind::ReservedWord => "RESERVED_WORD",
        SyntaxKind::TooManyTokens => "TOO_MANY_TOKENS",
        SyntaxKind::TooDeep => "TOO_DEEP",
        SyntaxKind::NotAnExpression => "NOT_AN_EXPRESSION",
    }
}

fn type_name(kind: TypeKind) -> &'static str
    ensures { result.now ≡ type_name_of kind }
{
    match kind {
        TypeKind::UnknownName => "UNKNOWN_NAME",
        TypeKind::NotHere => "NOT_HERE",
        TypeKind::NotLiteral => "NOT_LITERAL",
        TypeKind::BadTemplate => "BAD_TEMPLATE",
        TypeKind::BadZone => "BAD_ZONE",
        TypeKind::WrongKind => "WRONG_KIND",
        TypeKind::NotBool => "NOT_BOOL",
    }
}

fn eval_name(fault: EvalFault) -> &'static str
    ensures { result.now ≡ eval_name_of fault }
{
    match fault {
        EvalFault::Overflow => "Overflow",
        EvalFault::ZeroDivisor => "ZeroDivisor",
        EvalFault::Range => "Range",
        EvalFault::BadTime => "BadTime",
        EvalFault::BadDuration => "BadDuration",
        EvalFault::UnknownTag => "UnknownTag",
    }
}

fn truth_name(truth: bool) -> &'static str
    ensures { result.now ≡ truth_name truth }
{
    if truth { "True" } else { "False" }
}

fn tree_line(alloc: Global, tree: &Expr) -> Result<String, OutOfMemory>
    ensures { IfOk result (λ line. string_bytes line ≡ tree_line tree.now) }
{
    let printed = print(alloc, tree)?;
    let mut line = String::from_str(alloc, "OK ")?;
    line.push_str(printed.as_str())?;
    Ok(line)
}

fn fault_line(alloc: Global, name: &str, offset: usize) -> Result<String, OutOfMemory>
    ensures { IfOk result (λ line. string_bytes line ≡ fault_line name.now offset) }
{
    let mut line = String::from_str(alloc, name)?;
    line.push_str(" ")?;
    let offset = offset.to_string(alloc)?;
    line.push_str(offset.as_str())?;
    Ok(line)
}

fn stop_line(alloc: Global, task: Task, stop: ReadStop) -> Result<String, OutOfMemory>
    ensures { (c : Meant) (text : List ℕ) → Answers text (Err stop) → IfOk result (λ line. Answer c task text (string_bytes line)) }
{
    match stop {
        ReadStop::Syntax(fault) => fault_line(alloc, name(fault.kind), fault.offset as usize),
        ReadStop::OutOfMemory => Err(OutOfMemory),
    }
}

// The line of a tree, which is let go.
fn read_line(alloc: Global, tree: Expr) -> Result<String, OutOfMemory>
    ensures { IfOk result (λ line. string_bytes line ≡ tree_line tree) }
{
    let line = tree_line(alloc, &tree);
    let_go(tree);
    line
}

fn typed_line(alloc: Global, typed: Typed) -> Result<String, OutOfMemory>
    ensures { IfOk result (λ line. string_bytes line ≡ tree_line typed.expr) }
{
    let line = tree_line(alloc, typed.expr());
    let_go(typed);
    line
}

// The line of a tree that is to be a condition in a place.
fn condition_line(alloc: Global, place: Place, tree: Expr) -> Result<String, OutOfMemory>
    ensures { (c : Meant) (text : List ℕ) → CelText text tree → IfOk result (λ line. Answer c (asked.Check place) text (string_bytes line)) }
{
    match check(tree, place) {
        Ok(typed) => typed_line(alloc, typed),
        Err(fault) => fault_line(alloc, type_name(fault.kind), fault.offset as usize),
    }
}

fn outcome_name(outcome: &Outcome) -> &'static str
    requires { IsTruthOrFault outcome.now }
    ensures { IsNamed outcome.now result.now }
{
    match outcome {
        Outcome::Given(Value::Bool(truth)) => truth_name(*truth),
        Outcome::Given(_) => unreachable!(),
        Outcome::Stopped(fault) => eval_name(*fault),
    }
}

// What a condition comes to, which is let go.
fn evaluated(alloc: Global, facts: &Context, typed: Typed) -> Result<Outcome, OutOfMemory>
    ensures meaning { IfOk result (Means (at facts.now) typed.expr) }
    ensures truth { IfOk result IsTruthOrFault }
{
    let outcome = evaluate(alloc, &typed, facts);
    let_go(typed);
    outcome
}

fn outcome_line(alloc: Global, outcome: Outcome) -> Result<String, OutOfMemory>
    requires { IsTruthOrFault outcome }
    ensures { IfOk result (λ line. IsNamed outcome (string_bytes line)) }
{
    let name = outcome_name(&outcome);
    let_go(outcome);
    Ok(String::from_str(alloc, name)?)
}

// The line of a tree that is to be a condition of an allow policy, and is evaluated.
fn value_line(alloc: Global, facts: &Context, tree: Expr) -> Result<String, OutOfMemory>
    ensures { (text : List ℕ) → CelText text tree → IfOk result (λ line. Answer facts.now asked.Value text (string_bytes line)) }
{
    match check(tree, Place::Allow) {
        Ok(typed) => {
            let outcome = evaluated(alloc, facts, typed)?;
            outcome_line(alloc, outcome)
        }
        Err(fault) => fault_line(alloc, type_name(fault.kind), fault.offset as usize),
    }
}

/// The answer to a text, of which this is asked: `OK ` and its tree, printed, or what it comes to, or its fault.
pub fn text_answer(
    alloc: Global,
    task: Task,
    facts: &Context,
    text: &str,
) -> Result<String, OutOfMemory>
    ensures { IfOk result (λ line. Answer facts.now task text.now (string_bytes line)) }
{
    let tree = match read(alloc, text) {
        Ok(tree) => tree,
        Err(stop) => return stop_line(alloc, task, stop),
    };
    match task {
        Task::Read => read_line(alloc, tree),
        Task::Check(place) => condition_line(alloc, place, tree),
        Task::Value => value_line(alloc, facts, tree),
    }
}

/// The answer to a line, of whose text this is asked, in the context.
pub fn line_answer(
    alloc: Global,
    task: Task,
    facts: &Context,
    line: &str,
) -> Result<String, OutOfMemory>
    ensures answer { IfOk result (λ answer. LineAnswer facts.now task line.now (string_bytes answer)) }
    // There is no other answer.
    ensures only { IfOk result (λ answer. (other : List ℕ) → LineAnswer facts.now task line.now other → string_bytes answer ≡ other) }
{
    one_answer_a_line();
    let bytes = unescaped(alloc, line.as_bytes())?;
    match String::from_utf8(bytes) {
        Ok(text) => text_answer(alloc, task, facts, text.as_str()),
        Err(error) => fault_line(alloc, "NOT_UTF8", error.utf8_error().valid_up_to()),
    }
}
