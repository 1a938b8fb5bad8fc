// Operators, applied to values.
ghost use Rattle.std.specs.Prelude.{◌≡◌};
ghost use Rattle.cel_types.specs.Means.{value_is};
ghost use Rattle.cel_value.specs.declared.value.Outcome.{Outcome};
ghost use Rattle.cel_value.specs.declared.value.Outcome.TheVariants.{Given};
ghost use Rattle.cel_value.specs.declared.value.Value.{out-Value};
ghost use Rattle.cel_meaning.specs.Apply.{choice_layer, difference_layer, member_layer, negation, of_one, of_two, opposite, product_layer, quotient_layer, remainder_layer, sum_layer, two_values};
ghost use Rattle.cel_meaning.specs.Results.{Gives, decisive, junction, outcome, picked, side_of};

use crate::lists::{is_below, is_in, same_value};
use crate::stop::{NO_VALUE, Stop};
use crate::texts::joined;
use crate::{numbers, time};
use cel_tree::Op;
use cel_value::{EvalFault, Value};
use iam_text::let_go;
use std::alloc::Global;

/// What a side of `&&` or `||` says of the whole.
#[derive(Clone, Copy)]
pub enum Side {
    Decides,
    Passes,
    Stops(EvalFault),
}

/// The truth of a side by which `&&` and `||` are decided, whatever the other side comes to. Both sides of the others are evaluated.
pub fn decisive(op: Op) -> Option<bool>
    ensures { result ≡ decisive op }
{
    match op {
        Op::Or => Some(true),
        Op::And => Some(false),
        Op::Lt
        | Op::Le
        | Op::Gt
        | Op::Ge
        | Op::Eq
        | Op::Ne
        | Op::In
        | Op::Add
        | Op::Sub
        | Op::Mul
        | Op::Div
        | Op::Rem => None,
    }
}

fn value_is(truth: bool, side: &Value) -> bool
    ensures { result ≡ value_is truth (out-Value side.now) }
{
    match side {
        Value::Bool(found) => *found == truth,
        _ => false,
    }
}

/// What a side with this value says of the whole.
pub fn side_of(decisive: bool, side: Value) -> Side
    ensures { result ≡ side_of decisive (Given side) }
{
    let decides = value_is(decisive, &side);
    let_go(side);
    if decides { Side::Decides } else { Side::Passes }
}

/// What two sides come to: where either decides, its truth, else the first fault, else the other truth.
pub fn junction(decisive: bool, left: Side, right: Side) -> Result<Value, EvalFault>
    ensures { outcome result ≡ junction decisive left right }
{
    match (left, right) {
        (Side::Decides, _) => Ok(Value::Bool(decisive)),
        (Side::Passes, Side::Decides) => Ok(Value::Bool(decisive)),
        (Side::Passes, Side::Passes) => Ok(Value::Bool(!decisive)),
        (Side::Passes, Side::Stops(fault)) => Err(fault),
        (Side::Stops(_), Side::Decides) => Ok(Value::Bool(decisive)),
        (Side::Stops(fault), Side::Passes) => Err(fault),
        (Side::Stops(fault), Side::Stops(_)) => Err(fault),
    }
}

fn truth_of(value: &Value) -> Result<bool, EvalFault>
    ensures { (x y : Outcome) → choice_layer (out-Value value.now) x y ≡ picked result x y }
{
    match value {
        Value::Bool(truth) => Ok(*truth),
        _ => Err(NO_VALUE),
    }
}

/// Which of two branches is evaluated.
pub fn decision(condition: Value) -> Result<bool, EvalFault>
    ensures { (x y : Outcome) → choice_layer (out-Value condition) x y ≡ picked result x y }
{
    let truth = truth_of(&condition);
    let_go(condition);
    truth
}

pub fn negation(values: &[Value]) -> Result<Value, EvalFault>
    ensures { outcome result ≡ of_one negation values.now }
{
    match values {
        [Value::Bool(truth)] => Ok(Value::Bool(!*truth)),
        _ => Err(NO_VALUE),
    }
}

pub fn opposite(values: &[Value]) -> Result<Value, EvalFault>
    ensures { outcome result ≡ of_one opposite values.now }
{
    match values {
        [Value::Int(n)] => numbers::negative(*n),
        _ => Err(NO_VALUE),
    }
}

/// What takes no memory.
pub fn done(found: Result<Value, EvalFault>) -> Result<Value, Stop>
    ensures { Gives (outcome found) result }
{
    match found {
        Ok(value) => Ok(value),
        Err(fault) => Err(Stop::Fault(fault)),
    }
}

fn sum(alloc: Global, left: &Value, right: &Value) -> Result<Value, Stop>
    ensures { Gives (sum_layer (out-Value left.now) (out-Value right.now)) result }
{
    match (left, right) {
        (Value::Int(m), Value::Int(n)) => done(numbers::sum(*m, *n)),
        (Value::Str(s), Value::Str(t)) => {
            let text = joined(alloc, s.as_str(), t.as_str())?;
            Ok(Value::Str(text))
        }
        (Value::Time(t), Value::Length(d)) => done(time::later(*t, *d)),
        (Value::Length(d), Value::Time(t)) => done(time::later(*d, *t)),
        (Value::Length(d), Value::Length(f)) => done(time::longer(*d, *f)),
        _ => Err(Stop::Fault(NO_VALUE)),
    }
}

fn difference(left: &Value, right: &Value) -> Result<Value, EvalFault>
    ensures { outcome result ≡ difference_layer (out-Value left.now) (out-Value right.now) }
{
    match (left, right) {
        (Value::Int(m), Value::Int(n)) => numbers::difference(*m, *n),
        (Value::Time(t), Value::Length(d)) => time::earlier(*t, *d),
        (Value::Time(s), Value::Time(t)) => time::between(*t, *s),
        (Value::Length(d), Value::Length(f)) => time::between(*f, *d),
        _ => Err(NO_VALUE),
    }
}

fn product(left: &Value, right: &Value) -> Result<Value, EvalFault>
    ensures { outcome result ≡ product_layer (out-Value left.now) (out-Value right.now) }
{
    match (left, right) {
        (Value::Int(m), Value::Int(n)) => numbers::product(*m, *n),
        _ => Err(NO_VALUE),
    }
}

fn quotient(left: &Value, right: &Value) -> Result<Value, EvalFault>
    ensures { outcome result ≡ quotient_layer (out-Value left.now) (out-Value right.now) }
{
    match (left, right) {
        (Value::Int(m), Value::Int(n)) => numbers::quotient(*m, *n),
        _ => Err(NO_VALUE),
    }
}

fn remainder(left: &Value, right: &Value) -> Result<Value, EvalFault>
    ensures { outcome result ≡ remainder_layer (out-Value left.now) (out-Value right.now) }
{
    match (left, right) {
        (Value::Int(m), Value::Int(n)) => numbers::remainder(*m, *n),
        _ => Err(NO_VALUE),
    }
}

fn membership(item: &Value, list: &Value) -> Result<Value, EvalFault>
    ensures { outcome result ≡ member_layer item.now (out-Value list.now) }
{
    match list {
        Value::Many(items) => Ok(Value::Bool(is_in(item, items.as_slice()))),
        _ => Err(NO_VALUE),
    }
}

fn two_values(alloc: Global, op: Op, left: &Value, right: &Value) -> Result<Value, Stop>
    ensures { Gives (two_values op left.now right.now) result }
{
    match op {
        Op::Or => Err(Stop::Fault(NO_VALUE)),
        Op::And => Err(Stop::Fault(NO_VALUE)),
        Op::Lt => Ok(Value::Bool(is_below(left, right))),
        Op::Le => Ok(Value::Bool(!is_below(right, left))),
        Op::Gt => Ok(Value::Bool(is_below(right, left))),
        Op::Ge => Ok(Value::Bool(!is_below(left, right))),
        Op::Eq => Ok(Value::Bool(same_value(left, right))),
        Op::Ne => Ok(Value::Bool(!same_value(left, right))),
        Op::In => done(membership(left, right)),
        Op::Add => sum(alloc, left, right),
        Op::Sub => done(difference(left, right)),
        Op::Mul => done(product(left, right)),
        Op::Div => done(quotient(left, right)),
        Op::Rem => done(remainder(left, right)),
    }
}

/// What an operator of two sides comes to, both of which are evaluated.
pub fn of_two(alloc: Global, op: Op, values: &[Value]) -> Result<Value, Stop>
    ensures { Gives (of_two op values.now) result }
{
    match values {
        [left, right] => two_values(alloc, op, left, right),
        _ => Err(Stop::Fault(NO_VALUE)),
    }
}
