// Values beside one another: equal ones, those in order, and those in a list.
ghost use Rattle.std.specs.Prelude.{◌≡◌, length};
ghost use Rattle.std.specs.declared.cmp.Ordering.{Ordering};
ghost use Rattle.cel_meaning.specs.Values.{all_in, is_below, is_in, is_less, is_same, same_items, same_value};

use cel_value::Value;
use std::cmp::Ordering;

// Items of a list are no lists, so lists are no items.
fn is_same(left: &Value, right: &Value) -> bool
    ensures { result ≡ is_same left.now right.now }
{
    match (left, right) {
        (Value::Bool(a), Value::Bool(b)) => *a == *b,
        (Value::Int(m), Value::Int(n)) => *m == *n,
        (Value::Str(s), Value::Str(t)) => s.as_str() == t.as_str(),
        (Value::Time(s), Value::Time(t)) => *s == *t,
        (Value::Length(d), Value::Length(f)) => *d == *f,
        _ => false,
    }
}

fn same_items(left: &[Value], right: &[Value]) -> bool
    ensures { result ≡ same_items left.now right.now }
{
    let mut items = left;
    let mut others = right;
    'item: while let [item, rest @ ..] = items {
        let [other, more @ ..] = others else {
            return false;
        };
        if !is_same(item, other) {
            return false;
        }
        items = rest;
        others = more;
    }
    others.is_empty()
}

/// Whether two values of one kind are equal.
pub fn same_value(left: &Value, right: &Value) -> bool
    ensures { result ≡ same_value left.now right.now }
{
    match (left, right) {
        (Value::Many(left), Value::Many(right)) => same_items(left.as_slice(), right.as_slice()),
        _ => is_same(left, right),
    }
}

fn is_less(order: Ordering) -> bool
    ensures { result ≡ is_less order }
{
    match order {
        Ordering::Less => true,
        Ordering::Equal => false,
        Ordering::Greater => false,
    }
}

/// Whether a value comes before another of its kind. Texts are compared by their bytes.
pub fn is_below(left: &Value, right: &Value) -> bool
    ensures { result ≡ is_below left.now right.now }
{
    match (left, right) {
        (Value::Int(m), Value::Int(n)) => *m < *n,
        (Value::Str(s), Value::Str(t)) => is_less(s.cmp(t)),
        (Value::Time(s), Value::Time(t)) => *s < *t,
        (Value::Length(d), Value::Length(f)) => *d < *f,
        _ => false,
    }
}

/// Whether a value is an item of a list.
pub fn is_in(value: &Value, items: &[Value]) -> bool
    ensures { result ≡ is_in value.now items.now }
{
    items.iter().any(|item| is_same(value, item))
}

/// Whether each item of a list is in another.
pub fn all_in(items: &[Value], others: &[Value]) -> bool
    ensures { result ≡ all_in items.now others.now }
{
    items.iter().all(|item| is_in(item, others))
}
