// The table of kinds: which kind a node has whose parts have given kinds.
ghost use Rattle.std.specs.Prelude.{◌≡◌};
ghost use Rattle.cel_types.specs.Kinds.{is_kind, attribute_kind};
ghost use Rattle.cel_types.specs.Rows.{from_one, look_up, from_two, equal_kind, operator_kind, many_of, list_kind, choice_kind, part_kind, kind_from};

use crate::{Attribute, Base, Form, Kind};
use cel_tree::Op;

pub const TRUTH: Kind = Kind::One(Base::Bool);

const INT: Kind = Kind::One(Base::Int);

const STR: Kind = Kind::One(Base::Str);

const TIME: Kind = Kind::One(Base::Time);

const LENGTH: Kind = Kind::One(Base::Length);

const STRS: Kind = Kind::Many(Base::Str);

static SUMS: [(Kind, Kind, Kind); 5] = [
    (INT, INT, INT),
    (STR, STR, STR),
    (TIME, LENGTH, TIME),
    (LENGTH, TIME, TIME),
    (LENGTH, LENGTH, LENGTH),
];

static DIFFERENCES: [(Kind, Kind, Kind); 4] = [
    (INT, INT, INT),
    (TIME, LENGTH, TIME),
    (TIME, TIME, LENGTH),
    (LENGTH, LENGTH, LENGTH),
];

static ORDERS: [(Kind, Kind, Kind); 4] = [
    (INT, INT, TRUTH),
    (STR, STR, TRUTH),
    (TIME, TIME, TRUTH),
    (LENGTH, LENGTH, TRUTH),
];

static MEMBERS: [(Kind, Kind, Kind); 5] = [
    (TRUTH, Kind::Many(Base::Bool), TRUTH),
    (INT, Kind::Many(Base::Int), TRUTH),
    (STR, STRS, TRUTH),
    (TIME, Kind::Many(Base::Time), TRUTH),
    (LENGTH, Kind::Many(Base::Length), TRUTH),
];

/// The kind of a node of this form whose parts have these kinds.
pub fn kind_from(form: Form, kinds: &[Kind]) -> Option<Kind>
    ensures { result ≡ kind_from form kinds.now }
{
    match form {
        Form::Bool => Some(TRUTH),
        Form::Int => Some(INT),
        Form::Str => Some(STR),
        Form::Attribute(attribute) => Some(attribute_kind(attribute)),
        Form::Tag(_) => Some(TRUTH),
        Form::Modified => Some(STRS),
        Form::Timestamp => from_one(STR, TIME, kinds),
        Form::Duration => from_one(STR, LENGTH, kinds),
        Form::StartsWith => from_two(&[(STR, STR, TRUTH)], kinds),
        Form::EndsWith => from_two(&[(STR, STR, TRUTH)], kinds),
        Form::Extract => from_two(&[(STR, STR, STR)], kinds),
        Form::HasOnly => from_two(&[(STRS, STRS, TRUTH)], kinds),
        Form::Part(_) => part_kind(kinds),
        Form::List => list_kind(kinds),
        Form::Not => from_one(TRUTH, TRUTH, kinds),
        Form::Neg => from_one(INT, INT, kinds),
        Form::Two(op) => operator_kind(op, kinds),
        Form::Pick => choice_kind(kinds),
    }
}

fn operator_kind(op: Op, kinds: &[Kind]) -> Option<Kind>
    ensures { result ≡ operator_kind op kinds.now }
{
    match op {
        Op::Or | Op::And => from_two(&[(TRUTH, TRUTH, TRUTH)], kinds),
        Op::Lt | Op::Le | Op::Gt | Op::Ge => from_two(&ORDERS, kinds),
        Op::Eq | Op::Ne => equal_kind(kinds),
        Op::In => from_two(&MEMBERS, kinds),
        Op::Add => from_two(&SUMS, kinds),
        Op::Sub => from_two(&DIFFERENCES, kinds),
        Op::Mul | Op::Div | Op::Rem => from_two(&[(INT, INT, INT)], kinds),
    }
}

fn attribute_kind(attribute: Attribute) -> Kind
    ensures { result ≡ attribute_kind attribute }
{
    match attribute {
        Attribute::RequestTime => TIME,
        _ => STR,
    }
}

pub fn is_kind(left: Kind, right: Kind) -> bool
    ensures { result ≡ is_kind left right }
{
    left == right
}

fn from_one(operand: Kind, gives: Kind, kinds: &[Kind]) -> Option<Kind>
    ensures { result ≡ from_one operand gives kinds.now }
{
    match kinds {
        [kind] if is_kind(*kind, operand) => Some(gives),
        _ => None,
    }
}

fn look_up(rows: &[(Kind, Kind, Kind)], left: Kind, right: Kind) -> Option<Kind>
    ensures { result ≡ look_up rows.now left right }
{
    for row in rows {
        if is_kind(left, row.0) && is_kind(right, row.1) {
            return Some(row.2);
        }
    }
    None
}

fn from_two(rows: &[(Kind, Kind, Kind)], kinds: &[Kind]) -> Option<Kind>
    ensures { result ≡ from_two rows.now kinds.now }
{
    match kinds {
        [left, right] => look_up(rows, *left, *right),
        _ => None,
    }
}

fn equal_kind(kinds: &[Kind]) -> Option<Kind>
    ensures { result ≡ equal_kind kinds.now }
{
    match kinds {
        [left, right] if is_kind(*left, *right) => Some(TRUTH),
        _ => None,
    }
}

fn many_of(item: Kind) -> Option<Kind>
    ensures { result ≡ many_of item }
{
    match item {
        Kind::One(base) => Some(Kind::Many(base)),
        Kind::Many(_) => None,
    }
}

// All items have one kind, and it is a single one. The empty list is one of texts.
fn list_kind(kinds: &[Kind]) -> Option<Kind>
    ensures { result ≡ list_kind kinds.now }
{
    let [first, rest @ ..] = kinds else {
        return Some(STRS);
    };
    for kind in rest {
        if !is_kind(*first, *kind) {
            return None;
        }
    }
    many_of(*first)
}

fn choice_kind(kinds: &[Kind]) -> Option<Kind>
    ensures { result ≡ choice_kind kinds.now }
{
    match kinds {
        [condition, picked, other] if is_kind(*condition, TRUTH) && is_kind(*picked, *other) => {
            Some(*picked)
        }
        _ => None,
    }
}

// A zone's literal may stand behind the time.
fn part_kind(kinds: &[Kind]) -> Option<Kind>
    ensures { result ≡ part_kind kinds.now }
{
    match kinds {
        [_] => from_one(TIME, INT, kinds),
        _ => from_two(&[(TIME, STR, INT)], kinds),
    }
}
