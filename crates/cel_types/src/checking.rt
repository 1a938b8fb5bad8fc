ghost use Rattle.std.specs.Prelude.{◌≡◌, ◌↔◌, IsOk, IfOk, IfErr, MatchResult};
ghost use Rattle.cel_tree.specs.declared.tree.Expr.{out-Expr};
ghost use Rattle.cel_types.specs.HasKind.{HasKind, FirstFault, FirstFaultAmong, IsFaultOf};
ghost use Rattle.cel_types.specs.KindOf.{at_node, checked};
ghost use Rattle.cel_types.specs.Kinds.{truth};
ghost use Rattle.cel_types.specs.Nodes.{node_kind, differing, Keeps};
ghost use Rattle.cel_types.specs.Sight.{sight_of};

use crate::arguments::{arguments_of, has_literals, has_template, has_zone};
use crate::form::{attribute_of, form_of, is_whole};
use crate::place::stands_in;
use crate::rows::{TRUTH, is_kind, kind_from};
use crate::{Kind, Place};
use cel_tree::Expr;
use std::marker::Model;

/// What is wrong with a node, or with the whole expression.
#[derive(Clone, Copy, Debug, PartialEq, Eq)]
pub enum TypeKind {
    /// There is no such form, or not with this number of arguments.
    UnknownName,
    /// The form doesn't stand in this place.
    NotHere,
    /// An argument is no string literal.
    NotLiteral,
    /// The argument of `extract` has not exactly one `{name}`.
    BadTemplate,
    /// The argument of `getHours` and the like is no zone.
    BadZone,
    /// The parts are of other kinds than the form asks for.
    WrongKind,
    /// The whole is of another kind than Bool.
    NotBool,
}

/// The first fault of an expression, at the first byte of its node.
#[derive(Clone, Copy, Debug, PartialEq, Eq)]
pub struct TypeFault {
    pub offset: u32,
    pub kind: TypeKind,
}

/// An expression in a place where it is a condition: its kind there is Bool.
#[derive(Drop)]
pub struct Typed {
    expr: Expr,
    place: Place,
}

impl Model for Typed {
    ghost use Rattle.cel_types.specs.Condition.{Condition};
    ghost use Rattle.cel_types.specs.HasKind.{HasKind};
    ghost use Rattle.cel_types.specs.Kinds.{truth};
    ghost use Rattle.cel_types.specs.Sight.{sight_of};
    ghost use Rattle.cel_tree.specs.contracts.tree.Expr as trees;
    ghost use Rattle.std.specs.Coded.{codes};

    ghost Value = { Condition };

    ghost coded = { Prim.hlevel (codes, trees.the_row.coded) };

    ghost view = { λ t. record { expr = t.expr; place = t.place } };

    ghost invariant = { λ t. HasKind (sight_of t.place) t.expr truth };
}

impl Typed {
    /// Its kind in its place is Bool.
    pub fn expr(&self) -> &Expr
        ensures value { result.now ≡ self.now.expr }
        ensures typed { HasKind (sight_of self.now.place) self.now.expr truth }
    {
        &self.expr
    }

    pub fn place(&self) -> Place
        ensures { result ≡ self.now.place }
    {
        self.place
    }
}

/// Whether an expression is a condition in a place. One that isn't is dropped.
pub fn check(expr: Expr, place: Place) -> Result<Typed, TypeFault>
    ensures value { result ≡ checked place expr }
    ensures exact { IsOk result ↔ HasKind (sight_of place) expr truth }
    ensures typed { IfOk result (λ t. (t.expr ≡ expr) × (t.place ≡ place)) }
    ensures fault { IfErr result (IsFaultOf (sight_of place) expr) }
{
    match kind_of(&expr, place) {
        Ok(kind) => {
            if is_kind(kind, TRUTH) {
                return Ok(Typed { expr, place });
            }
            Err(TypeFault {
                offset: expr.span().from,
                kind: TypeKind::NotBool,
            })
        }
        Err(fault) => Err(fault),
    }
}

// The kind of a node whose parts have these kinds, or what is wrong with it.
fn node_kind(expr: &Expr, place: Place, kinds: &[Kind]) -> Result<Kind, TypeKind>
    ensures { result ≡ node_kind (sight_of place) (out-Expr expr.now) kinds.now }
{
    let Some(form) = form_of(expr) else {
        return Err(TypeKind::UnknownName);
    };
    if !stands_in(place, form) {
        return Err(TypeKind::NotHere);
    }
    let arguments = arguments_of(expr);
    if !has_literals(form, arguments) {
        return Err(TypeKind::NotLiteral);
    }
    if !has_template(form, arguments) {
        return Err(TypeKind::BadTemplate);
    }
    if !has_zone(form, arguments) {
        return Err(TypeKind::BadZone);
    }
    match kind_from(form, kinds) {
        Some(kind) => Ok(kind),
        None => Err(TypeKind::WrongKind),
    }
}

// The same, with the fault at the first byte of the node.
fn node(expr: &Expr, place: Place, kinds: &[Kind]) -> Result<Kind, TypeFault>
    ensures { result ≡ at_node expr.now (node_kind (sight_of place) (out-Expr expr.now) kinds.now) }
{
    match node_kind(expr, place, kinds) {
        Ok(kind) => Ok(kind),
        Err(kind) => Err(TypeFault {
            offset: expr.span().from,
            kind,
        }),
    }
}

#[cycle(kinds)]
fn kind_of(expr: &Expr, place: Place) -> Result<Kind, TypeFault>
    ensures { MatchResult result (HasKind (sight_of place) expr.now) (FirstFault (sight_of place) expr.now) }
{
    match expr {
        Expr::Bool(..) | Expr::Int(..) | Expr::Str(..) | Expr::Name(..) => node(expr, place, &[]),
        Expr::Select(_, base, field) => match attribute_of(base.get(), field.as_str()) {
            Some(_) => node(expr, place, &[]),
            None => node(expr, place, &[kind_of(base.get(), place)?]),
        },
        Expr::Call(_, _, arguments) => match kinds_among(arguments.as_slice(), place)? {
            None => node(expr, place, &[]),
            Some((argument, _)) => node(expr, place, &[argument]),
        },
        Expr::Method(_, base, name, arguments) => {
            let base = base.get();
            if is_whole(base, name.as_str()) {
                return node(expr, place, &[]);
            }
            let kind = kind_of(base, place)?;
            match kinds_among(arguments.as_slice(), place)? {
                None => node(expr, place, &[kind]),
                Some((argument, _)) => node(expr, place, &[kind, argument]),
            }
        }
        Expr::Many(_, items) => match kinds_among(items.as_slice(), place)? {
            None => node(expr, place, &[]),
            Some((first, other)) => node(expr, place, &[first, other]),
        },
        Expr::Not(_, operand) | Expr::Neg(_, operand) => {
            let kind = kind_of(operand.get(), place)?;
            node(expr, place, &[kind])
        }
        Expr::Two(_, _, left, right) => {
            let left = kind_of(left.get(), place)?;
            let right = kind_of(right.get(), place)?;
            node(expr, place, &[left, right])
        }
        Expr::Pick(_, condition, picked, other) => {
            let condition = kind_of(condition.get(), place)?;
            let picked = kind_of(picked.get(), place)?;
            let other = kind_of(other.get(), place)?;
            node(expr, place, &[condition, picked, other])
        }
    }
}

fn differing(first: Kind, so_far: Kind, kind: Kind) -> Kind
    ensures { result ≡ differing first so_far kind }
{
    if is_kind(first, kind) { so_far } else { kind }
}

// The kind of the first node of a list, and of one that differs from it, where there is one. A list asks for no more, and a call
// for less, since no form has two arguments.
#[cycle(kinds)]
fn kinds_among(exprs: &[Expr], place: Place) -> Result<Option<(Kind, Kind)>, TypeFault>
    ensures { MatchResult result (Keeps (sight_of place) exprs.now) (FirstFaultAmong (sight_of place) exprs.now) }
{
    let [first, rest @ ..] = exprs else {
        return Ok(None);
    };
    let first = kind_of(first, place)?;
    let mut other = first;
    for expr in rest {
        let kind = kind_of(expr, place)?;
        other = differing(first, other, kind);
    }
    Ok(Some((first, other)))
}
