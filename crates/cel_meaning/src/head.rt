// Heads of nodes, as the evaluator reads them.
ghost use Rattle.std.specs.Prelude.{◌≡◌};
ghost use Rattle.std.specs.Option.{option_map};
ghost use Rattle.cel_tree.specs.declared.tree.Expr.{out-Expr};
ghost use Rattle.cel_types.specs.Heads.{called_head, head_of, with_literals};
ghost use Rattle.cel_meaning.specs.Borrowed.{meant};

use crate::texts::{prefix_of, suffix_of};
use cel_tree::{Expr, Op};
use cel_types::{
    Attribute, Form, TagFunction, TimePart, attribute_of, first_text, form_of, second_text, zone_of,
};

/// What a node is with its literals done, without its parts. Its texts are borrowed, from the tree or from what a tree was
/// prepared to.
#[derive(Clone, Copy)]
pub enum Head<'a> {
    Bool(bool),
    Int(i64),
    Str(&'a str),
    Attribute(Attribute),
    /// The key, and what its value is to be, which is empty where the function asks for none.
    Tag(TagFunction, &'a str, &'a str),
    Modified,
    Timestamp,
    Duration,
    StartsWith,
    EndsWith,
    /// What stands before the name in the template, and behind it.
    Extract(&'a str, &'a str),
    HasOnly,
    /// How many minutes the zone is ahead of UTC.
    Part(TimePart, i16),
    List,
    Not,
    Neg,
    Two(Op),
    Pick,
}

// The head of a function or method of a form. Other forms are none of a function.
fn with_literals(form: Form, arguments: &[Expr]) -> Option<Head<'_>>
    ensures { option_map meant result ≡ with_literals form arguments.entry.now }
{
    match form {
        Form::Tag(function) => Some(Head::Tag(
            function,
            first_text(arguments),
            second_text(arguments),
        )),
        Form::Modified => Some(Head::Modified),
        Form::Timestamp => Some(Head::Timestamp),
        Form::Duration => Some(Head::Duration),
        Form::StartsWith => Some(Head::StartsWith),
        Form::EndsWith => Some(Head::EndsWith),
        Form::Extract => {
            let template = first_text(arguments);
            Some(Head::Extract(prefix_of(template), suffix_of(template)))
        }
        Form::HasOnly => Some(Head::HasOnly),
        Form::Part(part) => match zone_of(arguments) {
            Some(minutes) => Some(Head::Part(part, minutes)),
            None => None,
        },
        Form::Bool
        | Form::Int
        | Form::Str
        | Form::Attribute(_)
        | Form::List
        | Form::Not
        | Form::Neg
        | Form::Two(_)
        | Form::Pick => None,
    }
}

// The head of a function or a method with these arguments.
fn called_head(form: Option<Form>, arguments: &[Expr]) -> Option<Head<'_>>
    ensures { option_map meant result ≡ called_head form arguments.entry.now }
{
    match form {
        Some(form) => with_literals(form, arguments),
        None => None,
    }
}

/// The head of a node, if it is one of a form with literals that can be read.
pub fn head_of(expr: &Expr) -> Option<Head<'_>>
    ensures { option_map meant result ≡ head_of (out-Expr expr.entry.now) }
{
    match expr {
        Expr::Bool(_, truth) => Some(Head::Bool(*truth)),
        Expr::Int(_, number) => Some(Head::Int(*number)),
        Expr::Str(_, text) => Some(Head::Str(text.as_str())),
        Expr::Name(..) => None,
        Expr::Select(_, base, field) => match attribute_of(base.get(), field.as_str()) {
            Some(found) => Some(Head::Attribute(found)),
            None => None,
        },
        Expr::Call(_, _, arguments) => called_head(form_of(expr), arguments.as_slice()),
        Expr::Method(_, _, _, arguments) => called_head(form_of(expr), arguments.as_slice()),
        Expr::Many(..) => Some(Head::List),
        Expr::Not(..) => Some(Head::Not),
        Expr::Neg(..) => Some(Head::Neg),
        Expr::Two(_, op, _, _) => Some(Head::Two(*op)),
        Expr::Pick(..) => Some(Head::Pick),
    }
}
