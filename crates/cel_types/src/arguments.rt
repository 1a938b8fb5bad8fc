// The literals that some forms take as arguments.
ghost use Rattle.std.specs.Prelude.{◌≡◌, ◌<◌, ◌==◌, position, IfSome};
ghost use Rattle.cel_tree.specs.declared.tree.Expr.{out-Expr};
ghost use Rattle.cel_types.specs.Arguments.{arguments_of, is_literal, are_literals, literal_text, first_text, second_text, zone_of, has_literals, has_template, has_zone};
ghost use Rattle.cel_types.specs.Template.{is_single, is_apart, has_single_braces, has_name, is_template};
ghost use Rattle.cel_types.specs.Zone.{two_digits, signed_minutes, offset_minutes, zone_minutes};

use crate::Form;
use cel_tree::Expr;

/// The arguments of a call or a method.
pub fn arguments_of(expr: &Expr) -> &[Expr]
    ensures { result.now ≡ arguments_of (out-Expr expr.entry.now) }
{
    match expr {
        Expr::Call(_, _, arguments) => arguments.as_slice(),
        Expr::Method(_, _, _, arguments) => arguments.as_slice(),
        _ => &[],
    }
}

fn is_literal(expr: &Expr) -> bool
    ensures { result ≡ is_literal (out-Expr expr.now) }
{
    matches!(expr, Expr::Str(..))
}

fn are_literals(exprs: &[Expr]) -> bool
    ensures { result ≡ are_literals exprs.now }
{
    exprs.iter().all(is_literal)
}

// The text of a string literal, and the empty one elsewhere.
fn literal_text(expr: &Expr) -> &str
    ensures { result.now ≡ literal_text (out-Expr expr.entry.now) }
{
    match expr {
        Expr::Str(_, text) => text.as_str(),
        _ => "",
    }
}

/// The text of the first argument, where it is a string literal.
pub fn first_text(exprs: &[Expr]) -> &str
    ensures { result.now ≡ first_text exprs.entry.now }
{
    match exprs {
        [first, ..] => literal_text(first),
        [] => "",
    }
}

/// The text of the second argument, where it is a string literal.
pub fn second_text(exprs: &[Expr]) -> &str
    ensures { result.now ≡ second_text exprs.entry.now }
{
    match exprs {
        [_, second, ..] => literal_text(second),
        _ => "",
    }
}

/// How many minutes the zone that is given is ahead of UTC, where it is one; without an argument it is UTC.
pub fn zone_of(exprs: &[Expr]) -> Option<i16>
    ensures { result ≡ zone_of exprs.now }
{
    match exprs {
        [zone, ..] => zone_minutes(literal_text(zone)),
        [] => Some(0),
    }
}

/// Whether the arguments are string literals, where the form asks for that.
pub fn has_literals(form: Form, arguments: &[Expr]) -> bool
    ensures { result ≡ has_literals form arguments.now }
{
    match form {
        Form::Tag(_) => are_literals(arguments),
        Form::Extract => are_literals(arguments),
        Form::Part(_) => are_literals(arguments),
        _ => true,
    }
}

/// Whether the argument of `extract` is a template.
pub fn has_template(form: Form, arguments: &[Expr]) -> bool
    ensures { result ≡ has_template form arguments.now }
{
    match form {
        Form::Extract => is_template(first_text(arguments)),
        _ => true,
    }
}

/// Whether the argument of `getHours` and the like is a zone.
pub fn has_zone(form: Form, arguments: &[Expr]) -> bool
    ensures { result ≡ has_zone form arguments.now }
{
    match form {
        Form::Part(_) => zone_of(arguments).is_some(),
        _ => true,
    }
}

// A byte stands exactly once in a text.
fn is_single(bytes: &[u8], byte: u8) -> bool
    ensures { result ≡ is_single byte bytes.now }
{
    bytes.iter().filter(|b| **b == byte).count() == 1
}

// Where a byte stands first in a text.
fn place_of(bytes: &[u8], byte: u8) -> Option<usize>
    ensures { result ≡ position (λ b. b == byte) bytes.now }
{
    bytes.iter().position(|b| *b == byte)
}

fn is_apart(opened: Option<usize>, closed: Option<usize>) -> bool
    ensures { result ≡ is_apart opened closed }
{
    let Some(opened) = opened else {
        return false;
    };
    let Some(closed) = closed else {
        return false;
    };
    opened < closed && closed - opened > 1
}

fn has_single_braces(bytes: &[u8]) -> bool
    ensures { result ≡ has_single_braces bytes.now }
{
    is_single(bytes, b'{') && is_single(bytes, b'}')
}

fn has_name(bytes: &[u8]) -> bool
    ensures { result ≡ has_name bytes.now }
{
    is_apart(place_of(bytes, b'{'), place_of(bytes, b'}'))
}

/// Whether a text has exactly one `{name}` and no other brace. The name has a character or more.
pub fn is_template(text: &str) -> bool
    ensures { result ≡ is_template text.now }
{
    has_single_braces(text.as_bytes()) && has_name(text.as_bytes())
}

/// The number below 100 that two digits write.
pub fn two_digits(tens: u8, ones: u8) -> Option<u8>
    ensures value { result ≡ two_digits tens ones }
    ensures bound { IfSome result (λ number. number < 100) }
{
    if !tens.is_ascii_digit() {
        return None;
    }
    if !ones.is_ascii_digit() {
        return None;
    }
    Some(10 * (tens - b'0') + (ones - b'0'))
}

fn signed_minutes(sign: u8, hours: u8, minutes: u8) -> Option<i16>
    ensures { result ≡ signed_minutes sign hours minutes }
{
    if hours > 23 || minutes > 59 {
        return None;
    }
    let minutes = 60 * i16::from(hours) + i16::from(minutes);
    match sign {
        b'+' => Some(minutes),
        b'-' => Some(-minutes),
        _ => None,
    }
}

/// The minutes of an offset `+HH:MM` or `-HH:MM`.
pub fn offset_minutes(text: &[u8]) -> Option<i16>
    ensures { result ≡ offset_minutes text.now }
{
    match text {
        [sign, a, b, colon, c, d] => {
            if *colon != b':' {
                return None;
            }
            let hours = two_digits(*a, *b)?;
            let minutes = two_digits(*c, *d)?;
            signed_minutes(*sign, hours, minutes)
        }
        _ => None,
    }
}

// How many minutes a zone's clock is ahead of UTC.
fn zone_minutes(zone: &str) -> Option<i16>
    ensures { result ≡ zone_minutes zone.now }
{
    if zone == "UTC" {
        Some(0)
    } else {
        offset_minutes(zone.as_bytes())
    }
}
