ghost use Rattle.std.specs.Prelude.{◌≡◌};
ghost use Rattle.cel_tree.specs.declared.tree.Expr.{out-Expr};
ghost use Rattle.cel_types.specs.Forms.{form_of, is_name, attribute_of, resource_attribute, principal_attribute, call_form, tag_function, tag_of, arity, tag_form, is_api, is_whole, is_text, is_empty_list, modified_form, time_part, own_method, method_form};

use cel_tree::{Expr, Op};

/// An attribute of the request.
#[derive(Clone, Copy)]
pub enum Attribute {
    ResourceType,
    ResourceService,
    ResourceName,
    RequestTime,
    PrincipalType,
    PrincipalSubject,
}

/// A function of the resource's tags.
#[derive(Clone, Copy)]
pub enum TagFunction {
    MatchTag,
    MatchTagId,
    HasTagKey,
    HasTagKeyId,
}

/// A part of a time, as `getHours` gives it.
#[derive(Clone, Copy)]
pub enum TimePart {
    FullYear,
    Month,
    Date,
    DayOfMonth,
    DayOfWeek,
    DayOfYear,
    Hours,
    Minutes,
    Seconds,
    Milliseconds,
}

/// The form of a node.
#[derive(Clone, Copy)]
pub enum Form {
    Bool,
    Int,
    Str,
    Attribute(Attribute),
    /// `resource.matchTag(..)` and the like
    Tag(TagFunction),
    /// `api.getAttribute('iam.googleapis.com/modifiedGrantsByRole', [])`
    Modified,
    Timestamp,
    Duration,
    StartsWith,
    EndsWith,
    Extract,
    HasOnly,
    /// `getHours()` and the like, maybe with a zone
    Part(TimePart),
    List,
    Not,
    Neg,
    Two(Op),
    Pick,
}

/// The form of a node, if there is such a form with this number of arguments.
pub fn form_of(expr: &Expr) -> Option<Form>
    ensures { result ≡ form_of (out-Expr expr.now) }
{
    match expr {
        Expr::Bool(..) => Some(Form::Bool),
        Expr::Int(..) => Some(Form::Int),
        Expr::Str(..) => Some(Form::Str),
        Expr::Name(..) => None,
        Expr::Select(_, base, field) => {
            let attribute = attribute_of(base.get(), field.as_str())?;
            Some(Form::Attribute(attribute))
        }
        Expr::Call(_, name, arguments) => call_form(name.as_str(), arguments.len()),
        Expr::Method(_, base, name, arguments) => {
            method_form(base.get(), name.as_str(), arguments.as_slice())
        }
        Expr::Many(..) => Some(Form::List),
        Expr::Not(..) => Some(Form::Not),
        Expr::Neg(..) => Some(Form::Neg),
        Expr::Two(_, op, _, _) => Some(Form::Two(*op)),
        Expr::Pick(..) => Some(Form::Pick),
    }
}

fn is_name(expr: &Expr, name: &str) -> bool
    ensures { result ≡ is_name (out-Expr expr.now) name.now }
{
    match expr {
        Expr::Name(_, own) => own.as_str() == name,
        _ => false,
    }
}

/// The attribute that a field of a base is.
pub fn attribute_of(base: &Expr, field: &str) -> Option<Attribute>
    ensures { result ≡ attribute_of (out-Expr base.now) field.now }
{
    if is_name(base, "resource") {
        resource_attribute(field)
    } else if is_name(base, "principal") {
        principal_attribute(field)
    } else if is_name(base, "request") && field == "time" {
        Some(Attribute::RequestTime)
    } else {
        None
    }
}

fn resource_attribute(field: &str) -> Option<Attribute>
    ensures { result ≡ resource_attribute field.now }
{
    match field {
        "type" => Some(Attribute::ResourceType),
        "service" => Some(Attribute::ResourceService),
        "name" => Some(Attribute::ResourceName),
        _ => None,
    }
}

fn principal_attribute(field: &str) -> Option<Attribute>
    ensures { result ≡ principal_attribute field.now }
{
    match field {
        "type" => Some(Attribute::PrincipalType),
        "subject" => Some(Attribute::PrincipalSubject),
        _ => None,
    }
}

fn call_form(name: &str, arguments: usize) -> Option<Form>
    ensures { result ≡ call_form name.now arguments }
{
    if arguments != 1 {
        return None;
    }
    match name {
        "timestamp" => Some(Form::Timestamp),
        "duration" => Some(Form::Duration),
        _ => None,
    }
}

fn tag_function(name: &str) -> Option<TagFunction>
    ensures { result ≡ tag_function name.now }
{
    match name {
        "matchTag" => Some(TagFunction::MatchTag),
        "matchTagId" => Some(TagFunction::MatchTagId),
        "hasTagKey" => Some(TagFunction::HasTagKey),
        "hasTagKeyId" => Some(TagFunction::HasTagKeyId),
        _ => None,
    }
}

/// The tag function that a method of a base is.
pub fn tag_of(base: &Expr, name: &str) -> Option<TagFunction>
    ensures { result ≡ tag_of (out-Expr base.now) name.now }
{
    if is_name(base, "resource") {
        tag_function(name)
    } else {
        None
    }
}

fn arity(function: TagFunction) -> usize
    ensures { result ≡ arity function }
{
    match function {
        TagFunction::MatchTag | TagFunction::MatchTagId => 2,
        TagFunction::HasTagKey | TagFunction::HasTagKeyId => 1,
    }
}

fn tag_form(function: TagFunction, arguments: usize) -> Option<Form>
    ensures { result ≡ tag_form function arguments }
{
    if arguments == arity(function) {
        Some(Form::Tag(function))
    } else {
        None
    }
}

fn is_api(base: &Expr, name: &str) -> bool
    ensures { result ≡ is_api (out-Expr base.now) name.now }
{
    is_name(base, "api") && name == "getAttribute"
}

/// Whether a method is one node with its base and its arguments.
pub fn is_whole(base: &Expr, name: &str) -> bool
    ensures { result ≡ is_whole (out-Expr base.now) name.now }
{
    tag_of(base, name).is_some() || is_api(base, name)
}

fn is_text(expr: &Expr, text: &str) -> bool
    ensures { result ≡ is_text (out-Expr expr.now) text.now }
{
    match expr {
        Expr::Str(_, own) => own.as_str() == text,
        _ => false,
    }
}

fn is_empty_list(expr: &Expr) -> bool
    ensures { result ≡ is_empty_list (out-Expr expr.now) }
{
    match expr {
        Expr::Many(_, items) => items.len() == 0,
        _ => false,
    }
}

fn modified_form(arguments: &[Expr]) -> Option<Form>
    ensures { result ≡ modified_form arguments.now }
{
    match arguments {
        [name, default] => {
            if is_text(name, "iam.googleapis.com/modifiedGrantsByRole") && is_empty_list(default) {
                Some(Form::Modified)
            } else {
                None
            }
        }
        _ => None,
    }
}

fn time_part(name: &str) -> Option<TimePart>
    ensures { result ≡ time_part name.now }
{
    match name {
        "getFullYear" => Some(TimePart::FullYear),
        "getMonth" => Some(TimePart::Month),
        "getDate" => Some(TimePart::Date),
        "getDayOfMonth" => Some(TimePart::DayOfMonth),
        "getDayOfWeek" => Some(TimePart::DayOfWeek),
        "getDayOfYear" => Some(TimePart::DayOfYear),
        "getHours" => Some(TimePart::Hours),
        "getMinutes" => Some(TimePart::Minutes),
        "getSeconds" => Some(TimePart::Seconds),
        "getMilliseconds" => Some(TimePart::Milliseconds),
        _ => None,
    }
}

fn own_method(name: &str, arguments: usize) -> Option<Form>
    ensures { result ≡ own_method name.now arguments }
{
    if arguments == 0 {
        let part = time_part(name)?;
        return Some(Form::Part(part));
    }
    if arguments != 1 {
        return None;
    }
    match name {
        "startsWith" => Some(Form::StartsWith),
        "endsWith" => Some(Form::EndsWith),
        "extract" => Some(Form::Extract),
        "hasOnly" => Some(Form::HasOnly),
        _ => {
            let part = time_part(name)?;
            Some(Form::Part(part))
        }
    }
}

fn method_form(base: &Expr, name: &str, arguments: &[Expr]) -> Option<Form>
    ensures { result ≡ method_form (out-Expr base.now) name.now arguments.now }
{
    if let Some(function) = tag_of(base, name) {
        return tag_form(function, arguments.len());
    }
    if is_api(base, name) {
        return modified_form(arguments);
    }
    own_method(name, arguments.len())
}
