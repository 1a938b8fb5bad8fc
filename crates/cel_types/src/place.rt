// Which forms stand in which place.
ghost use Rattle.std.specs.Prelude.{◌≡◌};
ghost use Rattle.cel_types.specs.Places.{is_principal, stands_in, stands_in_allow, stands_in_deny, stands_in_binding};

use crate::{Attribute, Form, Place};
use cel_tree::Op;

fn is_principal(attribute: Attribute) -> bool
    ensures { result ≡ is_principal attribute }
{
    match attribute {
        Attribute::PrincipalType => true,
        Attribute::PrincipalSubject => true,
        _ => false,
    }
}

fn stands_in_allow(form: Form) -> bool
    ensures { result ≡ stands_in_allow form }
{
    match form {
        Form::Attribute(attribute) => !is_principal(attribute),
        _ => true,
    }
}

fn stands_in_deny(form: Form) -> bool
    ensures { result ≡ stands_in_deny form }
{
    match form {
        Form::Tag(_) => true,
        Form::Not => true,
        Form::Two(op) => match op {
            Op::And => true,
            Op::Or => true,
            _ => false,
        },
        _ => false,
    }
}

fn stands_in_binding(form: Form) -> bool
    ensures { result ≡ stands_in_binding form }
{
    match form {
        Form::Attribute(attribute) => is_principal(attribute),
        Form::Tag(_) => false,
        Form::Modified => false,
        _ => true,
    }
}

/// Whether a form may stand in a place.
pub fn stands_in(place: Place, form: Form) -> bool
    ensures { result ≡ stands_in place form }
{
    match place {
        Place::Allow => stands_in_allow(form),
        Place::Deny => stands_in_deny(form),
        Place::Binding => stands_in_binding(form),
    }
}
