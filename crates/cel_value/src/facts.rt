ghost use Rattle.std.specs.Prelude.{◌≡◌};
ghost use Rattle.cel_value.specs.declared.context.Context.{Context as Meant};
ghost use Rattle.cel_value.specs.Keys.{key_named, key_numbered, IsAnswer};

use crate::{Context, KeyFact};
use iam_text::{Moment, Text};

/// What is known of a tag key: nothing, that no value is in force, or the value in force.
#[derive(Clone, Copy)]
pub enum KeyAnswer<'a> {
    Unknown,
    Unbound,
    Bound { number: u64, short: &'a str },
}

/// The facts of a request, which stand for one context.
pub trait Facts {
    /// The context that these facts stand for.
    ghost context: { Self → Meant };

    fn resource_kind(&self) -> &str
        ensures { result.now ≡ (context self.now).resource_kind };

    fn resource_service(&self) -> &str
        ensures { result.now ≡ (context self.now).resource_service };

    fn resource_name(&self) -> &str
        ensures { result.now ≡ (context self.now).resource_name };

    fn moment(&self) -> Moment
        ensures { result ≡ (context self.now).moment };

    /// The first key with this name.
    fn key_named(&self, name: &str) -> KeyAnswer<'_>
        ensures { IsAnswer (key_named name.now (context self.now).keys) result };

    /// The first key with this number.
    fn key_numbered(&self, number: u64) -> KeyAnswer<'_>
        ensures { IsAnswer (key_numbered number (context self.now).keys) result };

    fn principal_kind(&self) -> &str
        ensures { result.now ≡ (context self.now).principal_kind };

    fn principal_subject(&self) -> &str
        ensures { result.now ≡ (context self.now).principal_subject };

    fn modified(&self) -> &[Text]
        ensures { result.now ≡ (context self.now).modified };
}

fn answer_of(key: &KeyFact) -> KeyAnswer<'_>
    ensures { IsAnswer (Some key.entry.now) result }
{
    match &key.value {
        None => KeyAnswer::Unbound,
        Some(value) => KeyAnswer::Bound {
            number: value.number,
            short: value.short.as_str(),
        },
    }
}

fn first_named<'a>(keys: &'a [KeyFact], name: &str) -> KeyAnswer<'a>
    ensures { IsAnswer (key_named name.now keys.entry.now) result }
{
    for key in keys {
        if key.name.as_str() == name {
            return answer_of(key);
        }
    }
    KeyAnswer::Unknown
}

fn first_numbered(keys: &[KeyFact], number: u64) -> KeyAnswer<'_>
    ensures { IsAnswer (key_numbered number keys.entry.now) result }
{
    for key in keys {
        if key.number == number {
            return answer_of(key);
        }
    }
    KeyAnswer::Unknown
}

impl Facts for Context {
    ghost context = { λ c. c };

    fn resource_kind(&self) -> &str {
        self.resource_kind.as_str()
    }

    fn resource_service(&self) -> &str {
        self.resource_service.as_str()
    }

    fn resource_name(&self) -> &str {
        self.resource_name.as_str()
    }

    fn moment(&self) -> Moment {
        self.moment
    }

    fn key_named(&self, name: &str) -> KeyAnswer<'_> {
        first_named(self.keys.as_slice(), name)
    }

    fn key_numbered(&self, number: u64) -> KeyAnswer<'_> {
        first_numbered(self.keys.as_slice(), number)
    }

    fn principal_kind(&self) -> &str {
        self.principal_kind.as_str()
    }

    fn principal_subject(&self) -> &str {
        self.principal_subject.as_str()
    }

    fn modified(&self) -> &[Text] {
        self.modified.as_slice()
    }
}
