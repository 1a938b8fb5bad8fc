// Attributes of the request, and the roles whose grants it modifies.
ghost use Rattle.std.specs.Prelude.{◌≡◌, map};
ghost use Rattle.cel_types.specs.Tags.{attribute_outcome};
ghost use Rattle.cel_value.specs.declared.value.Outcome.TheVariants.{Given};
ghost use Rattle.cel_value.specs.declared.value.Value.TheVariants as value;
ghost use Rattle.cel_meaning.specs.Results.{Gives};

use crate::operators::done;
use crate::stop::Stop;
use crate::time::{checked_time, nanos_of_seconds};
use cel_types::Attribute;
use cel_value::{Facts, Value};
use iam_text::{List, Text};
use std::alloc::Global;

pub fn string(alloc: Global, text: &str) -> Result<Value, Stop>
    ensures { Gives (Given (value.Str text.now)) result }
{
    let text = Text::of(alloc, text)?;
    Ok(Value::Str(text))
}

/// An attribute of the request.
pub fn attribute<F: Facts>(alloc: Global, attribute: Attribute, facts: &F) -> Result<Value, Stop>
    ensures { Gives (attribute_outcome (F.context facts.now) attribute) result }
{
    match attribute {
        Attribute::ResourceType => string(alloc, facts.resource_kind()),
        Attribute::ResourceService => string(alloc, facts.resource_service()),
        Attribute::ResourceName => string(alloc, facts.resource_name()),
        Attribute::RequestTime => done(checked_time(nanos_of_seconds(facts.moment().0))),
        Attribute::PrincipalType => string(alloc, facts.principal_kind()),
        Attribute::PrincipalSubject => string(alloc, facts.principal_subject()),
    }
}

/// The texts as a list.
pub fn strings(alloc: Global, texts: &[Text]) -> Result<Value, Stop>
    ensures { Gives (Given (value.Many (map (λ text. value.Str text) texts.now))) result }
{
    let mut found = List::new(alloc);
    for text in texts {
        let text = text.clone()?;
        found.push(Value::Str(text))?;
    }
    Ok(Value::Many(found))
}
