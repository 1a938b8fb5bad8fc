// Refusals as bodies.
ghost use Rattle.std.specs.Prelude.{◌≡◌, IfOk};
ghost use Rattle.iam_json.specs.Refusals.{line_of, refusal_line, error_data, error_text};
ghost use Rattle.serde_json.specs.View.{view};

use crate::details::{Details, details_value};
use crate::line::{line_of, line_value, refusal_line};
use iam_json_data::text_of;
use iam_text::{OutOfMemory, Text};
use iam_types::Refusal;
use serde_json::Value;
use std::alloc::Global;

/// One refusal, with its number in the table of refusals.
#[derive(Drop)]
pub struct ErrorReply {
    pub number: u8,
    pub details: Details,
}

impl ErrorReply {
    pub fn of(details: Details) -> ErrorReply
        ensures details { result.details ≡ details }
        ensures number { result.number ≡ (line_of details).number }
    {
        ErrorReply {
            number: line_of(&details).number,
            details,
        }
    }
}

/// The HTTP status code of a refusal.
pub fn code_of(reply: &ErrorReply) -> u16
    ensures { result ≡ (line_of reply.now.details).code }
{
    line_of(&reply.details).code
}

/// The HTTP status code of a refusal that a state gives.
pub fn refusal_code(refusal: &Refusal) -> u16
    ensures { result ≡ (refusal_line refusal.now).code }
{
    refusal_line(refusal).code
}

fn error_value(alloc: Global, details: &Details) -> Result<Value, OutOfMemory>
    ensures { IfOk result (λ v. view v ≡ error_data details.now) }
{
    let shown = details_value(alloc, details)?;
    line_value(alloc, &line_of(details), shown)
}

/// The body of a refusal.
pub fn error_body(alloc: Global, reply: &ErrorReply) -> Result<Text, OutOfMemory>
    requires { reply.now.number ≡ (line_of reply.now.details).number }
    ensures { IfOk result (λ text. text ≡ error_text reply.now.details) }
{
    let value = error_value(alloc, &reply.details)?;
    text_of(alloc, &value)
}
