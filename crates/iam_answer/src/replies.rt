// The bytes of replies.
ghost use Rattle.std.specs.Prelude.{◌≡◌, IfOk, None};
ghost use Rattle.iam_json.specs.Refusals.{error_text, line_of};
ghost use Rattle.iam_answer.specs.Replies as spec;
ghost use Rattle.iam_wire.specs.Reply.{bytes_of};

use iam_json::{Details, ErrorReply, answer_body, code_of, error_body, refusal_code};
use iam_text::{List, Moment, OutOfMemory, let_go};
use iam_types::Answer;
use iam_wire::{Reply, reply_bytes};
use std::alloc::Global;

const NO_MEMORY: &str =
    "HTTP/1.1 507 Insufficient Storage\r\ncontent-type: application/json\r\ncontent-length: 105\r\n\r\n{\"error\":{\"code\":507,\"details\":{\"stored\":false},\"message\":\"OUT_OF_MEMORY\",\"status\":\"RESOURCE_EXHAUSTED\"}}";

// The reply to a refusal that no state gives. It shows no revision.
fn refused_reply(
    alloc: Global,
    error: &ErrorReply,
    moment: Option<Moment>,
) -> Result<List<u8>, OutOfMemory>
    requires { error.now.number ≡ (line_of error.now.details).number }
    ensures { IfOk result (λ bytes. bytes ≡ bytes_of (record { code = (line_of error.now.details).code; number = None; moment = moment; body = error_text error.now.details })) }
{
    let reply = Reply {
        code: code_of(error),
        number: None,
        moment,
        body: error_body(alloc, error)?,
    };
    reply_bytes(alloc, &reply)
}

/// The reply to a message that is refused whatever the state: it shows neither revision nor moment.
#[tactic(auto, unfolding(crate::specs::Replies::plain_reply))]
pub fn plain_reply(alloc: Global, error: &ErrorReply) -> Result<List<u8>, OutOfMemory>
    requires { error.now.number ≡ (line_of error.now.details).number }
    ensures { IfOk result (λ bytes. bytes ≡ spec.plain_reply error.now.details) }
{
    refused_reply(alloc, error, None)
}

/// The reply to a write for which the keeper failed: it shows the moment alone.
#[tactic(auto, unfolding(crate::specs::Replies::keeper_reply))]
pub fn keeper_reply(alloc: Global, moment: Moment) -> Result<List<u8>, OutOfMemory>
    ensures { IfOk result (λ bytes. bytes ≡ spec.keeper_reply moment) }
{
    let error = ErrorReply::of(Details::KeeperFault);
    let reply = refused_reply(alloc, &error, Some(moment));
    let_go(error);
    reply
}

fn answer_code(answer: &Answer) -> u16
    ensures { result ≡ spec.answer_code answer.now }
{
    match answer {
        Answer::Refused(refusal) => refusal_code(refusal),
        Answer::Resource(_)
        | Answer::Operation { .. }
        | Answer::Folders(_)
        | Answer::Projects(_)
        | Answer::TagBindings(_)
        | Answer::DenyPolicies(_)
        | Answer::Permissions(_)
        | Answer::Policy { .. }
        | Answer::Group { .. }
        | Answer::Role(_)
        | Answer::Explanation { .. } => 200,
    }
}

/// The reply with an answer in the state of this number, at this moment.
#[tactic(auto, unfolding(crate::specs::Replies::served_reply))]
pub fn served_reply(
    alloc: Global,
    number: u64,
    moment: Moment,
    answer: &Answer,
) -> Result<List<u8>, OutOfMemory>
    ensures { IfOk result (λ bytes. bytes ≡ spec.served_reply number moment answer.now) }
{
    let reply = Reply {
        code: answer_code(answer),
        number: Some(number),
        moment: Some(moment),
        body: answer_body(alloc, answer)?,
    };
    reply_bytes(alloc, &reply)
}

/// The reply that takes no memory: memory was refused, and nothing was stored.
#[tactic(auto, using(crate::proofs::Fixed::fixed_reply))]
pub fn no_memory_reply() -> &'static [u8]
    ensures { result.now ≡ spec.no_memory_reply }
{
    NO_MEMORY.as_bytes()
}
