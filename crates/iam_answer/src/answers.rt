// What reads are answered.
ghost use Rattle.std.specs.Prelude.{◌≡◌, IfOk};
ghost use Rattle.iam_names.specs.Node.{node_text};
ghost use Rattle.iam_types.specs.declared.answer.Answer.TheVariants.{Refused};
ghost use Rattle.iam_types.specs.declared.refusal.Refusal.TheVariants.{NotFound};
ghost use Rattle.iam_answer.specs.Answer.{answer_of, at_node};
ghost use Rattle.iam_answer.specs.NodeAnswers.{folders_answer, node_answer, projects_answer};

use crate::nodes::{folders, node, projects};
use crate::policies::policy;
use crate::testing::test;
use iam_judge::Index;
use iam_names::{Caller, NodeName};
use iam_readings::resolve;
use iam_text::{Moment, OutOfMemory};
use iam_types::{Answer, Ask, Refusal, Resource};
use std::alloc::Global;

fn not_found(alloc: Global, node: &NodeName) -> Result<Answer, OutOfMemory>
    ensures { IfOk result (λ answer. answer ≡ Refused (NotFound (node_text node.now))) }
{
    let name = node.text(alloc)?;
    Ok(Answer::Refused(Refusal::NotFound { name }))
}

fn node_named(
    alloc: Global,
    index: &Index,
    name: &NodeName,
    caller: &Caller,
    moment: Moment,
) -> Result<Answer, OutOfMemory>
    ensures { IfOk result (λ answer. answer ≡ at_node index.now name.now (λ id. node_answer index.now id caller.now moment)) }
{
    match resolve(index.tables(), name) {
        Some(id) => node(alloc, index, id, caller, moment),
        None => not_found(alloc, name),
    }
}

fn folders_under(
    alloc: Global,
    index: &Index,
    name: &NodeName,
    caller: &Caller,
    moment: Moment,
) -> Result<Answer, OutOfMemory>
    ensures { IfOk result (λ answer. answer ≡ at_node index.now name.now (λ parent. folders_answer index.now parent caller.now moment)) }
{
    match resolve(index.tables(), name) {
        Some(parent) => folders(alloc, index, parent, caller, moment),
        None => not_found(alloc, name),
    }
}

fn projects_under(
    alloc: Global,
    index: &Index,
    name: &NodeName,
    caller: &Caller,
    moment: Moment,
) -> Result<Answer, OutOfMemory>
    ensures { IfOk result (λ answer. answer ≡ at_node index.now name.now (λ parent. projects_answer index.now parent caller.now moment)) }
{
    match resolve(index.tables(), name) {
        Some(parent) => projects(alloc, index, parent, caller, moment),
        None => not_found(alloc, name),
    }
}

/// What a read is answered in the state that the index holds, at this moment.
#[tactic(auto, unfolding(crate::specs::Answer::answer_of))]
pub fn answer(
    alloc: Global,
    index: &Index,
    ask: &Ask,
    caller: &Caller,
    moment: Moment,
) -> Result<Answer, OutOfMemory>
    ensures { IfOk result (λ answer. answer ≡ answer_of index.now ask.now caller.now moment) }
{
    match ask {
        Ask::Test { node, permissions } => match resolve(index.tables(), node) {
            Some(id) => test(alloc, index, id, permissions.as_slice(), caller, moment),
            None => not_found(alloc, node),
        },
        Ask::Policy { node, version } => match resolve(index.tables(), node) {
            Some(id) => policy(alloc, index, id, *version, caller, moment),
            None => not_found(alloc, node),
        },
        Ask::Node { node } => node_named(alloc, index, node, caller, moment),
        Ask::Folders { parent } => folders_under(alloc, index, parent, caller, moment),
        Ask::Projects { parent } => projects_under(alloc, index, parent, caller, moment),
        Ask::TagKey { .. }
        | Ask::TagValue { .. }
        | Ask::Tags { .. }
        | Ask::Group { .. }
        | Ask::Role { .. }
        | Ask::Denies { .. }
        | Ask::Deny { .. }
        | Ask::Boundary { .. }
        | Ask::Bound { .. }
        | Ask::Troubleshoot { .. } => Ok(Answer::Resource(Resource::Nothing)),
    }
}
