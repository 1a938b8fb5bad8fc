// What changes are answered.
ghost use Rattle.std.specs.Prelude.{◌≡◌, IfOk};
ghost use Rattle.iam_types.specs.declared.tables.Tables.{Tables};
ghost use Rattle.iam_answer.specs.Answer.{node_written, policy_written, written_answer};

use crate::nodes::{change_shown, creation_shown};
use crate::policies::policy_shown;
use iam_judge::Index;
use iam_names::{NodeKind, NodeName};
use iam_readings::resolve;
use iam_text::OutOfMemory;
use iam_types::{Answer, Command, Resource};
use std::alloc::Global;

fn policy_written(alloc: Global, index: &Index, node: &NodeName) -> Result<Answer, OutOfMemory>
    ensures { IfOk result (λ answer. answer ≡ policy_written index.now node.now) }
{
    match resolve(index.tables(), node) {
        Some(id) => policy_shown(alloc, index.tables(), id),
        None => Ok(Answer::Resource(Resource::Nothing)),
    }
}

fn node_written(index: &Index, node: &NodeName) -> Result<Answer, OutOfMemory>
    ensures { IfOk result (λ answer. answer ≡ node_written index.now node.now) }
{
    match resolve(index.tables(), node) {
        Some(id) => change_shown(index.tables(), id),
        None => Ok(Answer::Resource(Resource::Nothing)),
    }
}

/// What an accepted change is answered, where the index holds the state after it. None that can be given yet shows what
/// stood before it.
#[tactic(auto, unfolding(crate::specs::Answer::written_answer))]
pub fn written(alloc: Global, index: &Index, command: &Command) -> Result<Answer, OutOfMemory>
    ensures { (before : Tables) → IfOk result (λ answer. answer ≡ written_answer before index.now command.now) }
{
    match command {
        Command::SetAllow { node, .. } => policy_written(alloc, index, node),
        Command::CreateFolder { .. } => creation_shown(NodeKind::Folder, index.tables()),
        Command::CreateProject { .. } => creation_shown(NodeKind::Project, index.tables()),
        Command::RenameFolder { node, .. } => node_written(index, node),
        Command::DeleteNode { node } => node_written(index, node),
        Command::UndeleteNode { node } => node_written(index, node),
        Command::Move { .. }
        | Command::CreateTagKey { .. }
        | Command::DeleteTagKey { .. }
        | Command::CreateTagValue { .. }
        | Command::DeleteTagValue { .. }
        | Command::BindTag { .. }
        | Command::UnbindTag { .. }
        | Command::CreateGroup { .. }
        | Command::DeleteGroup { .. }
        | Command::AddMember { .. }
        | Command::RemoveMember { .. }
        | Command::CreateRole { .. }
        | Command::UpdateRole { .. }
        | Command::DeleteRole { .. }
        | Command::UndeleteRole { .. }
        | Command::CreateDeny { .. }
        | Command::UpdateDeny { .. }
        | Command::DeleteDeny { .. }
        | Command::CreateBoundary { .. }
        | Command::UpdateBoundary { .. }
        | Command::DeleteBoundary { .. }
        | Command::CreateBound { .. }
        | Command::DeleteBound { .. } => Ok(Answer::Resource(Resource::Nothing)),
    }
}
