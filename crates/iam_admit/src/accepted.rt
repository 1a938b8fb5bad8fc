// Whether an entry is accepted.
ghost use Rattle.std.specs.Prelude.{◌≡◌, All, IfOk, IfErr, Some, None};
ghost use Rattle.iam_model.specs.Commands as spec;
ghost use Rattle.iam_model.specs.Formed.{IsChange};
ghost use Rattle.iam_law.specs.Admit.{admission};
ghost use Rattle.iam_admit.specs.Facts.{LeadTo};
ghost use Rattle.iam_admit.specs.Follows.{Follows};

use crate::allow::set_allow;
use crate::creation::{create_folder, create_project};
use crate::node_changes::{delete_node, rename_folder, undelete_node};
use crate::stop::AdmitStop;
use iam_judge::Index;
use iam_law::accepted_entries_fit;
use iam_model::{changes_are_formed, changes_lead};
use iam_text::{List, OutOfMemory};
use iam_types::{Command, Entry, FactChange, Refusal};
use std::alloc::Global;

/// An entry that no rule refuses: what it changes, one fact after another.
#[derive(Drop)]
pub struct Accepted {
    pub changes: List<FactChange>,
}

// The changes of an entry that is accepted. The commands that can't be given yet change nothing.
fn changes_of(alloc: Global, index: &Index, entry: &Entry) -> Result<List<FactChange>, AdmitStop>
    requires { spec.IsEntry entry.now }
    ensures follows { Follows result (admission index.now entry.now) }
    ensures changes { IfOk result (λ changes. changes ≡ spec.changes_of index.now entry.now) }
{
    match &entry.command {
        Command::SetAllow {
            node,
            version,
            etag,
            bindings,
        } => set_allow(alloc, index, entry, node, *version, *etag, bindings),
        Command::CreateFolder { parent, display } => create_folder(
            alloc, index, entry, parent, display,
        ),
        Command::CreateProject {
            project,
            parent,
            display,
        } => create_project(alloc, index, entry, project, parent, display),
        Command::RenameFolder { node, display } => rename_folder(
            alloc, index, entry, node, display,
        ),
        Command::DeleteNode { node } => delete_node(alloc, index, entry, node),
        Command::UndeleteNode { node } => undelete_node(alloc, index, entry, node),
        Command::Move { .. }
        | Command::CreateTagKey { .. }
        | Command::DeleteTagKey { .. }
        | Command::CreateTagValue { .. }
        | Command::DeleteTagValue { .. }
        | Command::BindTag { .. }
        | Command::UnbindTag { .. }
        | Command::CreateGroup { .. }
        | Command::DeleteGroup { .. }
        | Command::AddMember { .. }
        | Command::RemoveMember { .. }
        | Command::CreateRole { .. }
        | Command::UpdateRole { .. }
        | Command::DeleteRole { .. }
        | Command::UndeleteRole { .. }
        | Command::CreateDeny { .. }
        | Command::UpdateDeny { .. }
        | Command::DeleteDeny { .. }
        | Command::CreateBoundary { .. }
        | Command::UpdateBoundary { .. }
        | Command::DeleteBoundary { .. }
        | Command::CreateBound { .. }
        | Command::DeleteBound { .. } => Ok(List::new(alloc)),
    }
}

/// Judges an entry in the tables of the index: the first refusal in the order of refusals, or else its changes.
pub fn admit(
    alloc: Global,
    index: &Index,
    entry: &Entry,
) -> Result<Result<Accepted, Refusal>, OutOfMemory>
    requires { spec.IsEntry entry.now }
    ensures refused { IfOk result (λ judged. IfErr judged (λ refusal. admission index.now entry.now ≡ Some refusal)) }
    ensures accepted { IfOk result (λ judged. IfOk judged (λ accepted. admission index.now entry.now ≡ None)) }
    ensures formed { IfOk result (λ judged. IfOk judged (λ accepted. All IsChange accepted.changes)) }
    ensures changes { IfOk result (λ judged. IfOk judged (λ accepted. LeadTo index.now entry.now accepted.changes)) }
{
    accepted_entries_fit();
    changes_lead();
    changes_are_formed();
    let _tables = index.tables();
    match changes_of(alloc, index, entry) {
        Ok(changes) => Ok(Ok(Accepted { changes })),
        Err(AdmitStop::Refused(refusal)) => Ok(Err(refusal)),
        Err(AdmitStop::OutOfMemory) => Err(OutOfMemory),
    }
}
