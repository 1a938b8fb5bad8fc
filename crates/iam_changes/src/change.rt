// The tables after an entry that fits: a match into one function a command.
ghost use Rattle.std.specs.Prelude.{◌≡◌, ◌+◌, ◌<◌, ◌≤◌, ◌^◌, OnOk, OnErr, None};
ghost use Rattle.iam_model.specs.Commands.{IsEntry, after, fits};
ghost use Rattle.iam_model.specs.Consistent.{Consistent};

use crate::allow::set_allow;
use crate::node_changes::{delete_node, rename_folder, undelete_node};
use crate::nodes::{create_folder, create_project};
use iam_model::{changes_are_countable, changes_keep_consistent};
use iam_text::OutOfMemory;
use iam_types::{Command, Entry, Tables};
use std::alloc::Global;

fn apply_command(tables: &mut Tables, alloc: Global, entry: &Entry) -> Result<(), OutOfMemory>
    requires next { tables.old.org.next ≤ tables.old.org.changes }
    requires changes { tables.old.org.changes + 1 < 2 ^ 64 }
    ensures ok { OnOk result (tables.new ≡ after tables.old entry.now) }
    ensures err { OnErr result (tables.new ≡ tables.old) }
{
    match &entry.command {
        Command::SetAllow { node, bindings, .. } => set_allow(tables, alloc, node, bindings),
        Command::CreateFolder { parent, display } => create_folder(tables, alloc, parent, display),
        Command::CreateProject {
            project,
            parent,
            display,
        } => create_project(tables, alloc, project, parent, display),
        Command::RenameFolder { node, display } => rename_folder(tables, alloc, node, display),
        Command::DeleteNode { node } => delete_node(tables, node),
        Command::UndeleteNode { node } => undelete_node(tables, node),
        Command::Move { .. }
        | Command::CreateTagKey { .. }
        | Command::DeleteTagKey { .. }
        | Command::CreateTagValue { .. }
        | Command::DeleteTagValue { .. }
        | Command::BindTag { .. }
        | Command::UnbindTag { .. }
        | Command::CreateGroup { .. }
        | Command::DeleteGroup { .. }
        | Command::AddMember { .. }
        | Command::RemoveMember { .. }
        | Command::CreateRole { .. }
        | Command::UpdateRole { .. }
        | Command::DeleteRole { .. }
        | Command::UndeleteRole { .. }
        | Command::CreateDeny { .. }
        | Command::UpdateDeny { .. }
        | Command::DeleteDeny { .. }
        | Command::CreateBoundary { .. }
        | Command::UpdateBoundary { .. }
        | Command::DeleteBoundary { .. }
        | Command::CreateBound { .. }
        | Command::DeleteBound { .. } => Ok(()),
    }
}

/// Makes the change of an entry that fits, which keeps the tables consistent.
pub fn apply(tables: &mut Tables, alloc: Global, entry: &Entry) -> Result<(), OutOfMemory>
    requires consistent { Consistent tables.old }
    requires formed { IsEntry entry.now }
    requires fitting { fits tables.old entry.now ≡ None }
    ensures ok { OnOk result (tables.new ≡ after tables.old entry.now) }
    ensures err { OnErr result (tables.new ≡ tables.old) }
    ensures kept { Consistent tables.new }
{
    changes_keep_consistent();
    changes_are_countable();
    apply_command(tables, alloc, entry)?;
    Ok(())
}
