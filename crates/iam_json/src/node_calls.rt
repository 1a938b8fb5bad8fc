// The calls that speak of nodes alone: what is read and listed of them, and what makes and changes them.
ghost use Rattle.std.specs.Prelude.{IfOk};
ghost use Rattle.serde_json.specs.View.{view};
ghost use Rattle.iam_names.specs.declared.node.NodeName.{NodeName};
ghost use Rattle.iam_json_data.specs.Reading.{Gives};
ghost use Rattle.iam_json.specs.Calls.{NamesNode, NamesFolder, NamesChild, ReadsNodeReading, ReadsFolderListing, ReadsProjectListing, ReadsFolderCreation, ReadsProjectCreation, ReadsFolderRenaming, ReadsNodeDeletion, ReadsNodeUndeletion};

use crate::call::{Call, node_of};
use crate::node::{read_new_folder, read_new_project, read_nothing, read_rename};
use crate::query::read_node_at;
use iam_json_data::BodyStop;
use iam_names::NodeName;
use iam_text::{OutOfMemory, Text};
use iam_types::{Ask, Command};
use serde_json::Value;
use std::alloc::Global;

pub fn node_reading(alloc: Global, parts: &[Text], value: &Value) -> Result<Call, BodyStop>
    requires { (node : NodeName) × NamesNode parts.now node }
    ensures { Gives (ReadsNodeReading parts.now (view value.now)) result }
{
    let node = node_of(alloc, parts)?;
    read_nothing(alloc, value)?;
    Ok(Call::Read(Ask::Node { node }))
}

pub fn folder_listing(
    alloc: Global,
    pairs: &[(Text, Text)],
    value: &Value,
) -> Result<Call, BodyStop>
    ensures { Gives (ReadsFolderListing pairs.now (view value.now)) result }
{
    let parent = read_node_at(alloc, "parent", pairs)?;
    read_nothing(alloc, value)?;
    Ok(Call::Read(Ask::Folders { parent }))
}

pub fn project_listing(
    alloc: Global,
    pairs: &[(Text, Text)],
    value: &Value,
) -> Result<Call, BodyStop>
    ensures { Gives (ReadsProjectListing pairs.now (view value.now)) result }
{
    let parent = read_node_at(alloc, "parent", pairs)?;
    read_nothing(alloc, value)?;
    Ok(Call::Read(Ask::Projects { parent }))
}

pub fn folder_creation(alloc: Global, value: &Value) -> Result<Call, BodyStop>
    ensures { Gives (ReadsFolderCreation (view value.now)) result }
{
    let folder = read_new_folder(alloc, value)?;
    Ok(Call::Write(Command::CreateFolder {
        parent: folder.parent,
        display: folder.display,
    }))
}

pub fn project_creation(alloc: Global, value: &Value) -> Result<Call, BodyStop>
    ensures { Gives (ReadsProjectCreation (view value.now)) result }
{
    let new = read_new_project(alloc, value)?;
    Ok(Call::Write(Command::CreateProject {
        project: new.project,
        parent: new.parent,
        display: new.display,
    }))
}

fn folder_of(alloc: Global, parts: &[Text]) -> Result<NodeName, OutOfMemory>
    requires { (node : NodeName) × NamesFolder parts.now node }
    ensures { IfOk result (NamesFolder parts.now) }
{
    node_of(alloc, parts)
}

fn child_of(alloc: Global, parts: &[Text]) -> Result<NodeName, OutOfMemory>
    requires { (node : NodeName) × NamesChild parts.now node }
    ensures { IfOk result (NamesChild parts.now) }
{
    node_of(alloc, parts)
}

pub fn folder_renaming(alloc: Global, parts: &[Text], value: &Value) -> Result<Call, BodyStop>
    requires { (node : NodeName) × NamesFolder parts.now node }
    ensures { Gives (ReadsFolderRenaming parts.now (view value.now)) result }
{
    let node = folder_of(alloc, parts)?;
    let display = read_rename(alloc, value)?;
    Ok(Call::Write(Command::RenameFolder {
        node,
        display: display.text,
    }))
}

pub fn node_deletion(alloc: Global, parts: &[Text], value: &Value) -> Result<Call, BodyStop>
    requires { (node : NodeName) × NamesChild parts.now node }
    ensures { Gives (ReadsNodeDeletion parts.now (view value.now)) result }
{
    let node = child_of(alloc, parts)?;
    read_nothing(alloc, value)?;
    Ok(Call::Write(Command::DeleteNode { node }))
}

pub fn node_undeletion(alloc: Global, parts: &[Text], value: &Value) -> Result<Call, BodyStop>
    requires { (node : NodeName) × NamesChild parts.now node }
    ensures { Gives (ReadsNodeUndeletion parts.now (view value.now)) result }
{
    let node = child_of(alloc, parts)?;
    read_nothing(alloc, value)?;
    Ok(Call::Write(Command::UndeleteNode { node }))
}
