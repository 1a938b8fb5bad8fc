// Folders and projects in bodies of requests.
ghost use Rattle.std.specs.Prelude.{◌≡◌, IfOk};
ghost use Rattle.serde_json.specs.View.{view};
ghost use Rattle.iam_json_data.specs.Reading.{Gives};
ghost use Rattle.iam_json.specs.NodeBodies.{ReadsNothing, ReadsFolderName, ReadsParent, ReadsNewFolder, ReadsRename, ReadsNewProject, display_or};

use iam_json_data::{BodyStop, FromJson, bad_here, read_member, read_required};
use iam_names::{NodeName, is_folder_display, is_project_display, is_project_id};
use iam_text::{OutOfMemory, Text};
use serde_json::Value;
use std::alloc::Global;

/// The display name of a folder as a request gives it.
#[derive(Drop)]
pub struct FolderDisplay {
    pub text: Text,
}

/// The display name of a project as a request gives it.
#[derive(Drop)]
pub struct ProjectDisplay {
    pub text: Text,
}

/// The id of a project as a request gives it.
#[derive(Drop)]
pub struct GivenId {
    pub text: Text,
}

/// A folder that is to be made.
#[derive(Drop)]
pub struct NewFolder {
    pub parent: NodeName,
    pub display: Text,
}

/// A project that is to be made.
#[derive(Drop)]
pub struct NewProject {
    pub project: Text,
    pub parent: NodeName,
    pub display: Text,
}

impl FromJson for FolderDisplay {
    ghost use Rattle.iam_json.specs.NodeBodies.{ReadsFolderDisplay};

    ghost reads = { ReadsFolderDisplay };

    fn from_json(alloc: Global, value: &Value) -> Result<FolderDisplay, BodyStop> {
        match value.as_str() {
            None => Err(bad_here(alloc)),
            Some(text) => {
                if is_folder_display(text) {
                    let text = Text::of(alloc, text)?;
                    return Ok(FolderDisplay { text });
                }
                Err(bad_here(alloc))
            }
        }
    }
}

impl FromJson for ProjectDisplay {
    ghost use Rattle.iam_json.specs.NodeBodies.{ReadsProjectDisplay};

    ghost reads = { ReadsProjectDisplay };

    fn from_json(alloc: Global, value: &Value) -> Result<ProjectDisplay, BodyStop> {
        match value.as_str() {
            None => Err(bad_here(alloc)),
            Some(text) => {
                if is_project_display(text) {
                    let text = Text::of(alloc, text)?;
                    return Ok(ProjectDisplay { text });
                }
                Err(bad_here(alloc))
            }
        }
    }
}

impl FromJson for GivenId {
    ghost use Rattle.iam_json.specs.NodeBodies.{ReadsProjectId};

    ghost reads = { ReadsProjectId };

    fn from_json(alloc: Global, value: &Value) -> Result<GivenId, BodyStop> {
        match value.as_str() {
            None => Err(bad_here(alloc)),
            Some(text) => {
                if is_project_id(text) {
                    let text = Text::of(alloc, text)?;
                    return Ok(GivenId { text });
                }
                Err(bad_here(alloc))
            }
        }
    }
}

/// An object, of which nothing is read.
pub fn read_nothing(alloc: Global, value: &Value) -> Result<(), BodyStop>
    ensures { Gives (ReadsNothing (view value.now)) result }
{
    if !value.is_object() {
        return Err(bad_here(alloc));
    }
    Ok(())
}

fn read_parent(alloc: Global, value: &Value) -> Result<NodeName, BodyStop>
    ensures { Gives (ReadsParent (view value.now)) result }
{
    read_required(alloc, "parent", value)
}

fn read_folder_name(alloc: Global, value: &Value) -> Result<FolderDisplay, BodyStop>
    ensures { Gives (ReadsFolderName (view value.now)) result }
{
    read_required(alloc, "displayName", value)
}

/// The folder that is to be made.
pub fn read_new_folder(alloc: Global, value: &Value) -> Result<NewFolder, BodyStop>
    ensures { Gives (ReadsNewFolder (view value.now)) result }
{
    if !value.is_object() {
        return Err(bad_here(alloc));
    }
    let parent = read_parent(alloc, value)?;
    let display = read_folder_name(alloc, value)?;
    Ok(NewFolder {
        parent,
        display: display.text,
    })
}

/// The new display name of a folder.
pub fn read_rename(alloc: Global, value: &Value) -> Result<FolderDisplay, BodyStop>
    ensures { Gives (ReadsRename (view value.now)) result }
{
    if !value.is_object() {
        return Err(bad_here(alloc));
    }
    read_folder_name(alloc, value)
}

// The display name of a project, which is its id where none is given.
fn display_or(
    alloc: Global,
    id: &Text,
    display: Option<ProjectDisplay>,
) -> Result<Text, OutOfMemory>
    ensures { IfOk result (λ text. text ≡ display_or id.now display) }
{
    match display {
        None => Text::of(alloc, id.as_str()),
        Some(display) => Ok(display.text),
    }
}

/// The project that is to be made.
pub fn read_new_project(alloc: Global, value: &Value) -> Result<NewProject, BodyStop>
    ensures { Gives (ReadsNewProject (view value.now)) result }
{
    if !value.is_object() {
        return Err(bad_here(alloc));
    }
    let id: GivenId = read_required(alloc, "projectId", value)?;
    let parent = read_parent(alloc, value)?;
    let given: Option<ProjectDisplay> = read_member(alloc, "displayName", value)?;
    let display = display_or(alloc, &id.text, given)?;
    Ok(NewProject {
        project: id.text,
        parent,
        display,
    })
}
