// The rules of the creation of folders and projects, a function each.
ghost use Rattle.std.specs.Prelude.{◌≡◌, ◌+◌, ◌<◌, ◌^◌, IfOk, IsSomeAnd, IsTrue, length, nat_lt};
ghost use Rattle.iam_names.specs.declared.node.NodeKind.TheVariants as kind;
ghost use Rattle.iam_types.specs.declared.refusal.LimitName.TheVariants.{ChildFolders, Nodes};
ghost use Rattle.iam_model.specs.Consistent.{Consistent};
ghost use Rattle.iam_model.specs.Creation as spec;
ghost use Rattle.iam_model.specs.Creation.{added};
ghost use Rattle.iam_model.specs.Hierarchy as hierarchy_spec;
ghost use Rattle.iam_model.specs.Hierarchy.{deepest};
ghost use Rattle.iam_model.specs.Limits.{beyond};
ghost use Rattle.iam_model.specs.Nodes.{exists, resolve};
ghost use Rattle.iam_model.specs.Refusals.{first_of, first_refusal, refused_if};
ghost use Rattle.iam_law.specs.Admit.{asked_of_creation};
ghost use Rattle.iam_admit.specs.Creating.{IsNew, IsNewFolder};
ghost use Rattle.iam_admit.specs.Follows.{Follows};

use crate::changes::creation_changes;
use crate::queries::may;
use crate::rules::{active, few_changes, found, has_free_name, within};
use crate::stop::AdmitStop;
use iam_judge::Index;
use iam_model::{changes_are_countable, new_nodes_are_counted};
use iam_names::{NodeId, NodeKind, NodeName};
use iam_readings::{DEEPEST, count_folders, depth_below, new_folder, new_project, project_with};
use iam_text::{List, OutOfMemory, Text};
use iam_types::{Entry, FactChange, Fault, LimitName, Node, Refusal, Tables};
use std::alloc::Global;

fn taken(alloc: Global, project: &Text) -> Result<Refusal, OutOfMemory>
    ensures { IfOk result (λ refusal. refusal ≡ Refusal.AlreadyExists project.now) }
{
    let name = Text::of(alloc, project.as_str())?;
    Ok(Refusal::AlreadyExists { name })
}

// No project has the id.
fn has_new_id(alloc: Global, tables: &Tables, project: &Text) -> Result<(), AdmitStop>
    ensures { Follows result (spec.taken_project_id tables.now project.now) }
{
    if project_with(tables, project).is_some() {
        Err(AdmitStop::Refused(taken(alloc, project)?))
    } else {
        Ok(())
    }
}

fn few_folders(tables: &Tables, node: &Node) -> Result<(), AdmitStop>
    requires { IsNewFolder tables.now node.now }
    ensures { Follows result (beyond (hierarchy_spec.count_folders (added node.now tables.now.nodes) node.now.parent) ChildFolders) }
{
    new_nodes_are_counted();
    within(
        count_folders(tables, node.parent) as u64 + 1,
        LimitName::ChildFolders,
    )
}

fn few_nodes(tables: &Tables, _node: &Node) -> Result<(), AdmitStop>
    requires { IsNew tables.now _node.now }
    ensures { Follows result (beyond (length (added _node.now tables.now.nodes)) Nodes) }
{
    new_nodes_are_counted();
    within(tables.nodes.len() as u64 + 1, LimitName::Nodes)
}

// The parent is the organisation or a folder.
fn may_be_parent(parent: NodeId) -> Result<(), AdmitStop>
    ensures { Follows result (spec.wrong_parent parent) }
{
    match parent.kind {
        NodeKind::Organization | NodeKind::Folder => Ok(()),
        NodeKind::Project => Err(AdmitStop::Refused(Refusal::Hierarchy {
            counted: 0,
            limit: 0,
            which: Fault::Parent,
        })),
    }
}

fn not_too_deep(counted: u64) -> Result<(), AdmitStop>
    ensures { Follows result (refused_if (nat_lt deepest counted) (Refusal.Hierarchy counted deepest Fault.Depth)) }
{
    if counted > DEEPEST {
        return Err(AdmitStop::Refused(Refusal::Hierarchy {
            counted,
            limit: DEEPEST,
            which: Fault::Depth,
        }));
    }
    Ok(())
}

fn is_shallow(tables: &Tables, node: &Node) -> Result<(), AdmitStop>
    requires { IsNewFolder tables.now node.now }
    ensures { Follows result (spec.too_deep (added node.now tables.now.nodes) node.now.parent) }
{
    new_nodes_are_counted();
    not_too_deep(depth_below(tables, node.parent))
}

// No ACTIVE folder with the same parent has the folder's name.
fn has_new_name(tables: &Tables, node: &Node) -> Result<(), AdmitStop>
    requires { IsNewFolder tables.now node.now }
    ensures { Follows result (spec.taken_name (added node.now tables.now.nodes) node.now) }
{
    new_nodes_are_counted();
    has_free_name(tables, node)
}

fn folder_fits(tables: &Tables, node: &Node) -> Result<(), AdmitStop>
    requires new { IsNewFolder tables.now node.now }
    requires changes { tables.now.org.changes + 1 < 2 ^ 64 }
    ensures { Follows result (first_of (spec.late_folder_rules tables.now node.now.parent node.now)) }
{
    few_folders(tables, node)?;
    few_nodes(tables, node)?;
    few_changes(tables)?;
    may_be_parent(node.parent)?;
    is_shallow(tables, node)?;
    has_new_name(tables, node)
}

fn project_fits(tables: &Tables, node: &Node) -> Result<(), AdmitStop>
    requires new { IsNew tables.now node.now }
    requires changes { tables.now.org.changes + 1 < 2 ^ 64 }
    ensures { Follows result (first_of (spec.late_project_rules tables.now node.now.parent node.now)) }
{
    few_nodes(tables, node)?;
    few_changes(tables)?;
    may_be_parent(node.parent)
}

// The folder, where no rule of the tables with it refuses it.
fn fitting_folder(
    alloc: Global,
    tables: &Tables,
    parent: NodeId,
    display: &Text,
) -> Result<Node, AdmitStop>
    requires consistent { Consistent tables.now }
    requires parent { IsTrue (exists tables.now parent) }
    requires changes { tables.now.org.changes + 1 < 2 ^ 64 }
    ensures follows { Follows result (first_of (spec.late_folder_rules tables.now parent (spec.new_folder tables.now parent display.now))) }
    ensures node { IfOk result (λ node. node ≡ spec.new_folder tables.now parent display.now) }
{
    let node = new_folder(alloc, tables, parent, display)?;
    folder_fits(tables, &node)?;
    Ok(node)
}

fn fitting_project(
    alloc: Global,
    tables: &Tables,
    project: &Text,
    parent: NodeId,
    display: &Text,
) -> Result<Node, AdmitStop>
    requires consistent { Consistent tables.now }
    requires changes { tables.now.org.changes + 1 < 2 ^ 64 }
    ensures follows { Follows result (first_of (spec.late_project_rules tables.now parent (spec.new_project tables.now project.now parent display.now))) }
    ensures node { IfOk result (λ node. node ≡ spec.new_project tables.now project.now parent display.now) }
{
    let node = new_project(alloc, tables, project, parent, display)?;
    project_fits(tables, &node)?;
    Ok(node)
}

// The folder, where no rule refuses its creation.
fn accepted_folder(
    alloc: Global,
    index: &Index,
    entry: &Entry,
    name: &NodeName,
    display: &Text,
) -> Result<Node, AdmitStop>
    requires consistent { Consistent index.now }
    requires changes { index.now.org.changes + 1 < 2 ^ 64 }
    ensures follows { Follows result (first_refusal ((spec.create_folder name.now display.now).rules entry.now.moment index.now) (asked_of_creation index.now entry.now.caller entry.now.moment kind.Folder name.now)) }
    ensures node { IfOk result (λ node. IsSomeAnd (resolve index.now name.now) (λ parent. node ≡ spec.new_folder index.now parent display.now)) }
{
    let tables = index.tables();
    let parent = found(alloc, tables, name)?;
    active(alloc, tables, name, parent)?;
    may(
        alloc,
        index,
        &entry.caller,
        entry.moment,
        "resourcemanager.folders.create",
        parent,
    )?;
    let node = fitting_folder(alloc, tables, parent, display)?;
    Ok(node)
}

// The project, where no rule refuses its creation.
fn accepted_project(
    alloc: Global,
    index: &Index,
    entry: &Entry,
    project: &Text,
    name: &NodeName,
    display: &Text,
) -> Result<Node, AdmitStop>
    requires consistent { Consistent index.now }
    requires changes { index.now.org.changes + 1 < 2 ^ 64 }
    ensures follows { Follows result (first_refusal ((spec.create_project project.now name.now display.now).rules entry.now.moment index.now) (asked_of_creation index.now entry.now.caller entry.now.moment kind.Project name.now)) }
    ensures node { IfOk result (λ node. IsSomeAnd (resolve index.now name.now) (λ parent. node ≡ spec.new_project index.now project.now parent display.now)) }
{
    let tables = index.tables();
    let parent = found(alloc, tables, name)?;
    active(alloc, tables, name, parent)?;
    has_new_id(alloc, tables, project)?;
    may(
        alloc,
        index,
        &entry.caller,
        entry.moment,
        "resourcemanager.projects.create",
        parent,
    )?;
    let node = fitting_project(alloc, tables, project, parent, display)?;
    Ok(node)
}

/// The changes of the creation of a folder, where no rule refuses it.
pub fn create_folder(
    alloc: Global,
    index: &Index,
    entry: &Entry,
    name: &NodeName,
    display: &Text,
) -> Result<List<FactChange>, AdmitStop>
    ensures follows { Follows result (first_refusal ((spec.create_folder name.now display.now).rules entry.now.moment index.now) (asked_of_creation index.now entry.now.caller entry.now.moment kind.Folder name.now)) }
    ensures changes { IfOk result (λ changes. changes ≡ (spec.create_folder name.now display.now).changes entry.now.moment index.now) }
{
    changes_are_countable();
    let tables = index.tables();
    let node = accepted_folder(alloc, index, entry, name, display)?;
    let changes = creation_changes(alloc, tables, node)?;
    Ok(changes)
}

/// The changes of the creation of a project, where no rule refuses it.
pub fn create_project(
    alloc: Global,
    index: &Index,
    entry: &Entry,
    project: &Text,
    name: &NodeName,
    display: &Text,
) -> Result<List<FactChange>, AdmitStop>
    ensures follows { Follows result (first_refusal ((spec.create_project project.now name.now display.now).rules entry.now.moment index.now) (asked_of_creation index.now entry.now.caller entry.now.moment kind.Project name.now)) }
    ensures changes { IfOk result (λ changes. changes ≡ (spec.create_project project.now name.now display.now).changes entry.now.moment index.now) }
{
    changes_are_countable();
    let tables = index.tables();
    let node = accepted_project(alloc, index, entry, project, name, display)?;
    let changes = creation_changes(alloc, tables, node)?;
    Ok(changes)
}
