// The rules of the renaming, the deletion and the undeletion of folders and projects, a function each.
ghost use Rattle.std.specs.Prelude.{◌≡◌, ◌≢◌, ◌+◌, ◌<◌, ◌^◌, IfOk, IsTrue, codes};
ghost use Rattle.std.specs.Option.{option_map};
ghost use Rattle.iam_names.specs.declared.node.NodeKind.TheVariants as kind;
ghost use Rattle.iam_model.specs.NodeChanges as spec;
ghost use Rattle.iam_model.specs.Nodes.{exists, kind_named, row_named};
ghost use Rattle.iam_model.specs.Refusals.{first_refusal};
ghost use Rattle.iam_law.specs.Admit.{asked_of_change, change_query};
ghost use Rattle.iam_law.specs.Asked.{forbidden, permission_at};
ghost use Rattle.iam_admit.specs.Follows.{Follows};

use crate::changes::replaced_changes;
use crate::queries::may;
use crate::rules::{active, few_changes, found, has_free_name, not_active, within};
use crate::stop::AdmitStop;
use iam_judge::Index;
use iam_model::changes_are_countable;
use iam_names::NodeName;
use iam_readings::{
    count_folders, deleted, has_active_child, is_active, is_folder, renamed, row_named, undeleted,
};
use iam_text::{List, Text};
use iam_types::{Entry, FactChange, Fault, LimitName, Node, Refusal, Tables};
use std::alloc::Global;

// ---- who may

fn may_rename(
    alloc: Global,
    index: &Index,
    entry: &Entry,
    name: &NodeName,
    row: &Node,
) -> Result<(), AdmitStop>
    requires name { kind_named name.now ≡ kind.Folder }
    requires there { IsTrue (exists index.now row.now.id) }
    ensures { Follows result (forbidden index.now (change_query entry.now.caller entry.now.moment name.now (codes "update") row.now)) }
{
    may(
        alloc,
        index,
        &entry.caller,
        entry.moment,
        "resourcemanager.folders.update",
        row.id,
    )
}

fn delete_text(name: &NodeName) -> &'static str
    requires { kind_named name.now ≢ kind.Organization }
    ensures { result.now ≡ permission_at (kind_named name.now) (codes "delete") }
{
    match name {
        NodeName::Folder(_) => "resourcemanager.folders.delete",
        NodeName::Organization(_) | NodeName::ProjectNumber(_) | NodeName::ProjectId(_) => {
            "resourcemanager.projects.delete"
        }
    }
}

fn may_delete(
    alloc: Global,
    index: &Index,
    entry: &Entry,
    name: &NodeName,
    row: &Node,
) -> Result<(), AdmitStop>
    requires name { kind_named name.now ≢ kind.Organization }
    requires there { IsTrue (exists index.now row.now.id) }
    ensures { Follows result (forbidden index.now (change_query entry.now.caller entry.now.moment name.now (codes "delete") row.now)) }
{
    let text = delete_text(name);
    may(alloc, index, &entry.caller, entry.moment, text, row.id)
}

fn undelete_text(name: &NodeName) -> &'static str
    requires { kind_named name.now ≢ kind.Organization }
    ensures { result.now ≡ permission_at (kind_named name.now) (codes "undelete") }
{
    match name {
        NodeName::Folder(_) => "resourcemanager.folders.undelete",
        NodeName::Organization(_) | NodeName::ProjectNumber(_) | NodeName::ProjectId(_) => {
            "resourcemanager.projects.undelete"
        }
    }
}

fn may_undelete(
    alloc: Global,
    index: &Index,
    entry: &Entry,
    name: &NodeName,
    row: &Node,
) -> Result<(), AdmitStop>
    requires name { kind_named name.now ≢ kind.Organization }
    requires there { IsTrue (exists index.now row.now.id) }
    ensures { Follows result (forbidden index.now (change_query entry.now.caller entry.now.moment name.now (codes "undelete") row.now)) }
{
    let text = undelete_text(name);
    may(alloc, index, &entry.caller, entry.moment, text, row.id)
}

// ---- what the tables refuse

// Nothing ACTIVE stands below the node.
fn is_empty(tables: &Tables, node: &Node) -> Result<(), AdmitStop>
    ensures { Follows result (spec.not_empty tables.now node.now) }
{
    if has_active_child(tables, node.id) {
        return Err(AdmitStop::Refused(Refusal::Hierarchy {
            counted: 0,
            limit: 0,
            which: Fault::NotEmpty,
        }));
    }
    Ok(())
}

// The node is deleted, and its parent isn't.
fn is_deleted(alloc: Global, tables: &Tables, name: &NodeName, node: &Node) -> Result<(), AdmitStop>
    ensures { Follows result (spec.not_deleted tables.now name.now node.now) }
{
    if node.active || !is_active(tables, node.parent) {
        Err(AdmitStop::Refused(not_active(alloc, name)?))
    } else {
        Ok(())
    }
}

// As an ACTIVE folder it isn't one too many.
fn few_folders(tables: &Tables, node: &Node) -> Result<(), AdmitStop>
    ensures { Follows result (spec.many_folders tables.now node.now) }
{
    if is_folder(node.id) {
        within(
            count_folders(tables, node.parent) as u64 + 1,
            LimitName::ChildFolders,
        )
    } else {
        Ok(())
    }
}

// ---- the nodes that they become, where no rule refuses it

fn renamed_folder(
    alloc: Global,
    index: &Index,
    entry: &Entry,
    name: &NodeName,
    display: &Text,
) -> Result<Option<Node>, AdmitStop>
    requires name { kind_named name.now ≡ kind.Folder }
    requires changes { index.now.org.changes + 1 < 2 ^ 64 }
    ensures follows { Follows result (first_refusal ((spec.rename_folder name.now display.now).rules entry.now.moment index.now) (asked_of_change index.now entry.now.caller entry.now.moment name.now (codes "update"))) }
    ensures node { IfOk result (λ node. node ≡ option_map (spec.renamed display.now) (row_named index.now name.now)) }
{
    let tables = index.tables();
    found(alloc, tables, name)?;
    let Some(row) = row_named(tables, name) else {
        return Ok(None);
    };
    active(alloc, tables, name, row.id)?;
    may_rename(alloc, index, entry, name, row)?;
    few_changes(tables)?;
    let node = renamed(alloc, row, display)?;
    has_free_name(tables, &node)?;
    Ok(Some(node))
}

fn deleted_node(
    alloc: Global,
    index: &Index,
    entry: &Entry,
    name: &NodeName,
) -> Result<Option<Node>, AdmitStop>
    requires name { kind_named name.now ≢ kind.Organization }
    requires changes { index.now.org.changes + 1 < 2 ^ 64 }
    ensures follows { Follows result (first_refusal ((spec.delete_node name.now).rules entry.now.moment index.now) (asked_of_change index.now entry.now.caller entry.now.moment name.now (codes "delete"))) }
    ensures node { IfOk result (λ node. node ≡ option_map spec.deleted (row_named index.now name.now)) }
{
    let tables = index.tables();
    found(alloc, tables, name)?;
    let Some(row) = row_named(tables, name) else {
        return Ok(None);
    };
    active(alloc, tables, name, row.id)?;
    may_delete(alloc, index, entry, name, row)?;
    few_changes(tables)?;
    is_empty(tables, row)?;
    let node = deleted(row)?;
    Ok(Some(node))
}

fn undeleted_node(
    alloc: Global,
    index: &Index,
    entry: &Entry,
    name: &NodeName,
) -> Result<Option<Node>, AdmitStop>
    requires name { kind_named name.now ≢ kind.Organization }
    requires changes { index.now.org.changes + 1 < 2 ^ 64 }
    ensures follows { Follows result (first_refusal ((spec.undelete_node name.now).rules entry.now.moment index.now) (asked_of_change index.now entry.now.caller entry.now.moment name.now (codes "undelete"))) }
    ensures node { IfOk result (λ node. node ≡ option_map spec.undeleted (row_named index.now name.now)) }
{
    let tables = index.tables();
    found(alloc, tables, name)?;
    let Some(row) = row_named(tables, name) else {
        return Ok(None);
    };
    is_deleted(alloc, tables, name, row)?;
    may_undelete(alloc, index, entry, name, row)?;
    few_folders(tables, row)?;
    few_changes(tables)?;
    let node = undeleted(row)?;
    has_free_name(tables, &node)?;
    Ok(Some(node))
}

// ---- the changes of facts

/// The changes of the renaming of a folder, where no rule refuses it.
pub fn rename_folder(
    alloc: Global,
    index: &Index,
    entry: &Entry,
    name: &NodeName,
    display: &Text,
) -> Result<List<FactChange>, AdmitStop>
    requires { kind_named name.now ≡ kind.Folder }
    ensures follows { Follows result (first_refusal ((spec.rename_folder name.now display.now).rules entry.now.moment index.now) (asked_of_change index.now entry.now.caller entry.now.moment name.now (codes "update"))) }
    ensures changes { IfOk result (λ changes. changes ≡ spec.changes_made (spec.renamed display.now) index.now name.now) }
{
    changes_are_countable();
    let tables = index.tables();
    match renamed_folder(alloc, index, entry, name, display)? {
        None => Ok(List::new(alloc)),
        Some(node) => Ok(replaced_changes(alloc, tables, node)?),
    }
}

/// The changes of the deletion of a folder or a project, where no rule refuses it.
pub fn delete_node(
    alloc: Global,
    index: &Index,
    entry: &Entry,
    name: &NodeName,
) -> Result<List<FactChange>, AdmitStop>
    requires { kind_named name.now ≢ kind.Organization }
    ensures follows { Follows result (first_refusal ((spec.delete_node name.now).rules entry.now.moment index.now) (asked_of_change index.now entry.now.caller entry.now.moment name.now (codes "delete"))) }
    ensures changes { IfOk result (λ changes. changes ≡ spec.changes_made spec.deleted index.now name.now) }
{
    changes_are_countable();
    let tables = index.tables();
    match deleted_node(alloc, index, entry, name)? {
        None => Ok(List::new(alloc)),
        Some(node) => Ok(replaced_changes(alloc, tables, node)?),
    }
}

/// The changes of the undeletion of a folder or a project, where no rule refuses it.
pub fn undelete_node(
    alloc: Global,
    index: &Index,
    entry: &Entry,
    name: &NodeName,
) -> Result<List<FactChange>, AdmitStop>
    requires { kind_named name.now ≢ kind.Organization }
    ensures follows { Follows result (first_refusal ((spec.undelete_node name.now).rules entry.now.moment index.now) (asked_of_change index.now entry.now.caller entry.now.moment name.now (codes "undelete"))) }
    ensures changes { IfOk result (λ changes. changes ≡ spec.changes_made spec.undeleted index.now name.now) }
{
    changes_are_countable();
    let tables = index.tables();
    match undeleted_node(alloc, index, entry, name)? {
        None => Ok(List::new(alloc)),
        Some(node) => Ok(replaced_changes(alloc, tables, node)?),
    }
}
