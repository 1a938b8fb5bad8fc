// The rules that tables of facts may break, a function each.
ghost use Rattle.std.specs.Prelude.{◌≡◌, ◌↔◌, ◌≤◌, IfOk, IfSome, IfNone, IsTrue, length};
ghost use Rattle.std.specs.List.{All, list_all};
ghost use Rattle.iam_model.specs.Broken.{IsFirstBrokenBy};
ghost use Rattle.iam_types.specs.declared.refusal.LimitName.TheVariants.{Changes, ChildFolders, Nodes, PolicyGroups, PolicyMembers};
ghost use Rattle.iam_model.specs.Consistent.{Keeps, PoliciesStand, SetByChanges, WithinLimits};
ghost use Rattle.iam_model.specs.Hierarchy as hierarchy_spec;
ghost use Rattle.iam_model.specs.Limits as limit_spec;
ghost use Rattle.iam_model.specs.Nodes as node_spec;
ghost use Rattle.iam_model.specs.Policies as policy_spec;

use crate::hierarchy::broken_hierarchy;
use crate::numbers::numbers_fit;
use iam_catalogue::Catalogue;
use iam_readings::{
    count_all_members, count_folders, count_groups, count_members, exists, is_role, limit_of,
};
use iam_text::OutOfMemory;
use iam_types::{AllowPolicy, Binding, LimitName, Tables};
use std::alloc::Global;

fn nodes_exist(tables: &Tables) -> bool
    ensures { result ≡ list_all (λ policy. node_spec.exists tables.now policy.node) tables.now.allows }
{
    tables
        .allows
        .as_slice()
        .iter()
        .all(|policy| exists(tables, policy.node))
}

fn are_known(tables: &Tables, catalogue: &Catalogue, bindings: &[Binding]) -> bool
    ensures { result ≡ list_all (λ binding. policy_spec.is_role tables.now binding.role) bindings.now }
{
    bindings
        .iter()
        .all(|binding| is_role(tables, catalogue, &binding.role))
}

fn roles_are_known(tables: &Tables, catalogue: &Catalogue) -> bool
    ensures { result ≡ list_all (λ policy. list_all (λ binding. policy_spec.is_role tables.now binding.role) policy.bindings) tables.now.allows }
{
    tables.allows.as_slice().iter().all(|policy| are_known(
        tables,
        catalogue,
        policy.bindings.as_slice(),
    ))
}

fn policies_stand(tables: &Tables, catalogue: &Catalogue) -> bool
    ensures { IsTrue result ↔ PoliciesStand tables.now }
{
    nodes_exist(tables) && roles_are_known(tables, catalogue)
}

fn members_within(allows: &[AllowPolicy]) -> Result<bool, OutOfMemory>
    ensures { IfOk result (λ within. IsTrue within ↔ All (λ policy. policy_spec.count_members policy.bindings ≤ limit_spec.limit_of PolicyMembers) allows.now) }
{
    for policy in allows {
        let count = count_members(policy.bindings.as_slice())?;
        if count > limit_of(LimitName::PolicyMembers) {
            return Ok(false);
        }
    }
    Ok(true)
}

fn groups_within(alloc: Global, allows: &[AllowPolicy]) -> Result<bool, OutOfMemory>
    ensures { IfOk result (λ within. IsTrue within ↔ All (λ policy. policy_spec.count_groups policy.bindings ≤ limit_spec.limit_of PolicyGroups) allows.now) }
{
    for policy in allows {
        let count = count_groups(alloc, policy.bindings.as_slice())?;
        if count > limit_of(LimitName::PolicyGroups) {
            return Ok(false);
        }
    }
    Ok(true)
}

fn folders_within(tables: &Tables) -> bool
    ensures { IsTrue result ↔ All (λ node. hierarchy_spec.count_folders tables.now.nodes node.parent ≤ limit_spec.limit_of ChildFolders) tables.now.nodes }
{
    let limit = limit_of(LimitName::ChildFolders);
    tables
        .nodes
        .as_slice()
        .iter()
        .all(|row| count_folders(tables, row.parent) as u64 <= limit)
}

fn nodes_within(tables: &Tables) -> bool
    ensures { IsTrue result ↔ (length tables.now.nodes ≤ limit_spec.limit_of Nodes) }
{
    tables.nodes.len() as u64 <= limit_of(LimitName::Nodes)
}

fn changes_within(tables: &Tables) -> bool
    ensures { IsTrue result ↔ (tables.now.org.changes ≤ limit_spec.limit_of Changes) }
{
    tables.org.changes <= limit_of(LimitName::Changes)
}

// The groups come behind the members, which bound their number.
fn within_limits(alloc: Global, tables: &Tables) -> Result<bool, OutOfMemory>
    ensures { IfOk result (λ within. IsTrue within ↔ WithinLimits tables.now) }
{
    let allows = tables.allows.as_slice();
    if !members_within(allows)? {
        return Ok(false);
    }
    if !groups_within(alloc, allows)? {
        return Ok(false);
    }
    if !folders_within(tables) || !nodes_within(tables) || !changes_within(tables) {
        return Ok(false);
    }
    let members = count_all_members(allows)?;
    Ok(members <= limit_of(LimitName::Members))
}

fn set_by_changes(tables: &Tables) -> bool
    ensures { IsTrue result ↔ SetByChanges tables.now }
{
    tables.allows.as_slice().iter().all(|policy| policy.set >= 1
        && policy.set <= tables.org.changes)
}

/// The first rule that the tables break, by its number.
pub fn broken_rule(alloc: Global, tables: &Tables) -> Result<Option<u8>, OutOfMemory>
    ensures broken { IfOk result (λ broken. IfSome broken (IsFirstBrokenBy tables.now)) }
    ensures kept { IfOk result (λ broken. IfNone broken (Keeps tables.now)) }
{
    if let Some(rule) = broken_hierarchy(tables) {
        return Ok(Some(rule));
    }
    if !numbers_fit(tables) {
        return Ok(Some(6));
    }
    let catalogue = Catalogue::built_in(alloc)?;
    if !policies_stand(tables, &catalogue) {
        return Ok(Some(10));
    }
    if !within_limits(alloc, tables)? {
        return Ok(Some(13));
    }
    if !set_by_changes(tables) {
        return Ok(Some(14));
    }
    Ok(None)
}
