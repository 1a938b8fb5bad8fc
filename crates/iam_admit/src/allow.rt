// The rules of the setting of an allow policy, a function each.
ghost use Rattle.std.specs.Prelude.{◌≡◌, ◌+◌, ◌<◌, ◌^◌, [], ◌∷◌, map, not, IfOk, Some};
ghost use Rattle.std.specs.List.{find};
ghost use Rattle.std.specs.Option.{option_copied};
ghost use Rattle.iam_types.specs.declared.refusal.LimitName.TheVariants.{Members, PolicyGroups, PolicyMembers};
ghost use Rattle.iam_model.specs.Allow as spec;
ghost use Rattle.iam_model.specs.Limits.{beyond};
ghost use Rattle.iam_model.specs.Nodes.{resolve};
ghost use Rattle.iam_model.specs.Policies as policy_spec;
ghost use Rattle.iam_model.specs.Refusals.{first_of, first_refusal};
ghost use Rattle.iam_model.specs.Shared.{other_etag};
ghost use Rattle.iam_law.specs.Admit.{asked_of_set_allow};
ghost use Rattle.iam_admit.specs.Follows.{Follows};

use crate::changes::set_changes;
use crate::queries::may_set;
use crate::rules::{active, few_changes, found, within};
use crate::stop::AdmitStop;
use iam_catalogue::Catalogue;
use iam_judge::Index;
use iam_model::changes_are_countable;
use iam_names::{NodeId, NodeName, copy_role_name};
use iam_readings::{
    bindings_at, count_groups, count_members, etag_of, is_role, is_version, members_after,
};
use iam_text::List;
use iam_types::{Binding, Entry, FactChange, LimitName, Refusal, Tables};
use std::alloc::Global;

// The etag, where one is given, is the policy's.
fn has_etag(tables: &Tables, node: NodeId, etag: Option<u64>) -> Result<(), AdmitStop>
    ensures { Follows result (other_etag (policy_spec.etag_of tables.now node) etag) }
{
    let Some(given) = etag else {
        return Ok(());
    };
    let current = etag_of(tables, node);
    if given != current {
        return Err(AdmitStop::Refused(Refusal::EtagMismatch { current }));
    }
    Ok(())
}

fn any_conditional(bindings: &[Binding]) -> bool
    ensures { result ≡ policy_spec.any_conditional bindings.now }
{
    bindings.iter().any(|binding| binding.condition.is_some())
}

// The write gives a condition, or it was read with its etag where one is stored.
fn needs_third(tables: &Tables, node: NodeId, etag: Option<u64>, bindings: &[Binding]) -> bool
    ensures { result ≡ spec.needs_third tables.now node etag bindings.now }
{
    any_conditional(bindings) || (etag.is_some() && any_conditional(bindings_at(tables, node)))
}

fn is_wrong_version(
    tables: &Tables,
    node: NodeId,
    version: u64,
    etag: Option<u64>,
    bindings: &[Binding],
) -> bool
    ensures { result ≡ spec.is_wrong_version tables.now node version etag bindings.now }
{
    !is_version(version) || (version < 3 && needs_third(tables, node, etag, bindings))
}

// The version fits the conditions.
fn has_version(
    tables: &Tables,
    node: NodeId,
    version: u64,
    etag: Option<u64>,
    bindings: &[Binding],
) -> Result<(), AdmitStop>
    ensures { Follows result (spec.wrong_version tables.now node version etag bindings.now) }
{
    if is_wrong_version(tables, node, version, etag, bindings) {
        return Err(AdmitStop::Refused(Refusal::Version { given: version }));
    }
    Ok(())
}

fn first_unknown<'a>(
    tables: &Tables,
    catalogue: &Catalogue,
    bindings: &'a [Binding],
) -> Option<&'a Binding>
    ensures { option_copied result ≡ find (λ binding. not (policy_spec.is_role tables.now binding.role)) bindings.now }
{
    bindings
        .iter()
        .find(|binding| !is_role(tables, catalogue, &binding.role))
}

// Each role is known.
fn has_roles(tables: &Tables, catalogue: &Catalogue, bindings: &[Binding]) -> Result<(), AdmitStop>
    ensures { Follows result (spec.unknown_role tables.now bindings.now) }
{
    match first_unknown(tables, catalogue, bindings) {
        Some(binding) => {
            let role = copy_role_name(&binding.role)?;
            Err(AdmitStop::Refused(Refusal::RoleUnknown { role }))
        }
        None => Ok(()),
    }
}

fn few_members(bindings: &[Binding]) -> Result<(), AdmitStop>
    ensures { Follows result (beyond (policy_spec.count_members bindings.now) PolicyMembers) }
{
    within(count_members(bindings)?, LimitName::PolicyMembers)
}

fn few_groups(alloc: Global, bindings: &[Binding]) -> Result<(), AdmitStop>
    ensures { Follows result (beyond (policy_spec.count_groups bindings.now) PolicyGroups) }
{
    within(count_groups(alloc, bindings)?, LimitName::PolicyGroups)
}

fn few_in_all(
    alloc: Global,
    tables: &Tables,
    node: NodeId,
    bindings: &List<Binding>,
) -> Result<(), AdmitStop>
    requires { tables.now.org.changes + 1 < 2 ^ 64 }
    ensures { Follows result (beyond (policy_spec.count_all_members (spec.set_policy tables.now node bindings.now).allows) Members) }
{
    within(
        members_after(alloc, tables, node, bindings)?,
        LimitName::Members,
    )
}

// The rules behind the permission, in their groups. (No condition can be given yet.)
fn policy_fits(
    alloc: Global,
    tables: &Tables,
    catalogue: &Catalogue,
    node: NodeId,
    version: u64,
    etag: Option<u64>,
    bindings: &List<Binding>,
) -> Result<(), AdmitStop>
    requires { tables.now.org.changes + 1 < 2 ^ 64 }
    ensures { Follows result (first_of (map first_of (spec.early_rules tables.now node version etag bindings.now ∷ [] ∷ spec.middle_rules tables.now bindings.now ∷ [] ∷ spec.late_rules tables.now node bindings.now ∷ []))) }
{
    let given = bindings.as_slice();
    has_etag(tables, node, etag)?;
    has_version(tables, node, version, etag, given)?;
    has_roles(tables, catalogue, given)?;
    few_members(given)?;
    few_groups(alloc, given)?;
    few_in_all(alloc, tables, node, bindings)?;
    few_changes(tables)
}

// The node of the name, where no rule refuses the setting of its allow policy.
fn keeps_rules(
    alloc: Global,
    index: &Index,
    entry: &Entry,
    name: &NodeName,
    version: u64,
    etag: Option<u64>,
    bindings: &List<Binding>,
) -> Result<NodeId, AdmitStop>
    requires { index.now.org.changes + 1 < 2 ^ 64 }
    ensures follows { Follows result (first_refusal ((spec.set_allow name.now version etag bindings.now).rules entry.now.moment index.now) (asked_of_set_allow index.now entry.now.caller entry.now.moment name.now bindings.now)) }
    ensures node { IfOk result (λ node. resolve index.now name.now ≡ Some node) }
{
    let tables = index.tables();
    let given = bindings.as_slice();
    let node = found(alloc, tables, name)?;
    active(alloc, tables, name, node)?;
    may_set(alloc, index, &entry.caller, entry.moment, node, given)?;
    let catalogue = index.catalogue();
    match policy_fits(alloc, tables, catalogue, node, version, etag, bindings) {
        Ok(()) => Ok(node),
        Err(stop) => Err(stop),
    }
}

/// The changes of the setting of an allow policy, where no rule refuses it.
pub fn set_allow(
    alloc: Global,
    index: &Index,
    entry: &Entry,
    name: &NodeName,
    version: u64,
    etag: Option<u64>,
    bindings: &List<Binding>,
) -> Result<List<FactChange>, AdmitStop>
    ensures follows { Follows result (first_refusal ((spec.set_allow name.now version etag bindings.now).rules entry.now.moment index.now) (asked_of_set_allow index.now entry.now.caller entry.now.moment name.now bindings.now)) }
    ensures changes { IfOk result (λ changes. changes ≡ (spec.set_allow name.now version etag bindings.now).changes entry.now.moment index.now) }
{
    changes_are_countable();
    let tables = index.tables();
    let node = keeps_rules(alloc, index, entry, name, version, etag, bindings)?;
    let changes = set_changes(alloc, tables, node, bindings)?;
    Ok(changes)
}
