// Counts that limits are set to. A count that no number holds is that of no list in memory.
ghost use Rattle.std.specs.Prelude.{◌≡◌, ◌+◌, ◌<◌, ◌^◌, IfOk};
ghost use Rattle.iam_text.specs.Put.{put};
ghost use Rattle.iam_model.specs.Allow.{set_policy};
ghost use Rattle.iam_model.specs.Part.{order_in};
ghost use Rattle.iam_model.specs.Parts.{allow_part};
ghost use Rattle.iam_model.specs.Policies as spec;

use crate::made::policy_after;
use iam_names::NodeId;
use iam_text::{List, Ordered, OutOfMemory};
use iam_types::{AllowPolicy, Binding, Tables};
use std::alloc::Global;
use std::cmp::Ordering;

fn add(count: u64, more: u64) -> Result<u64, OutOfMemory>
    ensures { IfOk result (λ sum. sum ≡ count + more) }
{
    match count.checked_add(more) {
        Some(sum) => Ok(sum),
        None => Err(OutOfMemory),
    }
}

/// Member appearances in a policy.
pub fn count_members(bindings: &[Binding]) -> Result<u64, OutOfMemory>
    ensures { IfOk result (λ count. count ≡ spec.count_members bindings.now) }
{
    let mut count = 0u64;
    for binding in bindings {
        count = add(count, binding.members.len() as u64)?;
    }
    Ok(count)
}

/// Member appearances in all policies.
pub fn count_all_members(allows: &[AllowPolicy]) -> Result<u64, OutOfMemory>
    ensures { IfOk result (λ count. count ≡ spec.count_all_members allows.now) }
{
    let mut count = 0u64;
    for policy in allows {
        let more = count_members(policy.bindings.as_slice())?;
        count = add(count, more)?;
    }
    Ok(count)
}

// All member appearances in these policies and one more.
fn count_more(rows: &[AllowPolicy], policy: &AllowPolicy) -> Result<u64, OutOfMemory>
    ensures { IfOk result (λ count. count ≡ spec.count_members policy.now.bindings + spec.count_all_members rows.now) }
{
    let new = count_members(policy.bindings.as_slice())?;
    let others = count_all_members(rows)?;
    add(new, others)
}

// All member appearances, with this policy in its place.
fn count_with(rows: &[AllowPolicy], policy: &AllowPolicy) -> Result<u64, OutOfMemory>
    ensures { IfOk result (λ count. count ≡ spec.count_all_members (put (order_in allow_part) policy.now rows.now)) }
{
    let mut count = 0u64;
    for (at, other) in rows.iter().enumerate() {
        match policy.order(other) {
            Ordering::Less => return add(count, count_more(rows.split_at(at).1, policy)?),
            Ordering::Equal => return add(count, count_more(rows.split_at(at + 1).1, policy)?),
            Ordering::Greater => {}
        }
        let more = count_members(other.bindings.as_slice())?;
        count = add(count, more)?;
    }
    add(count, count_more(&[], policy)?)
}

/// Member appearances in all policies, after a node got other bindings.
pub fn members_after(
    alloc: Global,
    tables: &Tables,
    node: NodeId,
    bindings: &List<Binding>,
) -> Result<u64, OutOfMemory>
    requires { tables.now.org.changes + 1 < 2 ^ 64 }
    ensures { IfOk result (λ count. count ≡ spec.count_all_members (set_policy tables.now node bindings.now).allows) }
{
    let policy = policy_after(alloc, tables, node, bindings)?;
    let count = count_with(tables.allows.as_slice(), &policy)?;
    Ok(count)
}
