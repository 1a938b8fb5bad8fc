// The groups that a policy names.
ghost use Rattle.std.specs.Prelude.{◌≡◌, ◌++◌, IfOk, OnOk, length};
ghost use Rattle.std.specs.List.{flat_map, list_any};
ghost use Rattle.std.specs.Str.{bytes_eq};
ghost use Rattle.iam_model.specs.Policies as spec;
ghost use Rattle.iam_model.specs.Policies.{different, group_of};

use iam_names::{Email, Member, copy_email};
use iam_text::{List, OutOfMemory};
use iam_types::Binding;
use std::alloc::Global;

#[tactic(auto, using(crate::proofs::Grouping::no_group))]
fn push_group(groups: &mut List<Email>, member: &Member) -> Result<(), OutOfMemory>
    ensures { OnOk result (groups.new ≡ groups.old ++ group_of member.now) }
{
    match member {
        Member::Group(email) => groups.push(copy_email(email)?),
        _ => Ok(()),
    }
}

fn push_groups(groups: &mut List<Email>, members: &[Member]) -> Result<(), OutOfMemory>
    ensures { OnOk result (groups.new ≡ groups.old ++ flat_map group_of members.now) }
{
    for member in members {
        push_group(groups, member)?;
    }
    Ok(())
}

fn groups_in(alloc: Global, bindings: &[Binding]) -> Result<List<Email>, OutOfMemory>
    ensures { IfOk result (λ groups. groups ≡ spec.groups_in bindings.now) }
{
    let mut groups = List::new(alloc);
    for binding in bindings {
        push_groups(&mut groups, binding.members.as_slice())?;
    }
    Ok(groups)
}

fn stands_in(group: &Email, others: &[Email]) -> bool
    ensures { result ≡ list_any (bytes_eq group.now) others.now }
{
    others.iter().any(|other| *group == *other)
}

fn count_different(groups: &[Email]) -> usize
    ensures { result ≡ length (different groups.now) }
{
    let mut count = 0;
    for (at, group) in groups.iter().enumerate() {
        if !stands_in(group, groups.split_at(at + 1).1) {
            count += 1;
        }
    }
    count
}

/// Different groups in a policy.
pub fn count_groups(alloc: Global, bindings: &[Binding]) -> Result<u64, OutOfMemory>
    ensures { IfOk result (λ count. count ≡ spec.count_groups bindings.now) }
{
    let groups = groups_in(alloc, bindings)?;
    Ok(count_different(groups.as_slice()) as u64)
}
