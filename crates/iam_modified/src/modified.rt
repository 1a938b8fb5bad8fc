// The roles of which a change of a policy gives or takes grants.
ghost use Rattle.std.specs.Prelude.{◌≡◌, ◌++◌, ◌∷◌, [], IfOk, OnOk, length, map};
ghost use Rattle.std.specs.List.{list_all, list_any, take_while};
ghost use Rattle.std.specs.List.Sorted.{IsSorted, IsStable};
ghost use Rattle.std.specs.Ordering.{is_eq};
ghost use Rattle.iam_names.specs.Member.{member_text};
ghost use Rattle.iam_law.specs.Modified as spec;
ghost use Rattle.iam_modified.specs.Given.{all_given, are_granted, count_old, given_of, is_granted, modified_in, same_in, text_order};

use iam_names::{Member, RoleName, copy_role_name};
use iam_text::{List, OutOfMemory, Text};
use iam_types::{Binding, Condition, copy_condition};
use std::alloc::Global;
use std::cmp::Ordering;

/// What a binding gives: its role, by whose text it stands among others, and its members under its condition.
#[derive(Drop)]
pub struct Given {
    text: Text,
    role: RoleName,
    is_old: bool,
    members: List<Text>,
    condition: Option<Condition>,
}

fn texts(alloc: Global, members: &[Member]) -> Result<List<Text>, OutOfMemory>
    ensures { IfOk result (λ texts. texts ≡ map (λ member. member_text member) members.now) }
{
    let mut texts = List::new(alloc);
    for member in members {
        texts.push(member.text(alloc)?)?;
    }
    Ok(texts)
}

fn condition_of(condition: &Option<Condition>) -> Result<Option<Condition>, OutOfMemory>
    ensures { IfOk result (λ copy. copy ≡ condition.now) }
{
    match condition {
        None => Ok(None),
        Some(condition) => Ok(Some(copy_condition(condition)?)),
    }
}

fn given_by(alloc: Global, binding: &Binding, is_old: bool) -> Result<Given, OutOfMemory>
    ensures { IfOk result (λ given. given ≡ given_of is_old binding.now) }
{
    Ok(Given {
        text: binding.role.text(alloc)?,
        role: copy_role_name(&binding.role)?,
        is_old,
        members: texts(alloc, binding.members.as_slice())?,
        condition: condition_of(&binding.condition)?,
    })
}

fn push(all: &mut Vec<Given>, given: Given) -> Result<(), OutOfMemory>
    ensures { OnOk result (all.new.items ≡ all.old.items ++ given ∷ []) }
{
    match all.push(given) {
        Ok(()) => Ok(()),
        Err(_) => Err(OutOfMemory),
    }
}

fn push_given(
    alloc: Global,
    all: &mut Vec<Given>,
    bindings: &[Binding],
    is_old: bool,
) -> Result<(), OutOfMemory>
    ensures { OnOk result (all.new.items ≡ all.old.items ++ map (given_of is_old) bindings.now) }
{
    for binding in bindings {
        push(all, given_by(alloc, binding, is_old)?)?;
    }
    Ok(())
}

fn by_text(a: &Given, b: &Given) -> Ordering
    ensures { result ≡ text_order a.now b.now }
{
    a.text.cmp(&b.text)
}

// What the bindings of both policies give, by their roles, and of one role the old ones first.
fn sorted(alloc: Global, old: &[Binding], new: &[Binding]) -> Result<Vec<Given>, OutOfMemory>
    ensures ordered { IfOk result (λ all. IsSorted text_order all.items) }
    ensures stable { IfOk result (λ all. IsStable text_order (all_given old.now new.now) all.items) }
{
    let mut all = Vec::new(alloc);
    push_given(alloc, &mut all, old, true)?;
    push_given(alloc, &mut all, new, false)?;
    all.sort_by(by_text)?;
    Ok(all)
}

fn same_condition(a: &Option<Condition>, b: &Option<Condition>) -> bool
    ensures { result ≡ spec.same_condition a.now b.now }
{
    match (a, b) {
        (None, None) => true,
        (Some(a), Some(b)) => a.expression.as_str() == b.expression.as_str()
            && a.title.as_str() == b.title.as_str()
            && a.description.as_str() == b.description.as_str(),
        (None, Some(_)) | (Some(_), None) => false,
    }
}

fn gives(given: &Given, member: &Text, condition: &Option<Condition>) -> bool
    ensures { result ≡ list_any (λ text. spec.same_grant (text, given.now.condition) (member.now, condition.now)) given.now.members }
{
    given.members.as_slice().iter().any(|text| text.as_str() == member.as_str()
        && same_condition(&given.condition, condition))
}

fn has(given: &[Given], member: &Text, condition: &Option<Condition>) -> bool
    ensures { result ≡ is_granted given.now (member.now, condition.now) }
{
    given.iter().any(|one| gives(one, member, condition))
}

fn has_grants(given: &[Given], other: &Given) -> bool
    ensures { result ≡ list_all (λ text. is_granted given.now (text, other.now.condition)) other.now.members }
{
    other
        .members
        .as_slice()
        .iter()
        .all(|member| has(given, member, &other.condition))
}

fn has_all(given: &[Given], others: &[Given]) -> bool
    ensures { result ≡ are_granted given.now others.now }
{
    others.iter().all(|other| has_grants(given, other))
}

// How many at the front are of the old policy.
fn old_ones(run: &[Given]) -> usize
    ensures { result ≡ count_old run.now }
{
    for (at, given) in run.iter().enumerate() {
        if !given.is_old {
            return at;
        }
    }
    run.len()
}

fn same_grants(run: &[Given]) -> bool
    ensures { result ≡ same_in run.now }
{
    let (before, after) = run.split_at(old_ones(run));
    has_all(before, after) && has_all(after, before)
}

// How many at the front have the role of this one.
fn run_length(first: &Given, given: &[Given]) -> usize
    ensures { result ≡ length (take_while (λ other. is_eq (text_order first.now other)) given.now) }
{
    given
        .iter()
        .take_while(|other| by_text(first, other).is_eq())
        .count()
}

fn push_modified(
    modified: &mut List<RoleName>,
    first: &Given,
    run: &[Given],
) -> Result<(), OutOfMemory>
    ensures { OnOk result (modified.new ≡ modified.old ++ modified_in first.now run.now) }
{
    if same_grants(run) {
        return Ok(());
    }
    modified.push(copy_role_name(&first.role)?)
}

/// The roles of either policy of which the members, with their conditions, differ: by their texts in bytes, each once.
pub fn modified_roles(
    alloc: Global,
    old: &[Binding],
    new: &[Binding],
) -> Result<List<RoleName>, OutOfMemory>
    ensures { IfOk result (λ roles. roles ≡ spec.modified_roles old.now new.now) }
{
    let all = sorted(alloc, old, new)?;
    let mut modified = List::new(alloc);
    let mut left = all.as_slice();
    while let Some((first, _)) = left.split_first() {
        let (run, rest) = left.split_at(run_length(first, left));
        push_modified(&mut modified, first, run)?;
        left = rest;
    }
    Ok(modified)
}
