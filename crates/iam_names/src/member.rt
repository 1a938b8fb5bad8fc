// Members of allow policies.
ghost use Rattle.std.specs.Prelude.{◌≡◌, ◌↔◌, IfOk, IsTrue};
ghost use Rattle.iam_names.specs.Member.{member_text, IsMember};
ghost use Rattle.iam_names.specs.Reading.{IsRead, ReadsBack};

use crate::email::{Email, email_behind};
use crate::limits::NAME_BYTES;
use crate::pool::{Pool, all_text, group_text, subject_text};
use crate::text::prefixed;
use iam_text::{OutOfMemory, Text};
use std::alloc::Global;

/// A member of a binding. A deleted one is kept by what stands behind `deleted:`.
#[derive(Clone, PartialEq, Eq, Drop)]
pub enum Member {
    User(Email),
    Service(Email),
    Group(Email),
    Domain(Text),
    AllUsers,
    AllAuthenticated,
    PoolSubject { pool: Pool, subject: Text },
    PoolGroup { pool: Pool, group: Text },
    PoolAll(Pool),
    Deleted(Text),
}

/// A member of a group.
#[derive(Clone, PartialEq, Eq, Drop)]
pub enum Leaf {
    User(Email),
    Service(Email),
    Group(Email),
}

impl Member {
    /// The member that a text names: a user.
    pub fn read(alloc: Global, text: &str) -> Result<Option<Member>, OutOfMemory>
        ensures read { IfOk result (IsRead IsMember member_text text.now) }
        ensures back { IfOk result (ReadsBack IsMember member_text text.now) }
    {
        if text.len() > NAME_BYTES {
            return Ok(None);
        }
        if let Some(email) = email_behind(alloc, "user:", text)? {
            return Ok(Some(Member::User(email)));
        }
        Ok(None)
    }

    pub fn text(&self, alloc: Global) -> Result<Text, OutOfMemory>
        ensures { IfOk result (λ text. text ≡ member_text self.now) }
    {
        match self {
            Member::User(email) => prefixed(alloc, "user:", email.as_str()),
            Member::Service(email) => prefixed(alloc, "serviceAccount:", email.as_str()),
            Member::Group(email) => prefixed(alloc, "group:", email.as_str()),
            Member::Domain(domain) => prefixed(alloc, "domain:", domain.as_str()),
            Member::AllUsers => Text::of(alloc, "allUsers"),
            Member::AllAuthenticated => Text::of(alloc, "allAuthenticatedUsers"),
            Member::PoolSubject { pool, subject } => Ok(Text::from(subject_text(
                alloc, pool, subject,
            )?)),
            Member::PoolGroup { pool, group } => Ok(Text::from(group_text(alloc, pool, group)?)),
            Member::PoolAll(pool) => Ok(Text::from(all_text(alloc, pool)?)),
            Member::Deleted(member) => prefixed(alloc, "deleted:", member.as_str()),
        }
    }
}

pub fn same_member(a: &Member, b: &Member) -> bool
    ensures { IsTrue result ↔ (a.now ≡ b.now) }
{
    *a == *b
}

pub fn copy_member(member: &Member) -> Result<Member, OutOfMemory>
    ensures { IfOk result (λ copy. copy ≡ member.now) }
{
    match member.clone() {
        Ok(copy) => Ok(copy),
        Err(_) => Err(OutOfMemory),
    }
}

pub fn same_leaf(a: &Leaf, b: &Leaf) -> bool
    ensures { IsTrue result ↔ (a.now ≡ b.now) }
{
    *a == *b
}

pub fn copy_leaf(leaf: &Leaf) -> Result<Leaf, OutOfMemory>
    ensures { IfOk result (λ copy. copy ≡ leaf.now) }
{
    match leaf.clone() {
        Ok(copy) => Ok(copy),
        Err(_) => Err(OutOfMemory),
    }
}
