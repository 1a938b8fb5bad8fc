// Callers.
ghost use Rattle.std.specs.Prelude.{◌≡◌, ◌↔◌, ◌++◌, IfOk, OnOk, IsTrue, codes, string_bytes};
ghost use Rattle.iam_names.specs.Caller.{groups_behind, caller_text, IsCaller};
ghost use Rattle.iam_names.specs.Reading.{IsRead, ReadsBack};

use crate::email::{Email, email_behind};
use crate::limits::NAME_BYTES;
use crate::pool::{Pool, subject_text};
use crate::text::prefixed;
use iam_text::{List, OutOfMemory, Text};
use std::alloc::{AllocError, Global};

/// Who makes a call.
#[derive(Clone, PartialEq, Eq, Drop)]
pub enum Caller {
    Anonymous,
    User(Email),
    Service(Email),
    Pooled {
        pool: Pool,
        subject: Text,
        groups: List<Text>,
    },
}

fn push_groups(text: &mut String, groups: &[Text]) -> Result<(), AllocError>
    ensures { OnOk result (string_bytes text.new ≡ string_bytes text.old ++ groups_behind (codes "#") groups.now) }
{
    let mut separator = "#";
    for group in groups {
        text.push_str(separator)?;
        text.push_str(group.as_str())?;
        separator = ",";
    }
    Ok(())
}

impl Caller {
    /// The caller that a text names: the anonymous one, or a user.
    pub fn read(alloc: Global, text: &str) -> Result<Option<Caller>, OutOfMemory>
        ensures read { IfOk result (IsRead IsCaller caller_text text.now) }
        ensures back { IfOk result (ReadsBack IsCaller caller_text text.now) }
    {
        if text.len() > NAME_BYTES {
            return Ok(None);
        }
        if text == "anonymous" {
            return Ok(Some(Caller::Anonymous));
        }
        if let Some(email) = email_behind(alloc, "user:", text)? {
            return Ok(Some(Caller::User(email)));
        }
        Ok(None)
    }

    pub fn text(&self, alloc: Global) -> Result<Text, OutOfMemory>
        ensures { IfOk result (λ text. text ≡ caller_text self.now) }
    {
        match self {
            Caller::Anonymous => Text::of(alloc, "anonymous"),
            Caller::User(email) => prefixed(alloc, "user:", email.as_str()),
            Caller::Service(email) => prefixed(alloc, "serviceAccount:", email.as_str()),
            Caller::Pooled {
                pool,
                subject,
                groups,
            } => {
                let mut text = subject_text(alloc, pool, subject)?;
                push_groups(&mut text, groups.as_slice())?;
                Ok(Text::from(text))
            }
        }
    }
}

pub fn same_caller(a: &Caller, b: &Caller) -> bool
    ensures { IsTrue result ↔ (a.now ≡ b.now) }
{
    *a == *b
}

pub fn copy_caller(caller: &Caller) -> Result<Caller, OutOfMemory>
    ensures { IfOk result (λ copy. copy ≡ caller.now) }
{
    match caller.clone() {
        Ok(copy) => Ok(copy),
        Err(_) => Err(OutOfMemory),
    }
}
