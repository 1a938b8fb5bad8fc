// Principals of deny policies.
ghost use Rattle.std.specs.Prelude.{◌≡◌, ◌↔◌, IfOk, IsTrue};
ghost use Rattle.iam_names.specs.Deny.{deny_principal_text};

use crate::email::Email;
use crate::pool::{Pool, all_text, group_text, subject_text};
use crate::text::prefixed;
use iam_text::{OutOfMemory, Text};
use std::alloc::Global;

/// Whom a deny rule denies, or excepts.
#[derive(Clone, PartialEq, Eq, Drop)]
pub enum DenyPrincipal {
    Subject(Email),
    Service(Email),
    Group(Email),
    Public,
    Customer(Text),
    PoolSubject { pool: Pool, subject: Text },
    PoolGroup { pool: Pool, group: Text },
    PoolAll(Pool),
}

impl DenyPrincipal {
    pub fn text(&self, alloc: Global) -> Result<Text, OutOfMemory>
        ensures { IfOk result (λ text. text ≡ deny_principal_text self.now) }
    {
        match self {
            DenyPrincipal::Subject(email) => prefixed(
                alloc,
                "principal://goog/subject/",
                email.as_str(),
            ),
            DenyPrincipal::Service(email) => prefixed(
                alloc,
                "principal://iam.googleapis.com/projects/-/serviceAccounts/",
                email.as_str(),
            ),
            DenyPrincipal::Group(email) => prefixed(
                alloc,
                "principalSet://goog/group/",
                email.as_str(),
            ),
            DenyPrincipal::Public => Text::of(alloc, "principalSet://goog/public:all"),
            DenyPrincipal::Customer(customer) => prefixed(
                alloc,
                "principalSet://goog/cloudIdentityCustomerId/",
                customer.as_str(),
            ),
            DenyPrincipal::PoolSubject { pool, subject } => Ok(Text::from(subject_text(
                alloc, pool, subject,
            )?)),
            DenyPrincipal::PoolGroup { pool, group } => Ok(Text::from(group_text(
                alloc, pool, group,
            )?)),
            DenyPrincipal::PoolAll(pool) => Ok(Text::from(all_text(alloc, pool)?)),
        }
    }
}

pub fn same_deny_principal(a: &DenyPrincipal, b: &DenyPrincipal) -> bool
    ensures { IsTrue result ↔ (a.now ≡ b.now) }
{
    *a == *b
}

pub fn copy_deny_principal(principal: &DenyPrincipal) -> Result<DenyPrincipal, OutOfMemory>
    ensures { IfOk result (λ copy. copy ≡ principal.now) }
{
    match principal.clone() {
        Ok(copy) => Ok(copy),
        Err(_) => Err(OutOfMemory),
    }
}
