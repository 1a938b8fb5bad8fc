// Who is held by a member.
ghost use Rattle.std.specs.Prelude.{◌≡◌};
ghost use Rattle.std.specs.List.{list_any};
ghost use Rattle.std.specs.Str.{bytes_eq};
ghost use Rattle.iam_model.specs.Holds as holds_spec;
ghost use Rattle.iam_model.specs.Same as same_spec;

use iam_names::{Caller, Email, Member, Pool};
use iam_text::{List, Text};
use iam_types::Tables;

fn same_pool(a: &Pool, b: &Pool) -> bool
    ensures { result ≡ same_spec.same_pool a.now b.now }
{
    *a == *b
}

fn same_email(a: &Email, b: &Email) -> bool
    ensures { result ≡ bytes_eq a.now b.now }
{
    a.as_str() == b.as_str()
}

fn same_text(a: &Text, b: &Text) -> bool
    ensures { result ≡ bytes_eq a.now b.now }
{
    a.as_str() == b.as_str()
}

fn has_group(groups: &[Text], group: &Text) -> bool
    ensures { result ≡ list_any (λ of_caller. bytes_eq group.now of_caller) groups.now }
{
    groups.iter().any(|of_caller| same_text(group, of_caller))
}

fn holds_anonymous(tables: &Tables, member: &Member) -> bool
    ensures { result ≡ holds_spec.holds tables.now member.now Caller.Anonymous }
{
    match member {
        Member::AllUsers => true,
        Member::AllAuthenticated
        | Member::User(_)
        | Member::Service(_)
        | Member::Domain(_)
        | Member::Group(_)
        | Member::PoolSubject { .. }
        | Member::PoolGroup { .. }
        | Member::PoolAll(_)
        | Member::Deleted(_) => false,
    }
}

fn holds_user(tables: &Tables, member: &Member, user: &Email) -> bool
    ensures { result ≡ holds_spec.holds tables.now member.now (Caller.User user.now) }
{
    match member {
        Member::AllUsers | Member::AllAuthenticated => true,
        Member::User(email) => same_email(email, user),
        Member::Domain(domain) => domain.as_str() == user.domain(),
        Member::Service(_)
        | Member::Group(_)
        | Member::PoolSubject { .. }
        | Member::PoolGroup { .. }
        | Member::PoolAll(_)
        | Member::Deleted(_) => false,
    }
}

fn holds_service(tables: &Tables, member: &Member, service: &Email) -> bool
    ensures { result ≡ holds_spec.holds tables.now member.now (Caller.Service service.now) }
{
    match member {
        Member::AllUsers | Member::AllAuthenticated => true,
        Member::Service(email) => same_email(email, service),
        Member::User(_)
        | Member::Domain(_)
        | Member::Group(_)
        | Member::PoolSubject { .. }
        | Member::PoolGroup { .. }
        | Member::PoolAll(_)
        | Member::Deleted(_) => false,
    }
}

fn holds_pooled(
    tables: &Tables,
    member: &Member,
    pool: &Pool,
    subject: &Text,
    groups: &List<Text>,
) -> bool
    ensures { result ≡ holds_spec.holds tables.now member.now (Caller.Pooled pool.now subject.now groups.now) }
{
    match member {
        Member::AllUsers => true,
        Member::PoolSubject {
            pool: of,
            subject: only,
        } => same_pool(of, pool) && same_text(only, subject),
        Member::PoolGroup { pool: of, group } => same_pool(of, pool)
            && has_group(groups.as_slice(), group),
        Member::PoolAll(of) => same_pool(of, pool),
        Member::AllAuthenticated
        | Member::User(_)
        | Member::Service(_)
        | Member::Domain(_)
        | Member::Group(_)
        | Member::Deleted(_) => false,
    }
}

/// Whether a member holds a caller.
pub fn holds(tables: &Tables, member: &Member, caller: &Caller) -> bool
    ensures { result ≡ holds_spec.holds tables.now member.now caller.now }
{
    match caller {
        Caller::Anonymous => holds_anonymous(tables, member),
        Caller::User(user) => holds_user(tables, member, user),
        Caller::Service(service) => holds_service(tables, member, service),
        Caller::Pooled {
            pool,
            subject,
            groups,
        } => holds_pooled(tables, member, pool, subject, groups),
    }
}
