// What refusals show beside their reasons.
ghost use Rattle.std.specs.Prelude.{◌≡◌, IfOk, codes};
ghost use Rattle.serde_json.specs.Data.{string, object, no_members};
ghost use Rattle.serde_json.specs.View.{view};
ghost use Rattle.iam_names.specs.Role.{role_text};
ghost use Rattle.iam_json_data.specs.Etag.{etag_text_of};
ghost use Rattle.iam_json.specs.Refusals.{only, count_data, limit_text, fault_text, refusal_details, details_data};

use iam_json_data::etag_value;
use iam_names::RoleName;
use iam_text::{OutOfMemory, Text};
use iam_types::{Fault, LimitName, Refusal};
use serde_json::{Map, Value, json, put};
use std::alloc::Global;

/// What a refusal shows beside its reason. The refusals that a state gives are `Refused`.
#[derive(Drop)]
pub enum Details {
    BadHead,
    BadJson,
    BadField {
        path: Text,
    },
    NoRoute,
    BadMethod,
    BodyTooLarge {
        declared: u64,
        limit: u64,
    },
    NeedLength,
    BadCaller,
    Refused(Refusal),
    KeeperFault,
    ClockFault,
    OutOfMemory {
        /// Whether the change is kept although its reply could not be made.
        stored: bool,
    },
}

fn limit_text(which: LimitName) -> &'static str
    ensures { result.now ≡ limit_text which }
{
    match which {
        LimitName::PolicyMembers => "POLICY_MEMBERS",
        LimitName::PolicyGroups => "POLICY_GROUPS",
        LimitName::SameRoleConditions => "SAME_ROLE_CONDITIONS",
        LimitName::Operators => "OPERATORS",
        LimitName::DenyRules => "DENY_RULES",
        LimitName::BoundaryRules => "BOUNDARY_RULES",
        LimitName::BoundaryResources => "BOUNDARY_RESOURCES",
        LimitName::SetBindings => "SET_BINDINGS",
        LimitName::TagBindings => "TAG_BINDINGS",
        LimitName::ChildFolders => "CHILD_FOLDERS",
        LimitName::PermissionsAsked => "PERMISSIONS_ASKED",
        LimitName::RolePermissions => "ROLE_PERMISSIONS",
        LimitName::Nodes => "NODES",
        LimitName::Tags => "TAGS",
        LimitName::Groups => "GROUPS",
        LimitName::Edges => "EDGES",
        LimitName::Roles => "ROLES",
        LimitName::Members => "MEMBERS",
        LimitName::DenyEntries => "DENY_ENTRIES",
        LimitName::Boundaries => "BOUNDARIES",
        LimitName::Bounds => "BOUNDS",
        LimitName::ConditionBytes => "CONDITION_BYTES",
        LimitName::Changes => "CHANGES",
    }
}

fn fault_text(which: Fault) -> &'static str
    ensures { result.now ≡ fault_text which }
{
    match which {
        Fault::Parent => "PARENT",
        Fault::Cycle => "CYCLE",
        Fault::Depth => "DEPTH",
        Fault::SiblingName => "SIBLING_NAME",
        Fault::NotEmpty => "NOT_EMPTY",
    }
}

pub fn empty(alloc: Global) -> Value
    ensures { view result ≡ object no_members }
{
    Value::Object(Map::new(alloc))
}

fn only_text(alloc: Global, name: &str, text: &str) -> Result<Value, OutOfMemory>
    ensures { IfOk result (λ v. view v ≡ only name.now (string text.now)) }
{
    let mut members = Map::new(alloc);
    put(&mut members, alloc, name, Value::try_from_str(alloc, text)?)?;
    Ok(Value::Object(members))
}

fn only_role(alloc: Global, role: &RoleName) -> Result<Value, OutOfMemory>
    ensures { IfOk result (λ v. view v ≡ only (codes "role") (string (role_text role.now))) }
{
    let text = role.text(alloc)?;
    only_text(alloc, "role", text.as_str())
}

fn only_etag(alloc: Global, current: u64) -> Result<Value, OutOfMemory>
    ensures { IfOk result (λ v. view v ≡ only (codes "current") (string (etag_text_of current))) }
{
    let etag = etag_value(alloc, current)?;
    Ok(json!(in alloc; {"current": etag})?)
}

fn count_value(alloc: Global, counted: u64, limit: u64, which: &str) -> Result<Value, OutOfMemory>
    ensures { IfOk result (λ v. view v ≡ count_data counted limit which.now) }
{
    Ok(json!(in alloc; {"counted": counted, "limit": limit, "which": which})?)
}

fn revisions_value(alloc: Global, asked: u64, known: u64) -> Result<Value, OutOfMemory>
    ensures { IfOk result (λ v. view v ≡ refusal_details (Refusal.FutureRevision asked known)) }
{
    Ok(json!(in alloc; {"asked": asked, "known": known})?)
}

fn rule_value(alloc: Global, policy: &Text, rule: u32) -> Result<Value, OutOfMemory>
    ensures { IfOk result (λ v. view v ≡ refusal_details (Refusal.DeniedRule policy.now rule)) }
{
    Ok(json!(in alloc; {"policy": policy.as_str(), "rule": rule})?)
}

fn form_value(alloc: Global, kind: &Text, offset: u32) -> Result<Value, OutOfMemory>
    ensures { IfOk result (λ v. view v ≡ refusal_details (Refusal.ConditionForm kind.now offset)) }
{
    Ok(json!(in alloc; {"kind": kind.as_str(), "offset": offset})?)
}

fn version_value(alloc: Global, given: u64) -> Result<Value, OutOfMemory>
    ensures { IfOk result (λ v. view v ≡ refusal_details (Refusal.Version given)) }
{
    Ok(json!(in alloc; {"given": given})?)
}

pub fn refusal_details(alloc: Global, refusal: &Refusal) -> Result<Value, OutOfMemory>
    ensures { IfOk result (λ v. view v ≡ refusal_details refusal.now) }
{
    match refusal {
        Refusal::FutureRevision { asked, known } => revisions_value(alloc, *asked, *known),
        Refusal::NotFound { name } => only_text(alloc, "name", name.as_str()),
        Refusal::DeniedBoundary { binding } => only_text(alloc, "binding", binding.as_str()),
        Refusal::DeniedRule { policy, rule } => rule_value(alloc, policy, *rule),
        Refusal::NotGranted { permission } => only_text(alloc, "permission", permission.as_str()),
        Refusal::NotActive { name } => only_text(alloc, "name", name.as_str()),
        Refusal::AlreadyExists { name } => only_text(alloc, "name", name.as_str()),
        Refusal::EtagMismatch { current } => only_etag(alloc, *current),
        Refusal::Version { given } => version_value(alloc, *given),
        Refusal::ConditionForm { kind, offset } => form_value(alloc, kind, *offset),
        Refusal::ConditionPlace { role } => only_role(alloc, role),
        Refusal::RoleUnknown { role } => only_role(alloc, role),
        Refusal::RoleScope { role } => only_role(alloc, role),
        Refusal::PermissionUnknown { permission } => {
            only_text(alloc, "permission", permission.as_str())
        }
        Refusal::Limit {
            counted,
            limit,
            which,
        } => count_value(alloc, *counted, *limit, limit_text(*which)),
        Refusal::Hierarchy {
            counted,
            limit,
            which,
        } => count_value(alloc, *counted, *limit, fault_text(*which)),
        Refusal::GroupCycle => Ok(empty(alloc)),
        Refusal::TagRule => Ok(empty(alloc)),
        Refusal::InUse { name } => only_text(alloc, "name", name.as_str()),
    }
}

fn size_value(alloc: Global, declared: u64, limit: u64) -> Result<Value, OutOfMemory>
    ensures { IfOk result (λ v. view v ≡ details_data (Details.BodyTooLarge declared limit)) }
{
    Ok(json!(in alloc; {"declared": declared, "limit": limit})?)
}

fn stored_value(alloc: Global, stored: bool) -> Result<Value, OutOfMemory>
    ensures { IfOk result (λ v. view v ≡ details_data (Details.OutOfMemory stored)) }
{
    Ok(json!(in alloc; {"stored": stored})?)
}

pub fn details_value(alloc: Global, details: &Details) -> Result<Value, OutOfMemory>
    ensures { IfOk result (λ v. view v ≡ details_data details.now) }
{
    match details {
        Details::BadField { path } => only_text(alloc, "path", path.as_str()),
        Details::BodyTooLarge { declared, limit } => size_value(alloc, *declared, *limit),
        Details::Refused(refusal) => refusal_details(alloc, refusal),
        Details::OutOfMemory { stored } => stored_value(alloc, *stored),
        Details::BadHead => Ok(empty(alloc)),
        Details::BadJson => Ok(empty(alloc)),
        Details::NoRoute => Ok(empty(alloc)),
        Details::BadMethod => Ok(empty(alloc)),
        Details::NeedLength => Ok(empty(alloc)),
        Details::BadCaller => Ok(empty(alloc)),
        Details::KeeperFault => Ok(empty(alloc)),
        Details::ClockFault => Ok(empty(alloc)),
    }
}
