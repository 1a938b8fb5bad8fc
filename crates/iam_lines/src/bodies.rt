//! The code and the body of a refusal. The kinds are
//!
//! - `refused REFUSAL`, as it is shown in a reply of its own;
//! - `answer-refused REFUSAL`, where a state gives it, as it is shown as an answer.
//!
//! A refusal is a word and what it shows: `not-found it`, `denied-rule it 3`, `limit 1501 1500 POLICY_MEMBERS` and so on; another
//! one is `none`.
use crate::words::cut;
use iam_json::{Details, ErrorReply, answer_body, code_of, error_body, refusal_code};
use iam_names::{PermissionName, RoleName};
use iam_text::{OutOfMemory, Text, let_go};
use iam_types::{Answer, Fault, LimitName, Refusal};
use std::alloc::Global;

/// How limits are called.
static LIMITS: [(&str, LimitName); 23] = [
    ("POLICY_MEMBERS", LimitName::PolicyMembers),
    ("POLICY_GROUPS", LimitName::PolicyGroups),
    ("SAME_ROLE_CONDITIONS", LimitName::SameRoleConditions),
    ("OPERATORS", LimitName::Operators),
    ("DENY_RULES", LimitName::DenyRules),
    ("BOUNDARY_RULES", LimitName::BoundaryRules),
    ("BOUNDARY_RESOURCES", LimitName::BoundaryResources),
    ("SET_BINDINGS", LimitName::SetBindings),
    ("TAG_BINDINGS", LimitName::TagBindings),
    ("CHILD_FOLDERS", LimitName::ChildFolders),
    ("PERMISSIONS_ASKED", LimitName::PermissionsAsked),
    ("ROLE_PERMISSIONS", LimitName::RolePermissions),
    ("NODES", LimitName::Nodes),
    ("TAGS", LimitName::Tags),
    ("GROUPS", LimitName::Groups),
    ("EDGES", LimitName::Edges),
    ("ROLES", LimitName::Roles),
    ("MEMBERS", LimitName::Members),
    ("DENY_ENTRIES", LimitName::DenyEntries),
    ("BOUNDARIES", LimitName::Boundaries),
    ("BOUNDS", LimitName::Bounds),
    ("CONDITION_BYTES", LimitName::ConditionBytes),
    ("CHANGES", LimitName::Changes),
];

fn limit(word: &str) -> Option<LimitName> {
    for (name, which) in &LIMITS {
        if *name == word {
            return Some(*which);
        }
    }
    None
}

fn fault(word: &str) -> Option<Fault> {
    match word {
        "PARENT" => Some(Fault::Parent),
        "CYCLE" => Some(Fault::Cycle),
        "DEPTH" => Some(Fault::Depth),
        "SIBLING_NAME" => Some(Fault::SiblingName),
        "NOT_EMPTY" => Some(Fault::NotEmpty),
        _ => None,
    }
}

// What is no number is 0.
fn number(word: &str) -> u64 {
    word.parse::<u64>().unwrap_or(0)
}

// The refusals that show no text but the name of what was counted.
fn counted(kind: &str, words: &str) -> Option<Refusal> {
    let (first, rest) = cut(words, " ");
    let (second, which) = cut(rest, " ");
    let first = number(first);
    let second = number(second);
    Some(match kind {
        "future-revision" => Refusal::FutureRevision {
            asked: first,
            known: second,
        },
        "etag-mismatch" => Refusal::EtagMismatch { current: first },
        "version" => Refusal::Version { given: first },
        "limit" => Refusal::Limit {
            counted: first,
            limit: second,
            which: limit(which)?,
        },
        "hierarchy" => Refusal::Hierarchy {
            counted: first,
            limit: second,
            which: fault(which)?,
        },
        "group-cycle" => Refusal::GroupCycle,
        "tag-rule" => Refusal::TagRule,
        _ => return None,
    })
}

// The refusals that show a text, some with a number behind it.
fn named(alloc: Global, kind: &str, words: &str) -> Result<Option<Refusal>, OutOfMemory> {
    let (name, more) = cut(words, " ");
    let more = more.parse::<u32>().unwrap_or(0);
    let text = Text::of(alloc, name)?;
    Ok(Some(match kind {
        "not-found" => Refusal::NotFound { name: text },
        "denied-boundary" => Refusal::DeniedBoundary { binding: text },
        "denied-rule" => Refusal::DeniedRule {
            policy: text,
            rule: more,
        },
        "not-active" => Refusal::NotActive { name: text },
        "already-exists" => Refusal::AlreadyExists { name: text },
        "condition-form" => Refusal::ConditionForm {
            kind: text,
            offset: more,
        },
        "condition-place" => Refusal::ConditionPlace {
            role: RoleName::Predefined(text),
        },
        "role-unknown" => Refusal::RoleUnknown {
            role: RoleName::Predefined(text),
        },
        "role-scope" => Refusal::RoleScope {
            role: RoleName::Predefined(text),
        },
        "permission-unknown" => Refusal::PermissionUnknown { permission: text },
        "in-use" => Refusal::InUse { name: text },
        _ => return Ok(None),
    }))
}

fn not_granted(alloc: Global, words: &str) -> Result<Option<Refusal>, OutOfMemory> {
    match PermissionName::read(alloc, words)? {
        Some(permission) => Ok(Some(Refusal::NotGranted { permission })),
        None => Ok(None),
    }
}

// The refusal that a state gives.
fn given(alloc: Global, kind: &str, words: &str) -> Result<Option<Refusal>, OutOfMemory> {
    if kind == "not-granted" {
        return not_granted(alloc, words);
    }
    match counted(kind, words) {
        Some(refusal) => Ok(Some(refusal)),
        None => named(alloc, kind, words),
    }
}

// The refusal that the message alone or the outside gives.
fn outside(alloc: Global, kind: &str, words: &str) -> Result<Option<Details>, OutOfMemory> {
    let (declared, most) = cut(words, " ");
    Ok(Some(match kind {
        "bad-head" => Details::BadHead,
        "bad-json" => Details::BadJson,
        "bad-field" => Details::BadField {
            path: Text::of(alloc, words)?,
        },
        "no-route" => Details::NoRoute,
        "bad-method" => Details::BadMethod,
        "body-too-large" => Details::BodyTooLarge {
            declared: number(declared),
            limit: number(most),
        },
        "need-length" => Details::NeedLength,
        "bad-caller" => Details::BadCaller,
        "keeper-fault" => Details::KeeperFault,
        "clock-fault" => Details::ClockFault,
        "out-of-memory" => Details::OutOfMemory {
            stored: words == "stored",
        },
        _ => return Ok(None),
    }))
}

fn details(alloc: Global, words: &str) -> Result<Option<Details>, OutOfMemory> {
    let (kind, rest) = cut(words, " ");
    if let Some(details) = outside(alloc, kind, rest)? {
        return Ok(Some(details));
    }
    match given(alloc, kind, rest)? {
        Some(refusal) => Ok(Some(Details::Refused(refusal))),
        None => Ok(None),
    }
}

fn behind_code(alloc: Global, code: u16, body: Text) -> Result<Text, OutOfMemory> {
    Ok(Text::from(format!(in alloc; "{} {}", code, body.as_str())?))
}

fn reply_text(alloc: Global, details: Details) -> Result<Text, OutOfMemory> {
    let reply = ErrorReply::of(details);
    let code = code_of(&reply);
    let body = error_body(alloc, &reply);
    let_go(reply);
    behind_code(alloc, code, body?)
}

fn reply(alloc: Global, words: &str) -> Result<Text, OutOfMemory> {
    match details(alloc, words)? {
        Some(details) => reply_text(alloc, details),
        None => Text::of(alloc, "none"),
    }
}

fn answer_text(alloc: Global, refusal: Refusal) -> Result<Text, OutOfMemory> {
    let code = refusal_code(&refusal);
    let answer = Answer::Refused(refusal);
    let body = answer_body(alloc, &answer);
    let_go(answer);
    behind_code(alloc, code, body?)
}

fn answer(alloc: Global, words: &str) -> Result<Text, OutOfMemory> {
    let (kind, rest) = cut(words, " ");
    match given(alloc, kind, rest)? {
        Some(refusal) => answer_text(alloc, refusal),
        None => Text::of(alloc, "none"),
    }
}

/// What a line comes to, or nothing where the kind is none of these.
pub fn told(alloc: Global, kind: &str, words: &str) -> Result<Option<Text>, OutOfMemory> {
    match kind {
        "refused" => Ok(Some(reply(alloc, words)?)),
        "answer-refused" => Ok(Some(answer(alloc, words)?)),
        _ => Ok(None),
    }
}
