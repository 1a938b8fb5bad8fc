// The table of refusals: the number, reason, code and status of each.
ghost use Rattle.std.specs.Prelude.{◌≡◌, IfOk};
ghost use Rattle.serde_json.specs.View.{view};
ghost use Rattle.iam_json.specs.Refusals.{line, line_of, refusal_line, call_data, line_data};
ghost use Rattle.iam_json.specs.Seen.{seen};

use crate::details::Details;
use iam_text::OutOfMemory;
use iam_types::Refusal;
use serde_json::{Value, json};
use std::alloc::{AllocError, Global};

/// How a refusal is called: its number, its HTTP status code, its reason, and its status in Google's canon
/// (`google.rpc.Code`).
#[derive(Clone, Copy)]
pub struct RefusalLine {
    pub number: u8,
    pub code: u16,
    pub reason: &'static str,
    pub status: &'static str,
}

fn called(number: u8, reason: &'static str, code: u16, status: &'static str) -> RefusalLine
    ensures { seen result ≡ line number reason.now code status.now }
{
    RefusalLine {
        number,
        code,
        reason,
        status,
    }
}

pub fn line_of(details: &Details) -> RefusalLine
    ensures { seen result ≡ line_of details.now }
{
    match details {
        Details::BadHead => called(1, "BAD_HEAD", 400, "INVALID_ARGUMENT"),
        Details::BadJson => called(2, "BAD_JSON", 400, "INVALID_ARGUMENT"),
        Details::BadField { .. } => called(3, "BAD_FIELD", 400, "INVALID_ARGUMENT"),
        Details::NoRoute => called(4, "NO_ROUTE", 404, "NOT_FOUND"),
        Details::BadMethod => called(5, "BAD_METHOD", 405, "INVALID_ARGUMENT"),
        Details::BodyTooLarge { .. } => called(6, "BODY_TOO_LARGE", 413, "INVALID_ARGUMENT"),
        Details::NeedLength => called(7, "NEED_LENGTH", 411, "INVALID_ARGUMENT"),
        Details::BadCaller => called(8, "BAD_CALLER", 401, "UNAUTHENTICATED"),
        Details::Refused(refusal) => refusal_line(refusal),
        Details::KeeperFault => called(28, "KEEPER_FAULT", 503, "UNAVAILABLE"),
        Details::ClockFault => called(29, "CLOCK_FAULT", 503, "UNAVAILABLE"),
        Details::OutOfMemory { .. } => called(30, "OUT_OF_MEMORY", 507, "RESOURCE_EXHAUSTED"),
    }
}

pub fn refusal_line(refusal: &Refusal) -> RefusalLine
    ensures { seen result ≡ refusal_line refusal.now }
{
    match refusal {
        Refusal::FutureRevision { .. } => called(9, "FUTURE_REVISION", 400, "INVALID_ARGUMENT"),
        Refusal::NotFound { .. } => called(10, "NOT_FOUND", 404, "NOT_FOUND"),
        Refusal::DeniedBoundary { .. } => called(11, "DENIED_BOUNDARY", 403, "PERMISSION_DENIED"),
        Refusal::DeniedRule { .. } => called(12, "DENIED_RULE", 403, "PERMISSION_DENIED"),
        Refusal::NotGranted { .. } => called(13, "NOT_GRANTED", 403, "PERMISSION_DENIED"),
        Refusal::NotActive { .. } => called(14, "NOT_ACTIVE", 400, "FAILED_PRECONDITION"),
        Refusal::AlreadyExists { .. } => called(15, "ALREADY_EXISTS", 409, "ALREADY_EXISTS"),
        Refusal::EtagMismatch { .. } => called(16, "ETAG_MISMATCH", 409, "ABORTED"),
        Refusal::Version { .. } => called(17, "VERSION", 400, "INVALID_ARGUMENT"),
        Refusal::ConditionForm { .. } => called(18, "CONDITION_FORM", 400, "INVALID_ARGUMENT"),
        Refusal::ConditionPlace { .. } => called(19, "CONDITION_PLACE", 400, "INVALID_ARGUMENT"),
        Refusal::RoleUnknown { .. } => called(20, "ROLE_UNKNOWN", 400, "INVALID_ARGUMENT"),
        Refusal::RoleScope { .. } => called(21, "ROLE_SCOPE", 400, "INVALID_ARGUMENT"),
        Refusal::PermissionUnknown { .. } => {
            called(22, "PERMISSION_UNKNOWN", 400, "INVALID_ARGUMENT")
        }
        Refusal::Limit { .. } => called(23, "LIMIT", 429, "RESOURCE_EXHAUSTED"),
        Refusal::Hierarchy { .. } => called(24, "HIERARCHY", 400, "FAILED_PRECONDITION"),
        Refusal::GroupCycle => called(25, "GROUP_CYCLE", 400, "FAILED_PRECONDITION"),
        Refusal::TagRule => called(26, "TAG_RULE", 400, "FAILED_PRECONDITION"),
        Refusal::InUse { .. } => called(27, "IN_USE", 400, "FAILED_PRECONDITION"),
    }
}

fn refusal_value(
    alloc: Global,
    code: u16,
    reason: &str,
    status: &str,
    details: Value,
) -> Result<Value, AllocError>
    ensures { IfOk result (λ v. view v ≡ call_data code reason.now status.now (view details)) }
{
    json!(in alloc; {"error": {"code": code, "details": details, "message": reason, "status": status}})
}

/// What is printed of a refusal that is called so.
pub fn line_value(alloc: Global, line: &RefusalLine, details: Value) -> Result<Value, OutOfMemory>
    ensures { IfOk result (λ v. view v ≡ line_data (seen line.now) (view details)) }
{
    Ok(refusal_value(alloc, line.code, line.reason, line.status, details)?)
}
