// Names that members are read as.
ghost use Rattle.std.specs.Prelude.{◌≡◌, [], MatchOption, Ok, Err};

use crate::member::FromJson;
use crate::stop::{BodyStop, bad_here};
use iam_names::{Member, NodeName, PermissionName, RoleName};
use serde_json::Value;
use std::alloc::Global;

// What was read of a text.
fn whole<T>(alloc: Global, read: Option<T>) -> Result<T, BodyStop>
    ensures { MatchOption read (result ≡ Err (BodyStop.BadField [])) (λ value. result ≡ Ok value) }
{
    match read {
        Some(value) => Ok(value),
        None => Err(bad_here(alloc)),
    }
}

impl FromJson for PermissionName {
    ghost use Rattle.iam_names.specs.Permission.{IsPermission, permission_text};
    ghost use Rattle.iam_json_data.specs.Reading.{ReadsText};

    ghost reads = { ReadsText IsPermission permission_text };

    fn from_json(alloc: Global, value: &Value) -> Result<PermissionName, BodyStop> {
        match value.as_str() {
            Some(text) => whole(alloc, PermissionName::read(alloc, text)?),
            None => Err(bad_here(alloc)),
        }
    }
}

impl FromJson for NodeName {
    ghost use Rattle.iam_names.specs.Node.{IsNodeName, node_text};
    ghost use Rattle.iam_json_data.specs.Reading.{ReadsText};

    ghost reads = { ReadsText IsNodeName node_text };

    fn from_json(alloc: Global, value: &Value) -> Result<NodeName, BodyStop> {
        match value.as_str() {
            Some(text) => whole(alloc, NodeName::read(alloc, text)?),
            None => Err(bad_here(alloc)),
        }
    }
}

impl FromJson for Member {
    ghost use Rattle.iam_names.specs.Member.{IsMember, member_text};
    ghost use Rattle.iam_json_data.specs.Reading.{ReadsText};

    ghost reads = { ReadsText IsMember member_text };

    fn from_json(alloc: Global, value: &Value) -> Result<Member, BodyStop> {
        match value.as_str() {
            Some(text) => whole(alloc, Member::read(alloc, text)?),
            None => Err(bad_here(alloc)),
        }
    }
}

impl FromJson for RoleName {
    ghost use Rattle.iam_names.specs.Role.{IsRoleName, role_text};
    ghost use Rattle.iam_json_data.specs.Reading.{ReadsText};

    ghost reads = { ReadsText IsRoleName role_text };

    fn from_json(alloc: Global, value: &Value) -> Result<RoleName, BodyStop> {
        match value.as_str() {
            Some(text) => whole(alloc, RoleName::read(alloc, text)?),
            None => Err(bad_here(alloc)),
        }
    }
}
