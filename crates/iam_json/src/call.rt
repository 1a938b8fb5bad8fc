// The call of a route and a body.
ghost use Rattle.std.specs.Prelude.{IfOk};
ghost use Rattle.serde_json.specs.View.{view};
ghost use Rattle.iam_names.specs.declared.node.NodeName.{NodeName};
ghost use Rattle.iam_json_data.specs.Body.{BodyGives};
ghost use Rattle.iam_json_data.specs.Reading.{Gives};
ghost use Rattle.iam_json.specs.Bodies.{ReadsTest};
ghost use Rattle.iam_json.specs.Calls.{IsRoute, NamesNode, ReadsPermissionsTest, ReadsPolicyReading, ReadsPolicySetting, ReadsCall};

use crate::node_calls::{
    folder_creation, folder_listing, folder_renaming, node_deletion, node_reading, node_undeletion,
    project_creation, project_listing,
};
use crate::policy::{read_reading, read_setting};
use crate::route::{Line, Route};
use iam_json_data::{BodyStop, bad_here, read_body, read_required};
use iam_names::{NodeName, PermissionName};
use iam_text::{List, OutOfMemory, Text};
use iam_types::{Ask, Command};
use serde_json::Value;
use std::alloc::Global;

/// What a request asks for.
#[derive(Drop)]
pub enum Call {
    Write(Command),
    Read(Ask),
}

/// The node of a path.
pub fn node_of(alloc: Global, parts: &[Text]) -> Result<NodeName, OutOfMemory>
    requires { (node : NodeName) × NamesNode parts.now node }
    ensures { IfOk result (NamesNode parts.now) }
{
    match parts {
        [text] => match NodeName::read(alloc, text.as_str())? {
            Some(node) => Ok(node),
            None => unreachable!(),
        },
        _ => unreachable!(),
    }
}

/// The permissions that a test asks about.
fn read_test(alloc: Global, value: &Value) -> Result<List<PermissionName>, BodyStop>
    ensures { Gives (ReadsTest (view value.now)) result }
{
    if !value.is_object() {
        return Err(bad_here(alloc));
    }
    read_required(alloc, "permissions", value)
}

fn permissions_test(alloc: Global, parts: &[Text], value: &Value) -> Result<Call, BodyStop>
    requires { (node : NodeName) × NamesNode parts.now node }
    ensures { Gives (ReadsPermissionsTest parts.now (view value.now)) result }
{
    let node = node_of(alloc, parts)?;
    let permissions = read_test(alloc, value)?;
    Ok(Call::Read(Ask::Test { node, permissions }))
}

fn policy_reading(alloc: Global, parts: &[Text], value: &Value) -> Result<Call, BodyStop>
    requires { (node : NodeName) × NamesNode parts.now node }
    ensures { Gives (ReadsPolicyReading parts.now (view value.now)) result }
{
    let node = node_of(alloc, parts)?;
    let version = read_reading(alloc, value)?;
    Ok(Call::Read(Ask::Policy { node, version }))
}

fn policy_setting(alloc: Global, parts: &[Text], value: &Value) -> Result<Call, BodyStop>
    requires { (node : NodeName) × NamesNode parts.now node }
    ensures { Gives (ReadsPolicySetting parts.now (view value.now)) result }
{
    let node = node_of(alloc, parts)?;
    let policy = read_setting(alloc, value)?;
    Ok(Call::Write(Command::SetAllow {
        node,
        version: policy.version,
        etag: policy.etag,
        bindings: policy.bindings,
    }))
}

fn call_of(alloc: Global, route: &Route, value: &Value) -> Result<Call, BodyStop>
    requires { IsRoute route.now }
    ensures { Gives (ReadsCall route.now (view value.now)) result }
{
    let parts = route.parts.as_slice();
    let pairs = route.pairs.as_slice();
    match route.line {
        Line::TestPermissions => permissions_test(alloc, parts, value),
        Line::ReadPolicy => policy_reading(alloc, parts, value),
        Line::SetPolicy => policy_setting(alloc, parts, value),
        Line::ReadNode => node_reading(alloc, parts, value),
        Line::ListFolders => folder_listing(alloc, pairs, value),
        Line::ListProjects => project_listing(alloc, pairs, value),
        Line::CreateFolder => folder_creation(alloc, value),
        Line::CreateProject => project_creation(alloc, value),
        Line::RenameFolder => folder_renaming(alloc, parts, value),
        Line::DeleteNode => node_deletion(alloc, parts, value),
        Line::UndeleteNode => node_undeletion(alloc, parts, value),
    }
}

/// The call of a request. Unknown members are passed over, null counts as absent, and an empty body is `{}`. Of
/// several bad members the first is named, in the order in which `specs/Calls.antt` reads them.
pub fn read_call(alloc: Global, route: &Route, body: &[u8]) -> Result<Call, BodyStop>
    requires { IsRoute route.now }
    ensures { BodyGives (ReadsCall route.now) body.now result }
{
    let value = read_body(alloc, body)?;
    call_of(alloc, route, &value)
}
