// Answers as bodies.
ghost use Rattle.std.specs.Prelude.{◌≡◌, IfOk};
ghost use Rattle.serde_json.specs.View.{view};
ghost use Rattle.iam_json_data.specs.Printed.{list_data};
ghost use Rattle.iam_json_data.specs.Shown.{node_data};
ghost use Rattle.iam_json.specs.Answers.{policy_data, answer_data, answer_text};
ghost use Rattle.iam_json.specs.Refusals.{only};

use crate::details::{empty, refusal_details};
use crate::line::{line_value, refusal_line};
use crate::resource::{operation_value, resource_value};
use iam_json_data::{etag_value, list_value, text_of};
use iam_names::PermissionName;
use iam_text::{List, OutOfMemory, Text};
use iam_types::{Answer, Binding, Node};
use serde_json::{Map, Value, json, put};
use std::alloc::Global;

fn permissions_value(
    alloc: Global,
    permissions: &List<PermissionName>,
) -> Result<Value, OutOfMemory>
    ensures { IfOk result (λ v. view v ≡ answer_data (Answer.Permissions permissions.now)) }
{
    let list = list_value(alloc, permissions.as_slice())?;
    Ok(json!(in alloc; {"permissions": list})?)
}

fn policy_value(
    alloc: Global,
    bindings: &List<Binding>,
    set: u64,
    version: u64,
) -> Result<Value, OutOfMemory>
    ensures { IfOk result (λ v. view v ≡ policy_data bindings.now set version) }
{
    let list = list_value(alloc, bindings.as_slice())?;
    let etag = etag_value(alloc, set)?;
    Ok(json!(in alloc; {"bindings": list, "etag": etag, "version": version})?)
}

// Nodes, by the name of their list.
fn nodes_value(alloc: Global, name: &str, nodes: &List<Node>) -> Result<Value, OutOfMemory>
    ensures { IfOk result (λ v. view v ≡ only name.now (list_data node_data nodes.now)) }
{
    let mut members = Map::new(alloc);
    put(
        &mut members,
        alloc,
        name,
        list_value(alloc, nodes.as_slice())?,
    )?;
    Ok(Value::Object(members))
}

// What is answered as a value. The kinds that no call gives yet are `{}`.
fn answer_value(alloc: Global, answer: &Answer) -> Result<Value, OutOfMemory>
    ensures { IfOk result (λ v. view v ≡ answer_data answer.now) }
{
    match answer {
        Answer::Refused(refusal) => {
            let details = refusal_details(alloc, refusal)?;
            line_value(alloc, &refusal_line(refusal), details)
        }
        Answer::Permissions(permissions) => permissions_value(alloc, permissions),
        Answer::Policy {
            bindings,
            set,
            version,
        } => policy_value(alloc, bindings, *set, *version),
        Answer::Resource(resource) => resource_value(alloc, resource),
        Answer::Operation { revision, response } => operation_value(alloc, *revision, response),
        Answer::Folders(folders) => nodes_value(alloc, "folders", folders),
        Answer::Projects(projects) => nodes_value(alloc, "projects", projects),
        Answer::TagBindings(_) => Ok(empty(alloc)),
        Answer::DenyPolicies(_) => Ok(empty(alloc)),
        Answer::Group { .. } => Ok(empty(alloc)),
        Answer::Role(_) => Ok(empty(alloc)),
        Answer::Explanation { .. } => Ok(empty(alloc)),
    }
}

/// The body of an answer.
pub fn answer_body(alloc: Global, answer: &Answer) -> Result<Text, OutOfMemory>
    ensures { IfOk result (λ text. text ≡ answer_text answer.now) }
{
    let value = answer_value(alloc, answer)?;
    text_of(alloc, &value)
}
