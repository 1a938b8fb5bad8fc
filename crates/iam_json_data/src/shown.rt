// What names, conditions, bindings and nodes are shown as.
ghost use Rattle.std.specs.Prelude.{◌≡◌, IfOk, None, Some};
ghost use Rattle.serde_json.specs.View.{view};
ghost use Rattle.iam_json_data.specs.Shown.{condition_data, state_text, shown_node};

use crate::print::{ToJson, list_value};
use iam_names::{Member, PermissionName};
use iam_text::OutOfMemory;
use iam_types::{Binding, Condition, Node};
use serde_json::{Value, json};
use std::alloc::{AllocError, Global};

impl ToJson for PermissionName {
    ghost use Rattle.iam_json_data.specs.Shown.{permission_data};

    ghost shown = { permission_data };

    fn to_json(&self, alloc: Global) -> Result<Value, OutOfMemory> {
        Ok(Value::try_from_str(alloc, self.as_str())?)
    }
}

impl ToJson for Member {
    ghost use Rattle.iam_json_data.specs.Shown.{member_data};

    ghost shown = { member_data };

    fn to_json(&self, alloc: Global) -> Result<Value, OutOfMemory> {
        let text = self.text(alloc)?;
        Ok(Value::try_from_str(alloc, text.as_str())?)
    }
}

fn condition_value(alloc: Global, condition: &Condition) -> Result<Value, OutOfMemory>
    ensures { IfOk result (λ v. view v ≡ condition_data condition.now) }
{
    Ok(json!(in alloc; {
        "description": condition.description.as_str(),
        "expression": condition.expression.as_str(),
        "title": condition.title.as_str()
    })?)
}

impl ToJson for Binding {
    ghost use Rattle.iam_json_data.specs.Shown.{binding_data};

    ghost shown = { binding_data };

    fn to_json(&self, alloc: Global) -> Result<Value, OutOfMemory> {
        let members = list_value(alloc, self.members.as_slice())?;
        let role = self.role.text(alloc)?;
        match &self.condition {
            None => Ok(json!(in alloc; {"members": members, "role": role.as_str()})?),
            Some(condition) => {
                let shown = condition_value(alloc, condition)?;
                Ok(
                    json!(in alloc; {"condition": shown, "members": members, "role": role.as_str()})?,
                )
            }
        }
    }
}

fn state_text(active: bool) -> &'static str
    ensures { result.now ≡ state_text active }
{
    if active { "ACTIVE" } else { "DELETE_REQUESTED" }
}

fn folder_value(
    alloc: Global,
    display: &str,
    name: &str,
    parent: &str,
    state: &str,
) -> Result<Value, AllocError>
    ensures { IfOk result (λ v. view v ≡ shown_node display.now name.now parent.now None state.now) }
{
    json!(in alloc; {"displayName": display, "name": name, "parent": parent, "state": state})
}

fn project_value(
    alloc: Global,
    display: &str,
    name: &str,
    parent: &str,
    id: &str,
    state: &str,
) -> Result<Value, AllocError>
    ensures { IfOk result (λ v. view v ≡ shown_node display.now name.now parent.now (Some id.now) state.now) }
{
    json!(in alloc; {
        "displayName": display,
        "name": name,
        "parent": parent,
        "projectId": id,
        "state": state
    })
}

impl ToJson for Node {
    ghost use Rattle.iam_json_data.specs.Shown.{node_data};

    ghost shown = { node_data };

    fn to_json(&self, alloc: Global) -> Result<Value, OutOfMemory> {
        let display = self.display.as_str();
        let name = self.id.text(alloc)?;
        let parent = self.parent.text(alloc)?;
        let state = state_text(self.active);
        let (name, parent) = (name.as_str(), parent.as_str());
        match &self.project {
            None => Ok(folder_value(alloc, display, name, parent, state)?),
            Some(id) => Ok(project_value(alloc, display, name, parent, id.as_str(), state)?),
        }
    }
}
