// The row of a fact.
ghost use Rattle.std.specs.Prelude.{◌≡◌, IfOk, false};
ghost use Rattle.serde_json.specs.View.{view};
ghost use Rattle.serde_json.specs.Written.{has_float};
ghost use Rattle.iam_model.specs.Formed.{IsFact};
ghost use Rattle.iam_rows.specs.Rows.{schema, node_data, org_name, org_data, policy_data, IsRow, HasRow};

use iam_json_data::{list_value, text_of};
use iam_names::{NodeId, NodeKind};
use iam_outer::Row;
use iam_text::{OutOfMemory, Text};
use iam_types::{AllowPolicy, Fact, Node, Org};
use serde_json::{Value, json};
use std::alloc::Global;

/// The form of all rows, which the organisation's row names.
const SCHEMA: u64 = 1;

fn org_value(alloc: Global, org: &Org) -> Result<Value, OutOfMemory>
    ensures { IfOk result (λ v. view v ≡ org_data org.now) }
{
    Ok(json!(in alloc; {
        "changes": org.changes,
        "customer": org.customer.as_str(),
        "domain": org.domain.as_str(),
        "next": org.next,
        "schema": SCHEMA
    })?)
}

// The members of a node, where it is a folder or a project.
fn node_value(alloc: Global, node: &Node) -> Result<Value, OutOfMemory>
    ensures { IfOk result (λ v. view v ≡ node_data node.now) }
{
    let parent = node.parent.text(alloc)?;
    match &node.project {
        None => Ok(json!(in alloc; {
            "active": node.active,
            "display": node.display.as_str(),
            "parent": parent.as_str()
        })?),
        Some(project) => Ok(json!(in alloc; {
            "active": node.active,
            "display": node.display.as_str(),
            "parent": parent.as_str(),
            "project": project.as_str()
        })?),
    }
}

fn policy_value(alloc: Global, policy: &AllowPolicy) -> Result<Value, OutOfMemory>
    ensures { IfOk result (λ v. view v ≡ policy_data policy.now) }
{
    let bindings = list_value(alloc, policy.bindings.as_slice())?;
    Ok(json!(in alloc; {"bindings": bindings, "set": policy.set})?)
}

fn row_with(alloc: Global, part: &str, name: Text, value: &Value) -> Result<Row, OutOfMemory>
    requires { has_float (view value.now) ≡ false }
    ensures { IfOk result (IsRow part.now name (view value.now)) }
{
    Ok(Row {
        part: Text::of(alloc, part)?,
        name,
        body: text_of(alloc, value)?,
    })
}

fn org_text(alloc: Global, number: u64) -> Result<Text, OutOfMemory>
    ensures { IfOk result (λ text. text ≡ org_name number) }
{
    let node = NodeId {
        kind: NodeKind::Organization,
        number,
    };
    node.text(alloc)
}

fn org_row(alloc: Global, org: &Org) -> Result<Row, OutOfMemory>
    ensures { IfOk result (HasRow (Fact.Org org.now)) }
{
    let value = org_value(alloc, org)?;
    row_with(alloc, "org", org_text(alloc, org.number)?, &value)
}

fn policy_row(alloc: Global, policy: &AllowPolicy) -> Result<Row, OutOfMemory>
    ensures { IfOk result (HasRow (Fact.Allow policy.now)) }
{
    let value = policy_value(alloc, policy)?;
    row_with(alloc, "allow", policy.node.text(alloc)?, &value)
}

fn node_row(alloc: Global, node: &Node) -> Result<Row, OutOfMemory>
    ensures { IfOk result (HasRow (Fact.Node node.now)) }
{
    let value = node_value(alloc, node)?;
    row_with(alloc, "node", node.id.text(alloc)?, &value)
}

/// The row that keeps a fact.
pub fn row_of(alloc: Global, fact: &Fact) -> Result<Row, OutOfMemory>
    requires { IsFact fact.now }
    ensures { IfOk result (HasRow fact.now) }
{
    match fact {
        Fact::Org(org) => org_row(alloc, org),
        Fact::Allow(policy) => policy_row(alloc, policy),
        Fact::Node(node) => node_row(alloc, node),
        Fact::Key(_)
        | Fact::Value(_)
        | Fact::Tag(_)
        | Fact::Group(_)
        | Fact::Edge(_)
        | Fact::Role(_)
        | Fact::Deny(_)
        | Fact::Boundary(_)
        | Fact::Bound(_) => unreachable!(),
    }
}
