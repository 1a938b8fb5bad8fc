// Things, and the operations that made them, as values.
ghost use Rattle.std.specs.Prelude.{◌≡◌, ◌++◌, IfOk, codes, string_bytes};
ghost use Rattle.std.specs.Fmt.{decimal};
ghost use Rattle.serde_json.specs.View.{view};
ghost use Rattle.iam_json.specs.Resources.{organization_data, resource_data, operation_data};

use crate::details::empty;
use iam_json_data::ToJson;
use iam_names::{NodeId, NodeKind};
use iam_text::{OutOfMemory, Text};
use iam_types::Resource;
use serde_json::{Value, json};
use std::alloc::{AllocError, Global};

fn organization_value(
    alloc: Global,
    number: u64,
    domain: &Text,
    customer: &Text,
) -> Result<Value, OutOfMemory>
    ensures { IfOk result (λ v. view v ≡ organization_data number domain.now customer.now) }
{
    let node = NodeId {
        kind: NodeKind::Organization,
        number,
    };
    let name = node.text(alloc)?;
    Ok(json!(in alloc; {
        "directoryCustomerId": customer.as_str(),
        "displayName": domain.as_str(),
        "name": name.as_str(),
        "state": "ACTIVE"
    })?)
}

/// A thing as a value. The kinds that no call gives yet are `{}`.
pub fn resource_value(alloc: Global, resource: &Resource) -> Result<Value, OutOfMemory>
    ensures { IfOk result (λ v. view v ≡ resource_data resource.now) }
{
    match resource {
        Resource::Organization {
            number,
            domain,
            customer,
        } => organization_value(alloc, *number, domain, customer),
        Resource::Node(node) => node.to_json(alloc),
        Resource::TagKey { .. } => Ok(empty(alloc)),
        Resource::TagValue { .. } => Ok(empty(alloc)),
        Resource::TagBinding(_) => Ok(empty(alloc)),
        Resource::DenyPolicy(_) => Ok(empty(alloc)),
        Resource::Boundary { .. } => Ok(empty(alloc)),
        Resource::BoundaryBinding { .. } => Ok(empty(alloc)),
        Resource::Nothing => Ok(empty(alloc)),
    }
}

fn operation_name(alloc: Global, revision: u64) -> Result<String, AllocError>
    ensures { IfOk result (λ text. string_bytes text ≡ codes "operations/" ++ decimal revision) }
{
    format!(in alloc; "operations/{revision}")
}

/// A finished operation as a value.
pub fn operation_value(
    alloc: Global,
    revision: u64,
    response: &Resource,
) -> Result<Value, OutOfMemory>
    ensures { IfOk result (λ v. view v ≡ operation_data revision response.now) }
{
    let name = operation_name(alloc, revision)?;
    let shown = resource_value(alloc, response)?;
    Ok(json!(in alloc; {"done": true, "name": name.as_str(), "response": shown})?)
}
