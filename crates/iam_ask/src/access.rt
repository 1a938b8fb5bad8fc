// Access to a node by its name, of a permission by its text.
ghost use Rattle.std.specs.Prelude.{◌≡◌, [], IfOk, IsTrue, string_bytes};
ghost use Rattle.iam_model.specs.Catalogue.{is_permission};
ghost use Rattle.iam_model.specs.Nodes.{exists};
ghost use Rattle.iam_law.specs.Asked as asked_spec;
ghost use Rattle.iam_law.specs.Decide.{decide};
ghost use Rattle.iam_ask.specs.Access as access_spec;
ghost use Rattle.iam_ask.specs.Access.{access, access_line};

use crate::words::words_of;
use iam_catalogue::{Catalogue, permission_named};
use iam_judge::{Index, decision_on};
use iam_names::{Caller, NodeId, NodeName, PermissionName};
use iam_readings::resolve;
use iam_text::{Moment, OutOfMemory, Text};
use std::alloc::Global;

fn is_known(catalogue: &Catalogue, text: &str) -> bool
    ensures { result ≡ is_permission text.now }
{
    catalogue
        .permissions()
        .iter()
        .any(|permit| permit.name.as_str() == text)
}

fn decided(
    alloc: Global,
    index: &Index,
    caller: &Caller,
    moment: Moment,
    permission: PermissionName,
    node: NodeId,
) -> Result<String, OutOfMemory>
    requires node { IsTrue (exists index.now node) }
    requires permission { IsTrue (is_permission permission) }
    ensures { IfOk result (λ text. string_bytes text ≡ access_spec.words_of (decide index.now (asked_spec.query_on caller.now moment [] permission node))) }
{
    let decision = decision_on(alloc, index, caller, moment, &permission, node)?;
    words_of(alloc, &decision)
}

fn access_at(
    alloc: Global,
    index: &Index,
    caller: &Caller,
    moment: Moment,
    permission: &str,
    node: NodeId,
) -> Result<String, OutOfMemory>
    requires { IsTrue (exists index.now node) }
    ensures { IfOk result (λ text. string_bytes text ≡ access_spec.access_at index.now caller.now moment permission.now node) }
{
    if !is_known(index.catalogue(), permission) {
        return Ok(String::from_str(alloc, "PERMISSION_UNKNOWN")?);
    }
    let known = permission_named(alloc, permission)?;
    decided(alloc, index, caller, moment, known, node)
}

fn access_to(
    alloc: Global,
    index: &Index,
    caller: &Caller,
    moment: Moment,
    node: &NodeName,
    permission: &str,
) -> Result<String, OutOfMemory>
    ensures { IfOk result (λ text. string_bytes text ≡ access index.now caller.now moment node.now permission.now) }
{
    match resolve(index.tables(), node) {
        Some(id) => access_at(alloc, index, caller, moment, permission, id),
        None => Ok(String::from_str(alloc, "NOT_FOUND")?),
    }
}

/// The line that says whether the caller may use the permission on the node, at this moment, and what decides it.
pub fn ask(
    alloc: Global,
    index: &Index,
    caller: &Caller,
    node: &NodeName,
    permission: &str,
    moment: Moment,
) -> Result<Text, OutOfMemory>
    ensures { IfOk result (λ line. line ≡ access_line index.now caller.now moment node.now permission.now) }
{
    let mut line = access_to(alloc, index, caller, moment, node, permission)?;
    line.push_str("\n")?;
    Ok(Text::from(line))
}
