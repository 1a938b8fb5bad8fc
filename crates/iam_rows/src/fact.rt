// The fact of a row.
ghost use Rattle.std.specs.Prelude.{◌≡◌, ◌↔◌, ◌<◌, ◌^◌, true, codes, All, IsTrue, IfOk};
ghost use Rattle.iam_names.specs.Domain.{IsDomain, IsCustomer};
ghost use Rattle.iam_names.specs.Node.{IsNodeId, node_id_text};
ghost use Rattle.iam_names.specs.Number.{IsNodeNumber};
ghost use Rattle.iam_names.specs.Reading.{IsRead};
ghost use Rattle.iam_json_data.specs.Printed.{printed};
ghost use Rattle.iam_model.specs.Formed.{HasNodeForm, IsFact, IsNodeFact, IsOrgFact, IsPolicyFact};
ghost use Rattle.iam_model.specs.Policies as policy_spec;
ghost use Rattle.iam_rows.specs.Rows.{node_data, org_name, org_data, policy_data, HasRow, IsRow};
ghost use Rattle.iam_rows.specs.Finding as spec;
ghost use Rattle.iam_rows.specs.Finding.{Guesses, Finds, IsFactOf, ReadsRow};

use crate::body::{NodeBody, OrgBody, Owner, PolicyBody};
use crate::row::row_of;
use crate::stop::RowStop;
use iam_json_data::{BodyStop, FromJson};
use iam_names::{
    NodeId, NodeKind, is_customer, is_domain, is_folder_display, is_project_display, is_project_id,
};
use iam_outer::Row;
use iam_text::{OutOfMemory, Text, let_go};
use iam_types::{AllowPolicy, Binding, Fact, Node, Org};
use serde_json::Value;
use std::alloc::Global;

fn read_row<T: FromJson + Drop>(alloc: Global, text: &str) -> Result<T, RowStop>
    ensures { ReadsRow T.reads text.now result }
{
    match Value::from_str(alloc, text) {
        Ok(value) => match T::from_json(alloc, &value) {
            Ok(read) => Ok(read),
            Err(BodyStop::OutOfMemory) => Err(RowStop::OutOfMemory),
            Err(_) => Err(RowStop::BadRow),
        },
        Err(e) => {
            if e.is_memory() {
                return Err(RowStop::OutOfMemory);
            }
            Err(RowStop::BadRow)
        }
    }
}

// The node that a row is named by.
fn node_of(row: &Row) -> Option<NodeId>
    ensures { IsRead IsNodeId node_id_text row.now.name result }
{
    NodeId::read(row.name.as_str())
}

fn number_in(kind: NodeKind, number: u64) -> Option<u64>
    ensures { result ≡ spec.number_in kind number }
{
    match kind {
        NodeKind::Organization => Some(number),
        NodeKind::Folder | NodeKind::Project => None,
    }
}

// The organisation that a row is named by.
fn organization_of(row: &Row) -> Option<u64>
    ensures { IsRead IsNodeNumber org_name row.now.name result }
{
    match node_of(row) {
        Some(node) => number_in(node.kind, node.number),
        None => None,
    }
}

fn has_forms(owner: &Owner) -> bool
    ensures { IsTrue result ↔ (IsDomain owner.now.domain × IsCustomer owner.now.customer) }
{
    is_domain(owner.domain.as_str()) && is_customer(owner.customer.as_str())
}

fn org_with(number: u64, body: OrgBody) -> Org
    ensures made { result ≡ spec.org_with number body }
    ensures small { (result.next < 2 ^ 64) × (result.changes < 2 ^ 64) }
{
    Org {
        number,
        domain: body.owner.domain,
        customer: body.owner.customer,
        next: body.counts.next,
        changes: body.counts.changes,
    }
}

fn org_from(alloc: Global, number: u64, text: &str) -> Result<Org, RowStop>
    requires { IsNodeNumber number }
    ensures { Guesses IsOrgFact
        (λ org. IsOrgFact org × (org.number ≡ number) × (text.now ≡ printed (org_data org))) result }
{
    match read_row::<OrgBody>(alloc, text) {
        Ok(body) => {
            if has_forms(&body.owner) {
                return Ok(org_with(number, body));
            }
            Err(RowStop::BadRow)
        }
        Err(stop) => Err(stop),
    }
}

fn is_folder(display: &Text, project: &Option<Text>) -> bool
    ensures { IsTrue result ↔ HasNodeForm NodeKind.Folder display.now project.now }
{
    match project {
        None => is_folder_display(display.as_str()),
        Some(_) => false,
    }
}

fn is_project(display: &Text, project: &Option<Text>) -> bool
    ensures { IsTrue result ↔ HasNodeForm NodeKind.Project display.now project.now }
{
    match project {
        None => false,
        Some(id) => is_project_id(id.as_str()) && is_project_display(display.as_str()),
    }
}

fn has_node_form(kind: NodeKind, body: &NodeBody) -> bool
    ensures { IsTrue result ↔ HasNodeForm kind body.now.display body.now.project }
{
    match kind {
        NodeKind::Organization => false,
        NodeKind::Folder => is_folder(&body.display, &body.project),
        NodeKind::Project => is_project(&body.display, &body.project),
    }
}

fn node_with(id: NodeId, body: NodeBody) -> Node
    ensures { result ≡ spec.node_with id body }
{
    Node {
        id,
        parent: body.parent,
        display: body.display,
        project: body.project,
        active: body.active,
    }
}

fn node_from(alloc: Global, id: NodeId, text: &str) -> Result<Node, RowStop>
    requires { IsNodeId id }
    ensures { Guesses IsNodeFact (λ node. IsNodeFact node × (node.id ≡ id)
        × (text.now ≡ printed (node_data node))) result }
{
    match read_row::<NodeBody>(alloc, text) {
        Ok(body) => {
            if has_node_form(id.kind, &body) {
                return Ok(node_with(id, body));
            }
            Err(RowStop::BadRow)
        }
        Err(stop) => Err(stop),
    }
}

fn has_members(binding: &Binding) -> bool
    ensures { result ≡ policy_spec.has_members binding.now }
{
    !binding.members.is_empty()
}

fn all_have_members(bindings: &[Binding]) -> bool
    ensures { IsTrue result ↔ All (λ binding. policy_spec.has_members binding ≡ true) bindings.now }
{
    for binding in bindings {
        if !has_members(binding) {
            return false;
        }
    }
    true
}

fn policy_with(node: NodeId, body: PolicyBody) -> AllowPolicy
    ensures made { result ≡ spec.policy_with node body }
    ensures small { result.set < 2 ^ 64 }
{
    AllowPolicy {
        node,
        bindings: body.bindings,
        set: body.set,
    }
}

fn policy_from(alloc: Global, node: NodeId, text: &str) -> Result<AllowPolicy, RowStop>
    requires { IsNodeId node }
    ensures { Guesses IsPolicyFact (λ policy. IsPolicyFact policy × (policy.node ≡ node)
        × (text.now ≡ printed (policy_data policy))) result }
{
    match read_row::<PolicyBody>(alloc, text) {
        Ok(body) => {
            if all_have_members(body.bindings.as_slice()) {
                return Ok(policy_with(node, body));
            }
            Err(RowStop::BadRow)
        }
        Err(stop) => Err(stop),
    }
}

fn org_like(alloc: Global, row: &Row) -> Result<Org, RowStop>
    ensures { Guesses IsOrgFact
        (λ org. IsOrgFact org × IsRow (codes "org") (org_name org.number) (org_data org) row.now) result }
{
    match organization_of(row) {
        Some(number) => org_from(alloc, number, row.body.as_str()),
        None => Err(RowStop::BadRow),
    }
}

fn policy_like(alloc: Global, row: &Row) -> Result<AllowPolicy, RowStop>
    ensures { Guesses IsPolicyFact
        (λ policy. IsPolicyFact policy × IsRow (codes "allow") (node_id_text policy.node) (policy_data policy) row.now) result }
{
    match node_of(row) {
        Some(node) => policy_from(alloc, node, row.body.as_str()),
        None => Err(RowStop::BadRow),
    }
}

fn node_like(alloc: Global, row: &Row) -> Result<Node, RowStop>
    ensures { Guesses IsNodeFact
        (λ node. IsNodeFact node × IsRow (codes "node") (node_id_text node.id) (node_data node) row.now) result }
{
    match node_of(row) {
        Some(id) => node_from(alloc, id, row.body.as_str()),
        None => Err(RowStop::BadRow),
    }
}

fn is_part(row: &Row, part: &str) -> bool
    ensures { IsTrue result ↔ (row.now.part ≡ part.now) }
{
    row.part.as_str() == part
}

fn fact_like(alloc: Global, row: &Row) -> Result<Fact, RowStop>
    ensures { Guesses IsFact (IsFactOf row.now) result }
{
    if is_part(row, "org") {
        return match org_like(alloc, row) {
            Ok(org) => Ok(Fact::Org(org)),
            Err(stop) => Err(stop),
        };
    }
    if is_part(row, "node") {
        return match node_like(alloc, row) {
            Ok(node) => Ok(Fact::Node(node)),
            Err(stop) => Err(stop),
        };
    }
    if is_part(row, "allow") {
        return match policy_like(alloc, row) {
            Ok(policy) => Ok(Fact::Allow(policy)),
            Err(stop) => Err(stop),
        };
    }
    Err(RowStop::BadRow)
}

fn same_text(a: &Text, b: &Text) -> bool
    ensures { IsTrue result ↔ (a.now ≡ b.now) }
{
    a.as_str() == b.as_str()
}

fn same_row(a: &Row, b: &Row) -> bool
    ensures { IsTrue result ↔ ((a.now.part ≡ b.now.part) × (a.now.name ≡ b.now.name) × (a.now.body ≡ b.now.body)) }
{
    same_text(&a.part, &b.part) && same_text(&a.name, &b.name) && same_text(&a.body, &b.body)
}

// Whether this is the fact's row, byte for byte.
#[tactic(auto, using(crate::proofs::Same::has_same_row, crate::proofs::Same::one_row))]
fn keeps(alloc: Global, row: &Row, fact: &Fact) -> Result<bool, OutOfMemory>
    requires { IsFact fact.now }
    ensures { IfOk result (λ kept. IsTrue kept ↔ HasRow fact.now row.now) }
{
    let again = row_of(alloc, fact)?;
    Ok(same_row(&again, row))
}

/// The fact that a row keeps. The row has to be its row byte for byte.
pub fn fact_of(alloc: Global, row: &Row) -> Result<Fact, RowStop>
    ensures { Finds (IsFactOf row.now) result }
{
    let fact = fact_like(alloc, row)?;
    match keeps(alloc, row, &fact) {
        Ok(true) => Ok(fact),
        Ok(false) => {
            let_go(fact);
            Err(RowStop::BadRow)
        }
        Err(_) => {
            let_go(fact);
            Err(RowStop::OutOfMemory)
        }
    }
}
