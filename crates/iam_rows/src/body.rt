// The bodies of rows.
ghost use Rattle.std.specs.Prelude.{◌≡◌, [], MatchOption, Ok, Err, option_map};
ghost use Rattle.serde_json.specs.View.{view};
ghost use Rattle.iam_json_data.specs.Reading.{Gives};
ghost use Rattle.iam_rows.specs.Bodies.{ReadsCounts, ReadsNode, ReadsOwner};

use iam_json_data::{BodyStop, FromJson, bad_here, read_member, read_required};
use iam_names::NodeId;
use iam_text::{List, Text};
use iam_types::Binding;
use serde_json::Value;
use std::alloc::Global;

/// Any text.
#[derive(Drop)]
pub struct AnyText {
    pub text: Text,
}

/// True or false.
#[derive(Drop)]
pub struct Flag {
    pub is_set: bool,
}

/// A node by its name, with its number.
#[derive(Drop)]
pub struct NamedNode {
    pub node: NodeId,
}

/// The numbers of the organisation's row.
#[derive(Drop)]
pub struct Counts {
    pub changes: u64,
    pub next: u64,
}

/// The texts of the organisation's row.
#[derive(Drop)]
pub struct Owner {
    pub customer: Text,
    pub domain: Text,
}

/// What the body of the organisation's row has, but for its schema.
#[derive(Drop)]
pub struct OrgBody {
    pub counts: Counts,
    pub owner: Owner,
}

/// What the body of a node's row has.
#[derive(Drop)]
pub struct NodeBody {
    pub active: bool,
    pub display: Text,
    pub parent: NodeId,
    pub project: Option<Text>,
}

/// What the body of an allow policy's row has.
#[derive(Drop)]
pub struct PolicyBody {
    pub bindings: List<Binding>,
    pub set: u64,
}

impl FromJson for AnyText {
    ghost use Rattle.iam_rows.specs.Bodies.{ReadsAnyText};

    ghost reads = { ReadsAnyText };

    fn from_json(alloc: Global, value: &Value) -> Result<AnyText, BodyStop> {
        match value.as_str() {
            Some(text) => Ok(AnyText {
                text: Text::of(alloc, text)?,
            }),
            None => Err(bad_here(alloc)),
        }
    }
}

impl FromJson for Flag {
    ghost use Rattle.iam_rows.specs.Bodies.{ReadsFlag};

    ghost reads = { ReadsFlag };

    fn from_json(alloc: Global, value: &Value) -> Result<Flag, BodyStop> {
        match value.as_bool() {
            Some(is_set) => Ok(Flag { is_set }),
            None => Err(bad_here(alloc)),
        }
    }
}

fn named_node(alloc: Global, read: Option<NodeId>) -> Result<NamedNode, BodyStop>
    ensures { MatchOption read (result ≡ Err (BodyStop.BadField [])) (λ node. result ≡ Ok (record { node = node })) }
{
    match read {
        Some(node) => Ok(NamedNode { node }),
        None => Err(bad_here(alloc)),
    }
}

impl FromJson for NamedNode {
    ghost use Rattle.iam_rows.specs.Bodies.{ReadsNamedNode};

    ghost reads = { ReadsNamedNode };

    fn from_json(alloc: Global, value: &Value) -> Result<NamedNode, BodyStop> {
        match value.as_str() {
            Some(text) => named_node(alloc, NodeId::read(text)),
            None => Err(bad_here(alloc)),
        }
    }
}

fn read_counts(alloc: Global, value: &Value) -> Result<Counts, BodyStop>
    ensures { Gives (ReadsCounts (view value.now)) result }
{
    let changes = read_required(alloc, "changes", value)?;
    let next = read_required(alloc, "next", value)?;
    Ok(Counts { changes, next })
}

fn read_owner(alloc: Global, value: &Value) -> Result<Owner, BodyStop>
    ensures { Gives (ReadsOwner (view value.now)) result }
{
    let customer: AnyText = read_required(alloc, "customer", value)?;
    let domain: AnyText = read_required(alloc, "domain", value)?;
    Ok(Owner {
        customer: customer.text,
        domain: domain.text,
    })
}

impl FromJson for OrgBody {
    ghost use Rattle.iam_rows.specs.Bodies.{ReadsOrgBody};

    ghost reads = { ReadsOrgBody };

    fn from_json(alloc: Global, value: &Value) -> Result<OrgBody, BodyStop> {
        if !value.is_object() {
            return Err(bad_here(alloc));
        }
        let counts = read_counts(alloc, value)?;
        let owner = read_owner(alloc, value)?;
        Ok(OrgBody { counts, owner })
    }
}

fn text_of(any: Option<AnyText>) -> Option<Text>
    ensures { result ≡ option_map (λ any. any.text) any }
{
    match any {
        Some(any) => Some(any.text),
        None => None,
    }
}

fn read_node(alloc: Global, value: &Value) -> Result<NodeBody, BodyStop>
    ensures { Gives (ReadsNode (view value.now)) result }
{
    let active: Flag = read_required(alloc, "active", value)?;
    let display: AnyText = read_required(alloc, "display", value)?;
    let parent: NamedNode = read_required(alloc, "parent", value)?;
    let project = text_of(read_member(alloc, "project", value)?);
    Ok(NodeBody {
        active: active.is_set,
        display: display.text,
        parent: parent.node,
        project,
    })
}

impl FromJson for NodeBody {
    ghost use Rattle.iam_rows.specs.Bodies.{ReadsNodeBody};

    ghost reads = { ReadsNodeBody };

    fn from_json(alloc: Global, value: &Value) -> Result<NodeBody, BodyStop> {
        if !value.is_object() {
            return Err(bad_here(alloc));
        }
        read_node(alloc, value)
    }
}

impl FromJson for PolicyBody {
    ghost use Rattle.iam_rows.specs.Bodies.{ReadsPolicyBody};

    ghost reads = { ReadsPolicyBody };

    fn from_json(alloc: Global, value: &Value) -> Result<PolicyBody, BodyStop> {
        if !value.is_object() {
            return Err(bad_here(alloc));
        }
        let bindings = read_required(alloc, "bindings", value)?;
        let set = read_required(alloc, "set", value)?;
        Ok(PolicyBody { bindings, set })
    }
}
