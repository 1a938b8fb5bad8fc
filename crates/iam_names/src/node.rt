// Names of organisations, folders and projects.
ghost use Rattle.std.specs.Prelude.{◌≡◌, ◌≢◌, ◌↔◌, ◌++◌, List as Bytes, ℕ, codes, IfOk, IfSome, IfNone, IsTrue};
ghost use Rattle.std.specs.Cmp.Lexicographic.{slice_cmp};
ghost use Rattle.std.specs.Fmt.{decimal};
ghost use Rattle.std.specs.Ordering.{nat_cmp};
ghost use Rattle.iam_names.specs.Node.{collection_of, name_of_node, node_id_text, node_text, IsNodeId, IsNodeName, IsProjectId};
ghost use Rattle.iam_names.specs.Reading.{IsRead, ReadsBack};

use crate::bytes::{all_label_bytes, is_lower};
use crate::limits::{PROJECT_ID_BYTES, PROJECT_ID_LEAST};
use crate::number::number_behind;
use crate::text::{behind, numbered, prefixed};
use iam_text::{OutOfMemory, Text};
use itoa::Buffer;
use std::alloc::Global;
use std::cmp::Ordering;

#[derive(Clone, Copy, Debug, PartialEq, Eq)]
pub enum NodeKind {
    Organization,
    Folder,
    Project,
}

/// A node by its number, which is never given again.
#[derive(Clone, Copy, Debug, PartialEq, Eq)]
pub struct NodeId {
    pub kind: NodeKind,
    pub number: u64,
}

/// A node as a request names it.
#[derive(Clone, PartialEq, Eq, Drop)]
pub enum NodeName {
    Organization(u64),
    Folder(u64),
    ProjectNumber(u64),
    ProjectId(Text),
}

fn collection(kind: NodeKind) -> &'static str
    ensures { result.now ≡ collection_of kind }
{
    match kind {
        NodeKind::Organization => "organizations/",
        NodeKind::Folder => "folders/",
        NodeKind::Project => "projects/",
    }
}

/// Whether a text is the id of a project.
pub fn is_project_id(text: &str) -> bool
    ensures { IsTrue result ↔ IsProjectId text.now }
{
    let bytes = text.as_bytes();
    if bytes.len() < PROJECT_ID_LEAST || bytes.len() > PROJECT_ID_BYTES {
        return false;
    }
    if !is_lower(bytes[0]) || bytes[bytes.len() - 1] == b'-' {
        return false;
    }
    all_label_bytes(bytes)
}

// The id of the project that a text names by it.
fn project_id_behind(text: &str) -> Option<&str>
    ensures some { IfSome result (λ id. IsProjectId id.now × (text.now ≡ codes "projects/" ++ id.now)) }
    ensures none { IfNone result ((id : Bytes ℕ) → IsProjectId id → text.now ≢ codes "projects/" ++ id) }
{
    let id = behind("projects/", text)?;
    if is_project_id(id) { Some(id) } else { None }
}

fn digits_order(a: u64, b: u64) -> Ordering
    ensures { result ≡ slice_cmp nat_cmp (decimal a) (decimal b) }
{
    let mut first = Buffer::new();
    let mut second = Buffer::new();
    first.format(a).cmp(second.format(b))
}

impl NodeId {
    /// The node that a text names by its number.
    pub fn read(text: &str) -> Option<NodeId>
        ensures read { IsRead IsNodeId node_id_text text.now result }
        ensures back { ReadsBack IsNodeId node_id_text text.now result }
    {
        if let Some(number) = number_behind("organizations/", text) {
            return Some(NodeId {
                kind: NodeKind::Organization,
                number,
            });
        }
        if let Some(number) = number_behind("folders/", text) {
            return Some(NodeId {
                kind: NodeKind::Folder,
                number,
            });
        }
        let Some(number) = number_behind("projects/", text) else {
            return None;
        };
        Some(NodeId {
            kind: NodeKind::Project,
            number,
        })
    }

    /// Its name by its number.
    pub fn name(self) -> NodeName
        ensures { result ≡ name_of_node self }
    {
        match self.kind {
            NodeKind::Organization => NodeName::Organization(self.number),
            NodeKind::Folder => NodeName::Folder(self.number),
            NodeKind::Project => NodeName::ProjectNumber(self.number),
        }
    }

    pub fn text(&self, alloc: Global) -> Result<Text, OutOfMemory>
        ensures { IfOk result (λ text. text ≡ node_id_text self.now) }
    {
        numbered(alloc, collection(self.kind), self.number)
    }

    /// Where the node's name stands beside another's, in bytes. The collections' names differ in their first letters.
    pub fn name_order(self, other: NodeId) -> Ordering
        ensures { result ≡ slice_cmp nat_cmp (node_id_text self) (node_id_text other) }
    {
        match (self.kind, other.kind) {
            (NodeKind::Folder, NodeKind::Folder)
            | (NodeKind::Organization, NodeKind::Organization)
            | (NodeKind::Project, NodeKind::Project) => digits_order(self.number, other.number),
            (NodeKind::Folder, _) | (NodeKind::Organization, NodeKind::Project) => Ordering::Less,
            (NodeKind::Project, _) | (NodeKind::Organization, NodeKind::Folder) =>
                Ordering::Greater,
        }
    }
}

impl NodeName {
    /// The node that a text names: an organisation or a folder by its number, or a project by its number or its id.
    pub fn read(alloc: Global, text: &str) -> Result<Option<NodeName>, OutOfMemory>
        ensures read { IfOk result (IsRead IsNodeName node_text text.now) }
        ensures back { IfOk result (ReadsBack IsNodeName node_text text.now) }
    {
        if let Some(node) = NodeId::read(text) {
            return Ok(Some(node.name()));
        }
        let Some(id) = project_id_behind(text) else {
            return Ok(None);
        };
        Ok(Some(NodeName::ProjectId(Text::of(alloc, id)?)))
    }

    pub fn text(&self, alloc: Global) -> Result<Text, OutOfMemory>
        ensures { IfOk result (λ text. text ≡ node_text self.now) }
    {
        match self {
            NodeName::Organization(number) => numbered(alloc, "organizations/", *number),
            NodeName::Folder(number) => numbered(alloc, "folders/", *number),
            NodeName::ProjectNumber(number) => numbered(alloc, "projects/", *number),
            NodeName::ProjectId(id) => prefixed(alloc, "projects/", id.as_str()),
        }
    }
}

pub fn same_node_kind(a: &NodeKind, b: &NodeKind) -> bool
    ensures { IsTrue result ↔ (a.now ≡ b.now) }
{
    *a == *b
}

pub fn same_node_id(a: &NodeId, b: &NodeId) -> bool
    ensures { IsTrue result ↔ (a.now ≡ b.now) }
{
    *a == *b
}

pub fn same_node_name(a: &NodeName, b: &NodeName) -> bool
    ensures { IsTrue result ↔ (a.now ≡ b.now) }
{
    *a == *b
}

pub fn copy_node_name(name: &NodeName) -> Result<NodeName, OutOfMemory>
    ensures { IfOk result (λ copy. copy ≡ name.now) }
{
    match name.clone() {
        Ok(copy) => Ok(copy),
        Err(_) => Err(OutOfMemory),
    }
}
