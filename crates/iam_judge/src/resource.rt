// What conditions see of a node.
ghost use Rattle.std.specs.Prelude.{◌≡◌, IfOk};
ghost use Rattle.iam_law.specs.ResourceFacts.{facts_of_node, kind_text};

use iam_names::{NodeId, NodeKind};
use iam_text::{OutOfMemory, Text};
use iam_types::ResourceFacts;
use std::alloc::Global;

fn kind_of(kind: NodeKind) -> &'static str
    ensures { result.now ≡ kind_text kind }
{
    match kind {
        NodeKind::Organization => "cloudresourcemanager.googleapis.com/Organization",
        NodeKind::Folder => "cloudresourcemanager.googleapis.com/Folder",
        NodeKind::Project => "cloudresourcemanager.googleapis.com/Project",
    }
}

/// What conditions see of the node.
pub fn resource_facts_of(alloc: Global, node: NodeId) -> Result<ResourceFacts, OutOfMemory>
    ensures { IfOk result (λ facts. facts ≡ facts_of_node node) }
{
    Ok(ResourceFacts {
        kind: Text::of(alloc, kind_of(node.kind))?,
        service: Text::of(alloc, "cloudresourcemanager.googleapis.com")?,
        name: node.text(alloc)?,
    })
}
