//! Nodes and what makes them, as they are shown. The kind is `thing NAME`; `thing` has the names.
use iam_json::answer_body;
use iam_names::{NodeId, NodeKind};
use iam_text::{List, OutOfMemory, Text, let_go};
use iam_types::{Answer, Node, Resource};
use std::alloc::Global;

fn node(alloc: Global, kind: NodeKind, active: bool) -> Result<Node, OutOfMemory> {
    let project = match kind {
        NodeKind::Project => Some(Text::of(alloc, "alpha-1")?),
        _ => None,
    };
    Ok(Node {
        id: NodeId { kind, number: 7 },
        parent: NodeId {
            kind: NodeKind::Organization,
            number: 1000,
        },
        display: Text::of(alloc, "Ops")?,
        project,
        active,
    })
}

fn organization(alloc: Global) -> Result<Resource, OutOfMemory> {
    Ok(Resource::Organization {
        number: 1000,
        domain: Text::of(alloc, "example.com")?,
        customer: Text::of(alloc, "C01")?,
    })
}

fn one(alloc: Global) -> Result<List<Node>, OutOfMemory> {
    let mut nodes = List::new(alloc);
    nodes.push(node(alloc, NodeKind::Folder, true)?)?;
    Ok(nodes)
}

fn thing(alloc: Global, name: &str) -> Result<Answer, OutOfMemory> {
    Ok(match name {
        "organization" => Answer::Resource(organization(alloc)?),
        "folder" => Answer::Resource(Resource::Node(node(alloc, NodeKind::Folder, true)?)),
        "deleted-folder" => Answer::Resource(Resource::Node(node(alloc, NodeKind::Folder, false)?)),
        "project" => Answer::Resource(Resource::Node(node(alloc, NodeKind::Project, true)?)),
        "made-folder" => Answer::Operation {
            revision: 12,
            response: Resource::Node(node(alloc, NodeKind::Folder, true)?),
        },
        "gone-project" => Answer::Operation {
            revision: 12,
            response: Resource::Node(node(alloc, NodeKind::Project, false)?),
        },
        "made-nothing" => Answer::Operation {
            revision: 12,
            response: Resource::Nothing,
        },
        "folders" => Answer::Folders(one(alloc)?),
        _ => Answer::Projects(List::new(alloc)),
    })
}

/// What an answer shows. The answer is let go before anything else can be refused.
pub fn body_text(alloc: Global, answer: Answer) -> Result<Text, OutOfMemory> {
    let body = answer_body(alloc, &answer);
    let_go(answer);
    body
}

/// Puts what is shown of the thing of a name behind a text.
pub fn push_thing(alloc: Global, name: &str, out: &mut String) -> Result<(), OutOfMemory> {
    let body = body_text(alloc, thing(alloc, name)?)?;
    out.push_str(body.as_str())?;
    Ok(())
}
