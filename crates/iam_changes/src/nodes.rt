// The creation of folders and projects.
ghost use Rattle.std.specs.Prelude.{◌≡◌, ◌+◌, ◌<◌, ◌≤◌, ◌^◌, OnOk, OnErr};
ghost use Rattle.std.specs.Option.{option_map_or};
ghost use Rattle.iam_model.specs.Creation as spec;
ghost use Rattle.iam_model.specs.Nodes as node_spec;

use iam_names::{NodeId, NodeName};
use iam_readings::{new_folder, new_project, resolve};
use iam_text::{OutOfMemory, Text, put_row};
use iam_types::{Node, Tables};
use std::alloc::Global;

// Puts a node with the next number in its place.
#[tactic(auto, unfolding(iam_model::specs::Creation::added))]
fn add_node(tables: &mut Tables, node: Node) -> Result<(), OutOfMemory>
    requires next { tables.old.org.next ≤ tables.old.org.changes }
    requires changes { tables.old.org.changes + 1 < 2 ^ 64 }
    ensures ok { OnOk result (tables.new ≡ spec.with_node_added tables.old node) }
    ensures err { OnErr result (tables.new ≡ tables.old) }
{
    put_row(&mut tables.nodes, node)?;
    tables.org.next += 1;
    tables.org.changes += 1;
    Ok(())
}

fn add_folder(
    tables: &mut Tables,
    alloc: Global,
    parent: NodeId,
    display: &Text,
) -> Result<(), OutOfMemory>
    requires next { tables.old.org.next ≤ tables.old.org.changes }
    requires changes { tables.old.org.changes + 1 < 2 ^ 64 }
    ensures ok { OnOk result (tables.new ≡ spec.with_node_added tables.old (spec.new_folder tables.old parent display.now)) }
    ensures err { OnErr result (tables.new ≡ tables.old) }
{
    let node = new_folder(alloc, tables, parent, display)?;
    add_node(tables, node)
}

fn add_project(
    tables: &mut Tables,
    alloc: Global,
    project: &Text,
    parent: NodeId,
    display: &Text,
) -> Result<(), OutOfMemory>
    requires next { tables.old.org.next ≤ tables.old.org.changes }
    requires changes { tables.old.org.changes + 1 < 2 ^ 64 }
    ensures ok { OnOk result (tables.new ≡ spec.with_node_added tables.old (spec.new_project tables.old project.now parent display.now)) }
    ensures err { OnErr result (tables.new ≡ tables.old) }
{
    let node = new_project(alloc, tables, project, parent, display)?;
    add_node(tables, node)
}

pub fn create_folder(
    tables: &mut Tables,
    alloc: Global,
    name: &NodeName,
    display: &Text,
) -> Result<(), OutOfMemory>
    requires next { tables.old.org.next ≤ tables.old.org.changes }
    requires changes { tables.old.org.changes + 1 < 2 ^ 64 }
    ensures ok { OnOk result (tables.new ≡ option_map_or (λ parent. spec.with_node_added tables.old (spec.new_folder tables.old parent display.now)) (node_spec.resolve tables.old name.now) tables.old) }
    ensures err { OnErr result (tables.new ≡ tables.old) }
{
    match resolve(tables, name) {
        None => Ok(()),
        Some(parent) => add_folder(tables, alloc, parent, display),
    }
}

pub fn create_project(
    tables: &mut Tables,
    alloc: Global,
    project: &Text,
    name: &NodeName,
    display: &Text,
) -> Result<(), OutOfMemory>
    requires next { tables.old.org.next ≤ tables.old.org.changes }
    requires changes { tables.old.org.changes + 1 < 2 ^ 64 }
    ensures ok { OnOk result (tables.new ≡ option_map_or (λ parent. spec.with_node_added tables.old (spec.new_project tables.old project.now parent display.now)) (node_spec.resolve tables.old name.now) tables.old) }
    ensures err { OnErr result (tables.new ≡ tables.old) }
{
    match resolve(tables, name) {
        None => Ok(()),
        Some(parent) => add_project(tables, alloc, project, parent, display),
    }
}
