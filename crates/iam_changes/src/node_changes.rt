// The renaming, the deletion and the undeletion of folders and projects.
ghost use Rattle.std.specs.Prelude.{◌≡◌, ◌+◌, ◌<◌, ◌^◌, OnOk, OnErr};
ghost use Rattle.iam_model.specs.NodeChanges as spec;

use iam_names::NodeName;
use iam_readings::{deleted, renamed, row_named, undeleted};
use iam_text::{OutOfMemory, Text, put_row};
use iam_types::{Node, Tables};
use std::alloc::Global;

// Puts a node over the row in its place.
#[tactic(auto, unfolding(iam_model::specs::NodeChanges::replaced))]
fn replace_node(tables: &mut Tables, node: Node) -> Result<(), OutOfMemory>
    requires { tables.old.org.changes + 1 < 2 ^ 64 }
    ensures ok { OnOk result (tables.new ≡ spec.with_node_replaced tables.old node) }
    ensures err { OnErr result (tables.new ≡ tables.old) }
{
    put_row(&mut tables.nodes, node)?;
    tables.org.changes += 1;
    Ok(())
}

pub fn rename_folder(
    tables: &mut Tables,
    alloc: Global,
    name: &NodeName,
    display: &Text,
) -> Result<(), OutOfMemory>
    requires { tables.old.org.changes + 1 < 2 ^ 64 }
    ensures ok { OnOk result (tables.new ≡ spec.with_row_made (spec.renamed display.now) tables.old name.now) }
    ensures err { OnErr result (tables.new ≡ tables.old) }
{
    let node = match row_named(tables, name) {
        None => return Ok(()),
        Some(row) => renamed(alloc, row, display)?,
    };
    replace_node(tables, node)
}

pub fn delete_node(tables: &mut Tables, name: &NodeName) -> Result<(), OutOfMemory>
    requires { tables.old.org.changes + 1 < 2 ^ 64 }
    ensures ok { OnOk result (tables.new ≡ spec.with_row_made spec.deleted tables.old name.now) }
    ensures err { OnErr result (tables.new ≡ tables.old) }
{
    let node = match row_named(tables, name) {
        None => return Ok(()),
        Some(row) => deleted(row)?,
    };
    replace_node(tables, node)
}

pub fn undelete_node(tables: &mut Tables, name: &NodeName) -> Result<(), OutOfMemory>
    requires { tables.old.org.changes + 1 < 2 ^ 64 }
    ensures ok { OnOk result (tables.new ≡ spec.with_row_made spec.undeleted tables.old name.now) }
    ensures err { OnErr result (tables.new ≡ tables.old) }
{
    let node = match row_named(tables, name) {
        None => return Ok(()),
        Some(row) => undeleted(row)?,
    };
    replace_node(tables, node)
}
