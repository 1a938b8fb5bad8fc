// Tables of the facts of rows, the first rule that these break, and what the tables tell of nodes.
ghost use Rattle.std.specs.Prelude.{IfOk, All};
ghost use Rattle.iam_model.specs.Formed.{IsFact};

use crate::rows::rows;
use crate::words::cut;
use iam_names::{NodeId, NodeKind};
use iam_outer::Row;
use iam_readings::{children_of, way_up};
use iam_rows::{LoadStop, facts_of_rows};
use iam_tables::{TablesStop, from_facts};
use iam_text::{List, OutOfMemory, let_go};
use iam_types::{Fact, Tables};
use std::alloc::Global;
use std::fmt::Write;

fn tell_children(
    alloc: Global,
    tables: &Tables,
    kind: NodeKind,
    parent: NodeId,
    out: &mut String,
) -> Result<(), OutOfMemory> {
    let children = children_of(alloc, tables, kind, parent)?;
    for child in children.as_slice() {
        write!(out, "{} ", child.id.number)?;
    }
    Ok(())
}

fn tell_way(
    alloc: Global,
    tables: &Tables,
    node: NodeId,
    out: &mut String,
) -> Result<(), OutOfMemory> {
    let way = way_up(alloc, tables, node)?;
    for node in way.as_slice() {
        write!(out, "{} ", node.number)?;
    }
    Ok(())
}

// Tells what is asked of tables, and that there are some where that names no node.
fn tell_asked(
    alloc: Global,
    tables: &Tables,
    asked: &str,
    out: &mut String,
) -> Result<(), OutOfMemory> {
    let (what, name) = cut(asked, " ");
    let Some(node) = NodeId::read(name) else {
        return Ok(out.push_str("tables ")?);
    };
    match what {
        "folders" => tell_children(alloc, tables, NodeKind::Folder, node, out),
        "projects" => tell_children(alloc, tables, NodeKind::Project, node, out),
        _ => tell_way(alloc, tables, node, out),
    }
}

fn tell_tables(
    alloc: Global,
    facts: List<Fact>,
    asked: &str,
    out: &mut String,
) -> Result<(), OutOfMemory>
    requires { All IsFact facts }
{
    match from_facts(alloc, facts) {
        Ok(tables) => {
            let told = tell_asked(alloc, &tables, asked, out);
            let_go(tables);
            told
        }
        Err(TablesStop::Inconsistent { rule }) => Ok(write!(out, "rule {rule} ")?),
        Err(TablesStop::OutOfMemory) => Err(OutOfMemory),
    }
}

// The call stands in a function of its own, which promises no more than the next one asks for.
fn facts_in(alloc: Global, rows: &[Row]) -> Result<List<Fact>, LoadStop>
    ensures { IfOk result (All IsFact) }
{
    facts_of_rows(alloc, rows)
}

/// Tells of the tables of rows what is asked, or the first rule that their facts break, and how many facts there are; or else the
/// place of the first bad row.
pub fn tell_rows(
    alloc: Global,
    asked: &str,
    words: &str,
    out: &mut String,
) -> Result<(), OutOfMemory> {
    let rows = rows(alloc, words)?;
    match facts_in(alloc, rows.as_slice()) {
        Ok(facts) => {
            let count = facts.len();
            tell_tables(alloc, facts, asked, out)?;
            Ok(write!(out, "of {count} facts")?)
        }
        Err(LoadStop::BadRow { index }) => Ok(write!(out, "bad row {index}")?),
        Err(LoadStop::OutOfMemory) => Err(OutOfMemory),
    }
}
