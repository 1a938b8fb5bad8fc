// The numbers of nodes, and the ids of projects, which facts may break.
ghost use Rattle.std.specs.Prelude.{◌≡◌, ◌↔◌, ◌≤◌, ◌<◌, IsTrue};
ghost use Rattle.std.specs.List.{All, list_all, list_any};
ghost use Rattle.iam_model.specs.Consistent.{NumbersFit};
ghost use Rattle.iam_model.specs.Hierarchy as spec;

use iam_text::Text;
use iam_types::{Node, Tables};

fn same_project_id(a: &Option<Text>, b: &Option<Text>) -> bool
    ensures { result ≡ spec.same_project_id a.now b.now }
{
    match a {
        Some(a) => match b {
            Some(b) => a.as_str() == b.as_str(),
            None => false,
        },
        None => false,
    }
}

fn share_project_id(a: &Node, b: &Node) -> bool
    ensures { result ≡ spec.share_project_id a.now b.now }
{
    a.id != b.id && same_project_id(&a.project, &b.project)
}

fn share_number(a: &Node, b: &Node) -> bool
    ensures { result ≡ spec.share_number a.now b.now }
{
    a.id != b.id && a.id.number == b.id.number
}

fn shares_id(nodes: &[Node], row: &Node) -> bool
    ensures { result ≡ list_any (spec.share_project_id row.now) nodes.now }
{
    nodes.iter().any(|other| share_project_id(row, other))
}

fn has_own_id(nodes: &[Node], row: &Node) -> bool
    ensures { result ≡ spec.is_alone spec.share_project_id nodes.now row.now }
{
    !shares_id(nodes, row)
}

fn shares_number(nodes: &[Node], row: &Node) -> bool
    ensures { result ≡ list_any (spec.share_number row.now) nodes.now }
{
    nodes.iter().any(|other| share_number(row, other))
}

fn has_own_number(nodes: &[Node], row: &Node) -> bool
    ensures { result ≡ spec.is_alone spec.share_number nodes.now row.now }
{
    !shares_number(nodes, row)
}

fn ids_differ(nodes: &[Node]) -> bool
    ensures { result ≡ list_all (spec.is_alone spec.share_project_id nodes.now) nodes.now }
{
    nodes.iter().all(|row| has_own_id(nodes, row))
}

fn numbers_differ(nodes: &[Node]) -> bool
    ensures { result ≡ list_all (spec.is_alone spec.share_number nodes.now) nodes.now }
{
    nodes.iter().all(|row| has_own_number(nodes, row))
}

fn numbers_are_given(tables: &Tables) -> bool
    ensures { IsTrue result ↔ All (λ node. (1 ≤ node.id.number) × (node.id.number < tables.now.org.next)) tables.now.nodes }
{
    tables.nodes.as_slice().iter().all(|row| row.id.number >= 1 && row.id.number < tables.org.next)
}

fn next_fits(tables: &Tables) -> bool
    ensures { IsTrue result ↔ ((1 ≤ tables.now.org.next) × (tables.now.org.next ≤ tables.now.org.changes)) }
{
    tables.org.next >= 1 && tables.org.next <= tables.org.changes
}

/// Whether projects have different ids, and nodes different numbers, from 1 and below the next, which is from 1 to
/// the number of changes.
pub fn numbers_fit(tables: &Tables) -> bool
    ensures { IsTrue result ↔ NumbersFit tables.now }
{
    let nodes = tables.nodes.as_slice();
    if !ids_differ(nodes) {
        return false;
    }
    if !numbers_differ(nodes) {
        return false;
    }
    if !numbers_are_given(tables) {
        return false;
    }
    next_fits(tables)
}
