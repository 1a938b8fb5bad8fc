// Trees with both ends of their spans. What has many kinds is let go before anything can be refused.
use cel_syntax::{ReadStop, print, read};
use cel_tree::{Expr, Span, same};
use iam_text::{OutOfMemory, let_go};
use std::alloc::Global;

/// The tree of a text, if it has one.
pub fn tree_of(alloc: Global, text: &str) -> Result<Option<Expr>, OutOfMemory> {
    match read(alloc, text) {
        Ok(tree) => Ok(Some(tree)),
        Err(ReadStop::Syntax(_)) => Ok(None),
        Err(ReadStop::OutOfMemory) => Err(OutOfMemory),
    }
}

// A node, printed, behind both ends of its span.
fn push_node(alloc: Global, tree: &Expr, line: &mut String) -> Result<(), OutOfMemory> {
    let Span { from, to } = tree.span();
    let printed = print(alloc, tree)?;
    let node = format!(in alloc; "{from}-{to} {}", printed.as_str())?;
    if !line.is_empty() {
        line.push_str("; ")?;
    }
    line.push_str(node.as_str())?;
    Ok(())
}

#[cycle(nodes)]
fn push_nodes(alloc: Global, tree: &Expr, line: &mut String) -> Result<(), OutOfMemory> {
    push_node(alloc, tree, line)?;
    match tree {
        Expr::Bool(_, _) | Expr::Int(_, _) | Expr::Str(_, _) | Expr::Name(_, _) => Ok(()),
        Expr::Select(_, operand, _) | Expr::Not(_, operand) | Expr::Neg(_, operand) => {
            push_nodes(alloc, operand.get(), line)
        }
        Expr::Call(_, _, parts) | Expr::Many(_, parts) => push_all(alloc, parts.as_slice(), line),
        Expr::Method(_, operand, _, arguments) => {
            push_nodes(alloc, operand.get(), line)?;
            push_all(alloc, arguments.as_slice(), line)
        }
        Expr::Two(_, _, left, right) => {
            push_nodes(alloc, left.get(), line)?;
            push_nodes(alloc, right.get(), line)
        }
        Expr::Pick(_, condition, if_true, if_false) => {
            push_nodes(alloc, condition.get(), line)?;
            push_nodes(alloc, if_true.get(), line)?;
            push_nodes(alloc, if_false.get(), line)
        }
    }
}

#[cycle(nodes)]
fn push_all(alloc: Global, trees: &[Expr], line: &mut String) -> Result<(), OutOfMemory> {
    for tree in trees {
        push_nodes(alloc, tree, line)?;
    }
    Ok(())
}

fn nodes_line(alloc: Global, tree: Expr) -> Result<String, OutOfMemory> {
    let mut line = String::new(alloc);
    let pushed = push_nodes(alloc, &tree, &mut line);
    let_go(tree);
    pushed?;
    Ok(line)
}

/// The nodes of a text's tree, each before its parts.
pub fn tree_line(alloc: Global, text: &str) -> Result<String, OutOfMemory> {
    match tree_of(alloc, text)? {
        Some(tree) => nodes_line(alloc, tree),
        None => Ok(String::from_str(alloc, "?")?),
    }
}

fn compared(left: Expr, right: Expr) -> &'static str {
    let is_same = same(&left, &right);
    let_go(left);
    let_go(right);
    if is_same { "same" } else { "different" }
}

fn compared_with(alloc: Global, left: Expr, text: &str) -> Result<&'static str, OutOfMemory> {
    match tree_of(alloc, text) {
        Ok(Some(right)) => Ok(compared(left, right)),
        Ok(None) => {
            let_go(left);
            Ok("?")
        }
        Err(stop) => {
            let_go(left);
            Err(stop)
        }
    }
}

/// Whether the trees of two texts with ` ; ` between them are equal, spans too.
pub fn same_line(alloc: Global, texts: &str) -> Result<String, OutOfMemory> {
    let (left, right) = texts.split_once(" ; ").unwrap_or((texts, ""));
    let answer = match tree_of(alloc, left)? {
        Some(left) => compared_with(alloc, left, right)?,
        None => "?",
    };
    Ok(String::from_str(alloc, answer)?)
}
