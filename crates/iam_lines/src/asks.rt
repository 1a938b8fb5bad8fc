//! What messages ask for, and what is refused of them. The kinds are
//!
//! - `ask METHOD TARGET CALLER BODY`: the number of the refusal and the path of a bad member, or the caller, what it wants of which
//!   node, and what it gives as an answer would show it. A setting without an etag overwrites;
//! - `ask-from FLOOR METHOD TARGET CALLER BODY`, with the header `x-iam-min-revision`.
//!
//! In a method `_` stands for a space. A caller and a floor are the header's value, `-` where there is none, and `!` where it can't
//! be read.
//!
//! The kinds of `messages` and `things` are asked for here, too.
use crate::words::cut;
use crate::{messages, things};
use iam_json::{Call, Details, ErrorReply};
use iam_names::{NodeName, PermissionName};
use iam_routes::{Asked, Routes, asked};
use iam_text::{List, OutOfMemory, Text, let_go};
use iam_types::{Answer, Ask, Binding, Command};
use iam_wire::{Field, Message};
use std::alloc::{AllocError, Global};
use std::fmt::Write;

fn field_of(alloc: Global, word: &str) -> Result<Field, OutOfMemory> {
    match word {
        "-" => Ok(Field::Absent),
        "!" => Ok(Field::Bad),
        _ => Ok(Field::One(Text::of(alloc, word)?)),
    }
}

fn body_of(alloc: Global, text: &str) -> Result<List<u8>, OutOfMemory> {
    let mut body = List::new(alloc);
    body.push_all(text.as_bytes())?;
    Ok(body)
}

fn message_of(alloc: Global, floor: &str, words: &str) -> Result<Message, OutOfMemory> {
    let (method, words) = cut(words, " ");
    let (target, words) = cut(words, " ");
    let (caller, body) = cut(words, " ");
    let method = method.replace(alloc, '_', " ")?;
    Ok(Message {
        method: Text::of(alloc, method.as_str())?,
        target: Text::of(alloc, target)?,
        caller: field_of(alloc, caller)?,
        floor: field_of(alloc, floor)?,
        last: false,
        body: body_of(alloc, body)?,
    })
}

fn asked_by(alloc: Global, floor: &str, words: &str) -> Result<Asked, OutOfMemory> {
    let message = message_of(alloc, floor, words)?;
    let routes = Routes::new(alloc)?;
    asked(alloc, &message, &routes)
}

// The path of a bad member.
fn bad_path(details: &Details) -> Option<&Text> {
    match details {
        Details::BadField { path } => Some(path),
        _ => None,
    }
}

// The number of a refusal, and the path of a bad member.
fn push_refusal(reply: &ErrorReply, out: &mut String) -> Result<(), AllocError> {
    let number = reply.number;
    write!(out, "{number}")?;
    match bad_path(&reply.details) {
        Some(path) => {
            let path = path.as_str();
            write!(out, " {path}")
        }
        None => Ok(()),
    }
}

// What is wanted of a node, and what is given for it, as an answer shows it.
fn push_given(
    alloc: Global,
    want: &str,
    node: &str,
    given: Answer,
    out: &mut String,
) -> Result<(), OutOfMemory> {
    let body = things::body_text(alloc, given)?;
    let body = body.as_str();
    write!(out, "{want} {node} {body}")?;
    Ok(())
}

fn policy(bindings: List<Binding>, etag: Option<u64>, version: u64) -> Answer {
    Answer::Policy {
        bindings,
        set: etag.unwrap_or(0),
        version,
    }
}

fn setting(etag: Option<u64>) -> &'static str {
    if etag.is_some() { "sets" } else { "overwrites" }
}

/// What a call wants of a node.
#[derive(Clone, Copy)]
enum Want<'a> {
    Test(&'a List<PermissionName>),
    Policy(u64),
    Setting {
        version: u64,
        etag: Option<u64>,
        bindings: &'a List<Binding>,
    },
    /// What is done with the node, which needs nothing more.
    Plain(&'static str),
    /// What is done with it, and the display name that it needs.
    Display(&'static str, &'a Text),
    NewProject {
        project: &'a Text,
        display: &'a Text,
    },
}

fn want_of_ask(ask: &Ask) -> Option<(&NodeName, Want<'_>)> {
    match ask {
        Ask::Test { node, permissions } => Some((node, Want::Test(permissions))),
        Ask::Policy { node, version } => Some((node, Want::Policy(*version))),
        Ask::Node { node } => Some((node, Want::Plain("looks at"))),
        Ask::Folders { parent } => Some((parent, Want::Plain("lists the folders of"))),
        Ask::Projects { parent } => Some((parent, Want::Plain("lists the projects of"))),
        _ => None,
    }
}

fn want_of_command(command: &Command) -> Option<(&NodeName, Want<'_>)> {
    match command {
        Command::CreateFolder { parent, display } => {
            Some((parent, Want::Display("makes a folder in", display)))
        }
        Command::RenameFolder { node, display } => Some((node, Want::Display("renames", display))),
        Command::DeleteNode { node } => Some((node, Want::Plain("deletes"))),
        Command::UndeleteNode { node } => Some((node, Want::Plain("undeletes"))),
        Command::CreateProject {
            project,
            parent,
            display,
        } => Some((parent, Want::NewProject { project, display })),
        Command::SetAllow {
            node,
            version,
            etag,
            bindings,
        } => Some((
            node,
            Want::Setting {
                version: *version,
                etag: *etag,
                bindings,
            },
        )),
        _ => None,
    }
}

// A function of its own, so that the kinds of calls are gone through once.
fn want_of(call: &Call) -> Option<(&NodeName, Want<'_>)> {
    match call {
        Call::Read(ask) => want_of_ask(ask),
        Call::Write(command) => want_of_command(command),
    }
}

fn push_project(
    node: &str,
    project: &Text,
    display: &Text,
    out: &mut String,
) -> Result<(), AllocError> {
    let (project, display) = (project.as_str(), display.as_str());
    write!(out, "makes a project in {node} {project} {display}")
}

fn push_want(
    alloc: Global,
    node: &str,
    want: Want<'_>,
    out: &mut String,
) -> Result<(), OutOfMemory> {
    match want {
        Want::Test(permissions) => {
            let given = Answer::Permissions(permissions.clone()?);
            push_given(alloc, "tests", node, given, out)?;
        }
        Want::Policy(version) => {
            let given = policy(List::new(alloc), None, version);
            push_given(alloc, "reads", node, given, out)?;
        }
        Want::Setting {
            version,
            etag,
            bindings,
        } => {
            let given = policy(bindings.clone()?, etag, version);
            push_given(alloc, setting(etag), node, given, out)?;
        }
        Want::Plain(wanted) => write!(out, "{wanted} {node}")?,
        Want::Display(wanted, display) => {
            let display = display.as_str();
            write!(out, "{wanted} {node} {display}")?;
        }
        Want::NewProject { project, display } => push_project(node, project, display, out)?,
    }
    Ok(())
}

fn push_call(alloc: Global, call: &Call, out: &mut String) -> Result<(), OutOfMemory> {
    match want_of(call) {
        Some((node, want)) => {
            let node = node.text(alloc)?;
            push_want(alloc, node.as_str(), want, out)
        }
        None => Ok(out.push_str("another call")?),
    }
}

// The revision from which on.
fn push_floor(floor: Option<u64>, out: &mut String) -> Result<(), AllocError> {
    match floor {
        Some(floor) => write!(out, " from {floor} "),
        None => out.push_str(" "),
    }
}

fn push_asked(alloc: Global, asked: &Asked, out: &mut String) -> Result<(), OutOfMemory> {
    match asked {
        Asked::Refused(reply) => Ok(push_refusal(reply, out)?),
        Asked::Given {
            caller,
            floor,
            call,
        } => {
            let caller = caller.text(alloc)?;
            out.push_str(caller.as_str())?;
            push_floor(*floor, out)?;
            push_call(alloc, call, out)
        }
    }
}

// What is asked is let go before anything else can be refused.
fn push_ask(alloc: Global, floor: &str, words: &str, out: &mut String) -> Result<(), OutOfMemory> {
    let asked = asked_by(alloc, floor, words)?;
    let pushed = push_asked(alloc, &asked, out);
    let_go(asked);
    pushed
}

/// Puts what a line comes to behind a text, or answers false where the kind is none of these.
pub fn answer(
    alloc: Global,
    kind: &str,
    words: &str,
    out: &mut String,
) -> Result<bool, OutOfMemory> {
    match kind {
        "ask" => push_ask(alloc, "-", words, out)?,
        "ask-from" => {
            let (floor, words) = cut(words, " ");
            push_ask(alloc, floor, words, out)?;
        }
        "stream" => messages::push_stream(alloc, words, out)?,
        "pieces" => messages::push_pieces(alloc, words, out)?,
        "reply" => messages::push_reply(alloc, words, out)?,
        "thing" => things::push_thing(alloc, words, out)?,
        _ => return Ok(false),
    }
    Ok(true)
}
