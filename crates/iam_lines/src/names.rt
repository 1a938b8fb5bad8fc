//! Names. One that is read is copied, and its copy is written; another one is `none`. The kinds are
//!
//! - `caller`, `node-name`, `permission`, `role` and `principal-set`, each with a text;
//! - `member` with a text in which repetitions are written out;
//! - `pooled-caller POOL SUBJECT GROUP GROUP ..`: a caller of a workforce pool;
//! - `member-pool PROJECT POOL GROUP` and `deny-pool PROJECT POOL`: a group and all of a workload identity pool;
//! - `permission-group HOST RESOURCE`: the permissions of a service on a resource;
//! - `display`: whether a folder and a project may be shown by a text;
//! - `email`: the domain of an email, and whether the copy of its leaf is the same.
//!
//! The kinds of `values` and `bodies` are asked for here, too.
use crate::words::{cut, repeated};
use crate::{bodies, values};
use iam_names::{
    Caller, DenyPrincipal, Email, Leaf, Member, NodeId, NodeName, PermissionGroup, PermissionName,
    Pool, PrincipalSet, RoleName, copy_caller, copy_deny_principal, copy_email, copy_leaf,
    copy_member, copy_node_name, copy_permission, copy_permission_group, copy_pool,
    copy_principal_set, copy_role_name, is_folder_display, is_project_display, same_leaf,
    same_permission,
};
use iam_text::{List, OutOfMemory, Text, let_go};
use std::alloc::Global;

fn none(alloc: Global) -> Result<Text, OutOfMemory> {
    Text::of(alloc, "none")
}

fn copied_caller(alloc: Global, caller: Caller) -> Result<Text, OutOfMemory> {
    let copy = copy_caller(&caller);
    let_go(caller);
    let copy = copy?;
    let text = copy.text(alloc);
    let_go(copy);
    text
}

fn caller(alloc: Global, words: &str) -> Result<Text, OutOfMemory> {
    match Caller::read(alloc, words)? {
        Some(caller) => copied_caller(alloc, caller),
        None => none(alloc),
    }
}

fn texts(alloc: Global, words: &str) -> Result<List<Text>, OutOfMemory> {
    let mut texts = List::new(alloc);
    for word in words.split(' ') {
        texts.push(Text::of(alloc, word)?)?;
    }
    Ok(texts)
}

fn workforce(alloc: Global, pool: &str) -> Result<Pool, OutOfMemory> {
    Ok(Pool::Workforce(Text::of(alloc, pool)?))
}

fn pooled(alloc: Global, words: &str) -> Result<Caller, OutOfMemory> {
    let (pool, rest) = cut(words, " ");
    let (subject, groups) = cut(rest, " ");
    Ok(Caller::Pooled {
        pool: workforce(alloc, pool)?,
        subject: Text::of(alloc, subject)?,
        groups: texts(alloc, groups)?,
    })
}

fn pooled_caller(alloc: Global, words: &str) -> Result<Text, OutOfMemory> {
    copied_caller(alloc, pooled(alloc, words)?)
}

fn copied_node(alloc: Global, node: NodeName) -> Result<Text, OutOfMemory> {
    let copy = copy_node_name(&node);
    let_go(node);
    let copy = copy?;
    let text = copy.text(alloc);
    let_go(copy);
    text
}

fn node(alloc: Global, words: &str) -> Result<Text, OutOfMemory> {
    match NodeName::read(alloc, words)? {
        Some(node) => copied_node(alloc, node),
        None => none(alloc),
    }
}

fn permission(alloc: Global, words: &str) -> Result<Text, OutOfMemory> {
    let Some(permission) = PermissionName::read(alloc, words)? else {
        return none(alloc);
    };
    let copy = copy_permission(&permission)?;
    if same_permission(&permission, &copy) {
        copy.text(alloc)
    } else {
        Text::of(alloc, "another")
    }
}

fn copied_role(alloc: Global, role: RoleName) -> Result<Text, OutOfMemory> {
    let copy = copy_role_name(&role);
    let_go(role);
    let copy = copy?;
    let text = copy.text(alloc);
    let_go(copy);
    text
}

fn role(alloc: Global, words: &str) -> Result<Text, OutOfMemory> {
    match RoleName::read(alloc, words)? {
        Some(role) => copied_role(alloc, role),
        None => none(alloc),
    }
}

fn copied_member(alloc: Global, member: Member) -> Result<Text, OutOfMemory> {
    let copy = copy_member(&member);
    let_go(member);
    let copy = copy?;
    let text = copy.text(alloc);
    let_go(copy);
    text
}

fn member(alloc: Global, words: &str) -> Result<Text, OutOfMemory> {
    let name = repeated(alloc, words)?;
    match Member::read(alloc, name.as_str())? {
        Some(member) => copied_member(alloc, member),
        None => none(alloc),
    }
}

fn workload(alloc: Global, project: &str, pool: &str) -> Result<Pool, OutOfMemory> {
    let pool = Pool::Workload {
        project: project.parse::<u64>().unwrap_or(0),
        pool: Text::of(alloc, pool)?,
    };
    let copy = copy_pool(&pool);
    let_go(pool);
    copy
}

fn member_pool(alloc: Global, words: &str) -> Result<Text, OutOfMemory> {
    let (project, rest) = cut(words, " ");
    let (pool, group) = cut(rest, " ");
    let member = Member::PoolGroup {
        pool: workload(alloc, project, pool)?,
        group: Text::of(alloc, group)?,
    };
    copied_member(alloc, member)
}

fn deny_pool(alloc: Global, words: &str) -> Result<Text, OutOfMemory> {
    let (project, pool) = cut(words, " ");
    let principal = DenyPrincipal::PoolAll(workload(alloc, project, pool)?);
    let copy = copy_deny_principal(&principal);
    let_go(principal);
    let copy = copy?;
    let text = copy.text(alloc);
    let_go(copy);
    text
}

fn permission_group(alloc: Global, words: &str) -> Result<Text, OutOfMemory> {
    let (host, resource) = cut(words, " ");
    let group = PermissionGroup {
        host: Text::of(alloc, host)?,
        resource: Some(Text::of(alloc, resource)?),
        verb: None,
    };
    let copy = copy_permission_group(&group);
    let_go(group);
    let copy = copy?;
    let text = copy.text(alloc);
    let_go(copy);
    text
}

fn principal_set(alloc: Global, words: &str) -> Result<Text, OutOfMemory> {
    let Some(node) = NodeId::read(words) else {
        return none(alloc);
    };
    let set = PrincipalSet::Node(node);
    let copy = copy_principal_set(&set);
    let_go(set);
    let copy = copy?;
    let text = copy.text(alloc);
    let_go(copy);
    text
}

fn display(alloc: Global, words: &str) -> Result<Text, OutOfMemory> {
    let folder = is_folder_display(words);
    let project = is_project_display(words);
    Ok(Text::from(format!(in alloc; "folder {folder}, project {project}")?))
}

fn leaf_of(email: &Email) -> Result<Leaf, OutOfMemory> {
    Ok(Leaf::User(copy_email(email)?))
}

fn is_leaf_copied(email: &Email) -> Result<bool, OutOfMemory> {
    let leaf = leaf_of(email)?;
    let copy = match copy_leaf(&leaf) {
        Ok(copy) => copy,
        Err(no_memory) => {
            let_go(leaf);
            return Err(no_memory);
        }
    };
    let same = same_leaf(&leaf, &copy);
    let_go(leaf);
    let_go(copy);
    Ok(same)
}

fn email(alloc: Global, words: &str) -> Result<Text, OutOfMemory> {
    let Some(email) = Email::read(alloc, words)? else {
        return none(alloc);
    };
    let copied = is_leaf_copied(&email)?;
    let domain = email.domain();
    Ok(Text::from(format!(in alloc; "domain {domain}, copied {copied}")?))
}

fn name(alloc: Global, kind: &str, words: &str) -> Result<Option<Text>, OutOfMemory> {
    let told = match kind {
        "caller" => caller(alloc, words),
        "pooled-caller" => pooled_caller(alloc, words),
        "node-name" => node(alloc, words),
        "permission" => permission(alloc, words),
        "role" => role(alloc, words),
        "member" => member(alloc, words),
        "member-pool" => member_pool(alloc, words),
        "deny-pool" => deny_pool(alloc, words),
        "permission-group" => permission_group(alloc, words),
        "principal-set" => principal_set(alloc, words),
        "display" => display(alloc, words),
        "email" => email(alloc, words),
        _ => return Ok(None),
    };
    Ok(Some(told?))
}

fn told(alloc: Global, kind: &str, words: &str) -> Result<Option<Text>, OutOfMemory> {
    if let Some(text) = name(alloc, kind, words)? {
        return Ok(Some(text));
    }
    if let Some(text) = values::told(alloc, kind, words)? {
        return Ok(Some(text));
    }
    bodies::told(alloc, kind, words)
}

/// Puts what a line comes to behind a text, or answers false where the kind is none of these.
pub fn answer(
    alloc: Global,
    kind: &str,
    words: &str,
    out: &mut String,
) -> Result<bool, OutOfMemory> {
    match told(alloc, kind, words)? {
        Some(text) => {
            out.push_str(text.as_str())?;
            Ok(true)
        }
        None => Ok(false),
    }
}
