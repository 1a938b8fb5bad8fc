// Pools of identities.
ghost use Rattle.std.specs.Prelude.{◌≡◌, ◌↔◌, ◌++◌, IfOk, OnOk, IsTrue, string_bytes};
ghost use Rattle.iam_names.specs.Pool.{pool_text, pool_subject_text, pool_group_text, pool_all_text};

use iam_text::{OutOfMemory, Text};
use std::alloc::{AllocError, Global};
use std::fmt::Write;

/// A workforce pool of the organisation, or a workload identity pool of a project, by its number.
#[derive(Clone, PartialEq, Eq, Drop)]
pub enum Pool {
    Workforce(Text),
    Workload { project: u64, pool: Text },
}

fn push_both(text: &mut String, first: &str, second: &str) -> Result<(), AllocError>
    ensures { OnOk result (string_bytes text.new ≡ string_bytes text.old ++ (first.now ++ second.now)) }
{
    text.push_str(first)?;
    text.push_str(second)
}

fn push_workload(text: &mut String, project: u64, pool: &Text) -> Result<(), AllocError>
    ensures { OnOk result (string_bytes text.new ≡ string_bytes text.old ++ pool_text (Pool.Workload project pool.now)) }
{
    text.push_str("iam.googleapis.com/projects/")?;
    write!(text, "{project}")?;
    text.push_str("/locations/global/workloadIdentityPools/")?;
    text.push_str(pool.as_str())
}

fn push_pool(text: &mut String, pool: &Pool) -> Result<(), AllocError>
    ensures { OnOk result (string_bytes text.new ≡ string_bytes text.old ++ pool_text pool.now) }
{
    match pool {
        Pool::Workforce(pool) => push_both(
            text,
            "iam.googleapis.com/locations/global/workforcePools/",
            pool.as_str(),
        ),
        Pool::Workload { project, pool } => push_workload(text, *project, pool),
    }
}

// A pool behind a prefix.
pub fn pool_behind(alloc: Global, before: &str, pool: &Pool) -> Result<String, AllocError>
    ensures { IfOk result (λ text. string_bytes text ≡ before.now ++ pool_text pool.now) }
{
    let mut text = String::from_str(alloc, before)?;
    push_pool(&mut text, pool)?;
    Ok(text)
}

// A pool, and what stands round it.
fn around(alloc: Global, before: &str, pool: &Pool, behind: &str) -> Result<String, AllocError>
    ensures { IfOk result (λ text. string_bytes text ≡ before.now ++ pool_text pool.now ++ behind.now) }
{
    let mut text = pool_behind(alloc, before, pool)?;
    text.push_str(behind)?;
    Ok(text)
}

pub fn subject_text(alloc: Global, pool: &Pool, subject: &Text) -> Result<String, AllocError>
    ensures { IfOk result (λ text. string_bytes text ≡ pool_subject_text pool.now subject.now) }
{
    let mut text = around(alloc, "principal://", pool, "/subject/")?;
    text.push_str(subject.as_str())?;
    Ok(text)
}

pub fn group_text(alloc: Global, pool: &Pool, group: &Text) -> Result<String, AllocError>
    ensures { IfOk result (λ text. string_bytes text ≡ pool_group_text pool.now group.now) }
{
    let mut text = around(alloc, "principalSet://", pool, "/group/")?;
    text.push_str(group.as_str())?;
    Ok(text)
}

pub fn all_text(alloc: Global, pool: &Pool) -> Result<String, AllocError>
    ensures { IfOk result (λ text. string_bytes text ≡ pool_all_text pool.now) }
{
    around(alloc, "principalSet://", pool, "/*")
}

pub fn same_pool(a: &Pool, b: &Pool) -> bool
    ensures { IsTrue result ↔ (a.now ≡ b.now) }
{
    *a == *b
}

pub fn copy_pool(pool: &Pool) -> Result<Pool, OutOfMemory>
    ensures { IfOk result (λ copy. copy ≡ pool.now) }
{
    match pool.clone() {
        Ok(copy) => Ok(copy),
        Err(_) => Err(OutOfMemory),
    }
}
