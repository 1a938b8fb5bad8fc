// Policies in bodies of requests.
ghost use Rattle.std.specs.Prelude.{◌≡◌, ◌↔◌, IsTrue};
ghost use Rattle.serde_json.specs.Data.{no_items};
ghost use Rattle.serde_json.specs.View.{view, items_view};
ghost use Rattle.iam_json_data.specs.Reading.{Gives};
ghost use Rattle.iam_json.specs.Bodies.{ReadsVersion, ReadsBindings, ReadsReading, ReadsSetting, version_of};

use iam_json_data::{BodyStop, FromJson, bad_here, etag_number, read_member, read_required};
use iam_text::List;
use iam_types::Binding;
use serde_json::Value;
use std::alloc::Global;

/// The etag of a policy as a request gives it.
#[derive(Clone, Copy)]
pub struct Etag {
    pub number: u64,
}

/// A list that has to be empty.
#[derive(Clone, Copy)]
pub struct NoItems;

/// How a policy is to be read.
#[derive(Clone, Copy)]
pub struct GivenOptions {
    pub version: u64,
}

/// A policy as a request gives it.
#[derive(Drop)]
pub struct GivenPolicy {
    pub version: u64,
    pub etag: Option<u64>,
    pub bindings: List<Binding>,
}

impl FromJson for Etag {
    ghost use Rattle.iam_json.specs.Bodies.{ReadsEtag};

    ghost reads = { ReadsEtag };

    fn from_json(alloc: Global, value: &Value) -> Result<Etag, BodyStop> {
        match value.as_str() {
            None => Err(bad_here(alloc)),
            Some(text) => match etag_number(text) {
                Some(number) => Ok(Etag { number }),
                None => Err(bad_here(alloc)),
            },
        }
    }
}

fn has_no_items(items: &[Value]) -> bool
    ensures { IsTrue result ↔ (items_view items.now ≡ no_items) }
{
    items.is_empty()
}

impl FromJson for NoItems {
    ghost use Rattle.iam_json.specs.Bodies.{ReadsNoItems};

    ghost reads = { ReadsNoItems };

    fn from_json(alloc: Global, value: &Value) -> Result<NoItems, BodyStop> {
        match value.as_array() {
            None => Err(bad_here(alloc)),
            Some(items) => {
                if has_no_items(items) {
                    return Ok(NoItems);
                }
                Err(bad_here(alloc))
            }
        }
    }
}

fn read_version(alloc: Global, name: &str, value: &Value) -> Result<u64, BodyStop>
    ensures { Gives (ReadsVersion name.now (view value.now)) result }
{
    let given = read_member(alloc, name, value)?;
    Ok(given.unwrap_or(0))
}

impl FromJson for GivenOptions {
    ghost use Rattle.iam_json.specs.Bodies.{ReadsOptions};

    ghost reads = { ReadsOptions };

    fn from_json(alloc: Global, value: &Value) -> Result<GivenOptions, BodyStop> {
        if !value.is_object() {
            return Err(bad_here(alloc));
        }
        let version = read_version(alloc, "requestedPolicyVersion", value)?;
        Ok(GivenOptions { version })
    }
}

// The bindings, and no audit configuration.
fn read_bindings(alloc: Global, value: &Value) -> Result<List<Binding>, BodyStop>
    ensures { Gives (ReadsBindings (view value.now)) result }
{
    let bindings = read_member(alloc, "bindings", value)?;
    let _: Option<NoItems> = read_member(alloc, "auditConfigs", value)?;
    Ok(bindings.unwrap_or(List::new(alloc)))
}

impl FromJson for GivenPolicy {
    ghost use Rattle.iam_json.specs.Bodies.{ReadsPolicy};

    ghost reads = { ReadsPolicy };

    fn from_json(alloc: Global, value: &Value) -> Result<GivenPolicy, BodyStop> {
        if !value.is_object() {
            return Err(bad_here(alloc));
        }
        let version = read_version(alloc, "version", value)?;
        let etag: Option<Etag> = read_member(alloc, "etag", value)?;
        let bindings = read_bindings(alloc, value)?;
        Ok(GivenPolicy {
            version,
            etag: etag.map(|etag| etag.number),
            bindings,
        })
    }
}

fn version_of(options: Option<GivenOptions>) -> u64
    ensures { result ≡ version_of options }
{
    match options {
        None => 0,
        Some(options) => options.version,
    }
}

/// The version in which a policy is asked for.
pub fn read_reading(alloc: Global, value: &Value) -> Result<u64, BodyStop>
    ensures { Gives (ReadsReading (view value.now)) result }
{
    if !value.is_object() {
        return Err(bad_here(alloc));
    }
    let options = read_member(alloc, "options", value)?;
    Ok(version_of(options))
}

/// The policy that is to be set.
pub fn read_setting(alloc: Global, value: &Value) -> Result<GivenPolicy, BodyStop>
    ensures { Gives (ReadsSetting (view value.now)) result }
{
    if !value.is_object() {
        return Err(bad_here(alloc));
    }
    read_required(alloc, "policy", value)
}
