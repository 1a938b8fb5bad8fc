// The query of a target, and its parameters.
ghost use Rattle.std.specs.Prelude.{◌≡◌, IfOk};
ghost use Rattle.iam_routes.specs.Query as query_spec;

use form_urlencoded::{decode, raw_pairs};
use iam_text::{List, OutOfMemory, Text};
use std::alloc::Global;

/// What stands behind the first `?`.
fn query_of(target: &str) -> &str
    ensures { result.now ≡ query_spec.query_of target.now }
{
    match target.split_once('?') {
        Some((_, query)) => query,
        None => "",
    }
}

/// What an encoded name or value stands for.
fn form_text(alloc: Global, encoded: &[u8]) -> Result<Text, OutOfMemory>
    ensures { IfOk result (λ text. text ≡ query_spec.form_text encoded.now) }
{
    let decoded = decode(alloc, encoded)?;
    Text::of(alloc, decoded.as_str())
}

fn form_pair(alloc: Global, name: &[u8], value: &[u8]) -> Result<(Text, Text), OutOfMemory>
    ensures { IfOk result (λ pair. pair ≡ query_spec.form_pair (name.now, value.now)) }
{
    Ok((form_text(alloc, name)?, form_text(alloc, value)?))
}

/// The parameters of a target's query, decoded, in their order.
pub fn pairs_of(alloc: Global, target: &str) -> Result<List<(Text, Text)>, OutOfMemory>
    ensures { IfOk result (λ pairs. pairs ≡ query_spec.pairs_of target.now) }
{
    let mut pairs = List::new(alloc);
    for (key, value) in raw_pairs(query_of(target).as_bytes()) {
        pairs.push(form_pair(alloc, key, value)?)?;
    }
    Ok(pairs)
}
