// The parts of a text: a prefix, and what stands behind it.
ghost use Rattle.std.specs.Prelude.{◌≡◌, ◌≢◌, ◌++◌, List as Bytes, ℕ, IfOk, IfSome, IfNone};
ghost use Rattle.std.specs.Fmt.{decimal};

use iam_text::{OutOfMemory, Text};
use std::alloc::Global;
use std::fmt::Write;

/// What stands behind a prefix.
pub fn behind<'a>(prefix: &str, text: &'a str) -> Option<&'a str>
    ensures some { IfSome result (λ rest. text.now ≡ prefix.now ++ rest.now) }
    ensures none { IfNone result ((rest : Bytes ℕ) → text.now ≢ prefix.now ++ rest) }
{
    text.strip_prefix(prefix)
}

pub fn prefixed(alloc: Global, prefix: &str, rest: &str) -> Result<Text, OutOfMemory>
    ensures { IfOk result (λ text. text ≡ prefix.now ++ rest.now) }
{
    let mut text = String::from_str(alloc, prefix)?;
    text.push_str(rest)?;
    Ok(Text::from(text))
}

pub fn numbered(alloc: Global, prefix: &str, number: u64) -> Result<Text, OutOfMemory>
    ensures { IfOk result (λ text. text ≡ prefix.now ++ decimal number) }
{
    let mut text = String::from_str(alloc, prefix)?;
    write!(text, "{number}")?;
    Ok(Text::from(text))
}
