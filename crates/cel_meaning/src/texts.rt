// Texts, by their bytes.
ghost use Rattle.std.specs.Prelude.{◌≡◌, ◌≢◌, ◌++◌, List as Bytes, ℕ, IfOk, IfSome, IfNone, nat_eq};
ghost use Rattle.std.specs.List.{ends_with, starts_with};
ghost use Rattle.std.specs.Option.{option_copied};
ghost use Rattle.cel_types.specs.Extract.{before_text, behind_text, extracted, prefix_of, suffix_of, up_to};

use iam_text::{OutOfMemory, Text};
use std::alloc::Global;

/// One text with another behind it.
pub fn joined(alloc: Global, front: &str, back: &str) -> Result<Text, OutOfMemory>
    ensures { IfOk result (λ text. text ≡ front.now ++ back.now) }
{
    let mut text = String::from_str(alloc, front)?;
    text.push_str(back)?;
    Ok(Text::from(text))
}

/// What stands behind a text at the front of another.
pub fn without_front<'a>(front: &str, text: &'a str) -> Option<&'a str>
    ensures some { IfSome result (λ rest. text.now ≡ front.now ++ rest.now) }
    ensures none { IfNone result ((rest : Bytes ℕ) → text.now ≢ front.now ++ rest) }
{
    text.strip_prefix(front)
}

pub fn starts_with(text: &str, part: &str) -> bool
    ensures { result ≡ starts_with nat_eq text.now part.now }
{
    text.as_bytes().starts_with(part.as_bytes())
}

pub fn ends_with(text: &str, part: &str) -> bool
    ensures { result ≡ ends_with nat_eq text.now part.now }
{
    text.as_bytes().ends_with(part.as_bytes())
}

/// What stands before the name in a template.
pub fn prefix_of(template: &str) -> &str
    ensures { result.now ≡ prefix_of template.entry.now }
{
    match template.split_once('{') {
        Some((prefix, _)) => prefix,
        None => template,
    }
}

/// What stands behind the name in a template.
pub fn suffix_of(template: &str) -> &str
    ensures { result.now ≡ suffix_of template.entry.now }
{
    match template.split_once('}') {
        Some((_, suffix)) => suffix,
        None => "",
    }
}

fn behind_text<'a>(part: &str, text: &'a str) -> Option<&'a str>
    ensures { option_copied result ≡ behind_text part.now text.entry.now }
{
    match text.split_once(part) {
        Some((_, rest)) => Some(rest),
        None => None,
    }
}

fn before_text<'a>(part: &str, text: &'a str) -> Option<&'a str>
    ensures { option_copied result ≡ before_text part.now text.entry.now }
{
    match text.split_once(part) {
        Some((front, _)) => Some(front),
        None => None,
    }
}

fn up_to<'a>(suffix: &str, text: &'a str) -> &'a str
    ensures { result.now ≡ up_to suffix.now text.entry.now }
{
    if suffix.is_empty() {
        return text;
    }
    match before_text(suffix, text) {
        Some(front) => front,
        None => "",
    }
}

/// What stands in a text behind a prefix, up to a suffix.
pub fn extracted<'a>(text: &'a str, prefix: &str, suffix: &str) -> &'a str
    ensures { result.now ≡ extracted prefix.now suffix.now text.entry.now }
{
    match behind_text(prefix, text) {
        Some(rest) => up_to(suffix, rest),
        None => "",
    }
}
