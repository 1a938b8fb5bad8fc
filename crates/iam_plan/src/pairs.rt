// Words as pairs of an option and its value. Other words are refused here, so `clap` never reads them.
ghost use Rattle.std.specs.Prelude.{◌≡◌, IfOk};
ghost use Rattle.std.specs.List.{list_any};
ghost use Rattle.std.specs.Str.{bytes_eq};
ghost use Rattle.iam_plan.specs.Pairs as pairs_spec;
ghost use Rattle.iam_plan.specs.Values.{texts};
ghost use Rattle.iam_plan.specs.Words.{option_word, are_paired};
ghost use Rattle.iam_plan.specs.Words as spec;

use iam_text::{OutOfMemory, Text};
use std::alloc::Global;

fn is_word_of(name: &str, word: &str) -> bool
    ensures { result ≡ bytes_eq (option_word name.now) word.now }
{
    match word.strip_prefix("--") {
        Some(rest) => name == rest,
        None => false,
    }
}

fn any_word_of(names: &[&str], word: &str) -> bool
    ensures { result ≡ list_any (λ name. bytes_eq (option_word name.now) word.now) names.now }
{
    names.iter().any(|name| is_word_of(*name, word))
}

fn is_option(names: &[&str], word: &str) -> bool
    ensures { result ≡ spec.is_option (texts names.now) word.now }
{
    any_word_of(names, word)
}

// Whether the word begins one of the pairs.
fn begins_pair(word: &str, words: &[Text]) -> bool
    ensures { result ≡ spec.begins_pair word.now words.now }
{
    let mut rest = words;
    while let [other, _, after @ ..] = rest {
        if word == other.as_str() {
            return true;
        }
        rest = after;
    }
    false
}

fn is_value(word: &str) -> bool
    ensures { result ≡ pairs_spec.is_value word.now }
{
    let bytes = word.as_bytes();
    if bytes.is_empty() {
        return false;
    }
    bytes[0] != b'-'
}

fn is_pair(names: &[&str], word: &Text, value: &Text, words: &[Text]) -> bool
    ensures { result ≡ spec.is_pair (texts names.now) word.now value.now words.now }
{
    is_option(names, word.as_str())
        && !begins_pair(word.as_str(), words)
        && is_value(value.as_str())
}

/// Whether the words are pairs of options with these names.
pub fn are_pairs(names: &[&str], words: &[Text]) -> bool
    ensures { result ≡ are_paired (texts names.now) words.now }
{
    let mut rest = words;
    while let [word, value, after @ ..] = rest {
        if !is_pair(names, word, value, after) {
            return false;
        }
        rest = after;
    }
    rest.is_empty()
}

/// The words, lent as `clap` wants them.
pub fn lent_words<'a>(alloc: Global, words: &'a [Text]) -> Result<Vec<&'a str>, OutOfMemory>
    ensures { IfOk result (λ lent. texts lent.items ≡ words.now) }
{
    let mut lent = Vec::new(alloc);
    for word in words {
        match lent.push(word.as_str()) {
            Ok(()) => {}
            Err(_) => return Err(OutOfMemory),
        }
    }
    Ok(lent)
}
