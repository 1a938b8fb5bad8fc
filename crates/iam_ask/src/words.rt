// Decisions in words.
ghost use Rattle.std.specs.Prelude.{◌≡◌, ◌++◌, IfOk, codes, string_bytes};
ghost use Rattle.std.specs.Fmt.{decimal};
ghost use Rattle.iam_names.specs.Node.{node_id_text};
ghost use Rattle.iam_ask.specs.Access as spec;

use iam_names::NodeId;
use iam_text::OutOfMemory;
use iam_types::Decision;
use std::alloc::Global;
use std::fmt::Write;

// A word, what it speaks of, and a number.
fn counted(alloc: Global, word: &str, of: &str, number: u32) -> Result<String, OutOfMemory>
    ensures { IfOk result (λ text. string_bytes text ≡ word.now ++ of.now ++ codes " " ++ decimal number) }
{
    let mut text = String::from_str(alloc, word)?;
    text.push_str(of)?;
    text.push_str(" ")?;
    write!(text, "{number}")?;
    Ok(text)
}

fn allowed(alloc: Global, node: NodeId, place: u32) -> Result<String, OutOfMemory>
    ensures { IfOk result (λ text. string_bytes text ≡ codes "ALLOWED " ++ node_id_text node ++ codes " " ++ decimal place) }
{
    let node = node.text(alloc)?;
    counted(alloc, "ALLOWED ", node.as_str(), place)
}

fn denied_by_boundary(alloc: Global, binding: &str) -> Result<String, OutOfMemory>
    ensures { IfOk result (λ text. string_bytes text ≡ codes "DENIED_BOUNDARY " ++ binding.now) }
{
    let mut text = String::from_str(alloc, "DENIED_BOUNDARY ")?;
    text.push_str(binding)?;
    Ok(text)
}

fn not_granted(alloc: Global) -> Result<String, OutOfMemory>
    ensures { IfOk result (λ text. string_bytes text ≡ codes "NOT_GRANTED") }
{
    Ok(String::from_str(alloc, "NOT_GRANTED")?)
}

/// The decision, and what decided.
pub fn words_of(alloc: Global, decision: &Decision) -> Result<String, OutOfMemory>
    ensures { IfOk result (λ text. string_bytes text ≡ spec.words_of decision.now) }
{
    match decision {
        Decision::Allowed { node, place } => allowed(alloc, *node, *place),
        Decision::DeniedBoundary { binding } => denied_by_boundary(alloc, binding.as_str()),
        Decision::DeniedRule { policy, rule } => {
            counted(alloc, "DENIED_RULE ", policy.as_str(), *rule)
        }
        Decision::NotGranted => not_granted(alloc),
    }
}
