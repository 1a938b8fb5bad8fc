// The line of a path that has a method and a verb.
ghost use Rattle.std.specs.Prelude.{◌≡◌, List, map};
ghost use Rattle.std.specs.Option.{option_map};
ghost use Rattle.iam_routes.specs.Routes.{Piece};
ghost use Rattle.iam_routes.specs.Routed.{same_verb as verbs_are_same, seen_line, IsFound};

use crate::table::PathLine;
use iam_json::Line;

/// What the lines of a path have for a verb and a method.
#[derive(Clone, Copy)]
pub enum Found {
    NoVerb,
    NoMethod,
    At(Line),
}

fn same_verb(a: Option<&str>, b: Option<&str>) -> bool
    ensures { result ≡ verbs_are_same (option_map (λ verb. verb.now) a.entry) (option_map (λ verb. verb.now) b.entry) }
{
    match a {
        None => match b {
            None => true,
            Some(_) => false,
        },
        Some(first) => match b {
            None => false,
            Some(second) => first == second,
        },
    }
}

pub fn line_of(lines: &[PathLine], method: &str, verb: Option<&str>) -> Found
    ensures { (pieces : List Piece) → IsFound (map (seen_line pieces) lines.now) method.now (option_map (λ text. text.now) verb.entry) result }
{
    let mut found = Found::NoVerb;
    for line in lines {
        if same_verb(line.verb, verb) {
            if line.method == method {
                return Found::At(line.line);
            }
            found = Found::NoMethod;
        }
    }
    found
}
