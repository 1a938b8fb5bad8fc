// The path of a target, and the verb behind it.
ghost use Rattle.std.specs.Prelude.{◌≡◌, ◌↔◌, IsTrue};
ghost use Rattle.std.specs.Char.{is_ascii_alphabetic};
ghost use Rattle.std.specs.List.{list_all};
ghost use Rattle.std.specs.Option.{option_map};
ghost use Rattle.iam_routes.specs.Routes.{path_of, IsVerb, IsCut};

/// A path without its verb, and the verb.
#[derive(Clone, Copy)]
pub struct PathParts<'a> {
    pub place: &'a str,
    pub verb: Option<&'a str>,
}

/// What stands before the query.
pub fn path_of(target: &str) -> &str
    ensures { result.now ≡ path_of target.now }
{
    match target.split_once('?') {
        Some((path, _)) => path,
        None => target,
    }
}

fn all_letters(bytes: &[u8]) -> bool
    ensures { result ≡ list_all is_ascii_alphabetic bytes.now }
{
    bytes.iter().all(|byte| byte.is_ascii_alphabetic())
}

fn is_verb(text: &str) -> bool
    ensures { IsTrue result ↔ IsVerb text.now }
{
    let bytes = text.as_bytes();
    if bytes.is_empty() {
        return false;
    }
    all_letters(bytes)
}

/// Cuts a path at its last `:`, if letters alone follow.
pub fn cut(path: &str) -> PathParts<'_>
    ensures { IsCut path.now result.place.now (option_map (λ verb. verb.now) result.verb) }
{
    let whole = PathParts {
        place: path,
        verb: None,
    };
    let Some((place, verb)) = path.rsplit_once(':') else {
        return whole;
    };
    if is_verb(verb) {
        PathParts {
            place,
            verb: Some(verb),
        }
    } else {
        whole
    }
}
