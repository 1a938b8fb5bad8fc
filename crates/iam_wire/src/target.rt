// Whether bytes stop inside the target of a head.
ghost use Rattle.std.specs.Prelude.{◌↔◌, ◌≡◌, IsTrue};
ghost use Rattle.httparse.specs.Grammar.{EndsInTarget};
ghost use Rattle.iam_wire.specs.Target as spec;

use httparse::{is_method_token, is_uri_token};

/// Where in a head bytes stop: between the empty lines before it, behind a carriage return there, inside the
/// method, inside the target, or nowhere up to there.
#[derive(Clone, Copy)]
enum Place {
    Blank,
    AfterReturn,
    Method,
    Target,
    Astray,
}

/// Whether the bytes stop inside a target.
pub fn stops_in_target(bytes: &[u8]) -> bool
    ensures { IsTrue result ↔ EndsInTarget bytes.now }
{
    is_target(place_after(bytes))
}

fn place_after(bytes: &[u8]) -> Place
    ensures { result ≡ spec.run Place.Blank bytes.now }
{
    let mut place = Place::Blank;
    for byte in bytes {
        place = step(place, *byte);
    }
    place
}

fn is_target(place: Place) -> bool
    ensures { IsTrue result ↔ (place ≡ Place.Target) }
{
    matches!(place, Place::Target)
}

fn step(place: Place, byte: u8) -> Place
    ensures { result ≡ spec.step place byte }
{
    match place {
        Place::Blank => {
            if byte == b'\r' {
                Place::AfterReturn
            } else if byte == b'\n' {
                Place::Blank
            } else if is_method_token(byte) {
                Place::Method
            } else {
                Place::Astray
            }
        }
        Place::AfterReturn => {
            if byte == b'\n' {
                Place::Blank
            } else {
                Place::Astray
            }
        }
        Place::Method => {
            if byte == b' ' {
                Place::Target
            } else if is_method_token(byte) {
                Place::Method
            } else {
                Place::Astray
            }
        }
        Place::Target => {
            if is_uri_token(byte) {
                Place::Target
            } else {
                Place::Astray
            }
        }
        Place::Astray => Place::Astray,
    }
}
