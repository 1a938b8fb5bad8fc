// The values of the fields by which a head is judged.
ghost use Rattle.std.specs.Prelude.{◌≡◌, length, map, bytes_eq, All, List, ℕ, [], ◌∷◌, codes, MatchOption};
ghost use Rattle.std.specs.List.{list_all};
ghost use Rattle.httparse.specs.Spans.{IsHeaderWithin, header_bytes};
ghost use Rattle.iam_wire.specs.Fields.{values_named};
ghost use Rattle.iam_wire.specs.Front as spec;

use crate::number::number_of;
use httparse::spans::HeaderSpan;

/// Digits of a length.
const MAX_DIGITS: usize = 19;

/// The length of the body, where `content-length` is good or absent.
pub fn declared_length(buf: &[u8], headers: &[HeaderSpan]) -> Option<u64>
    requires { All (IsHeaderWithin (length buf.now)) headers.now }
    ensures { result
        ≡ spec.declared_length (values_named (codes "content-length") (map (header_bytes buf.now) headers.now)) }
{
    match first_named(buf, headers, b"content-length") {
        None => Some(0),
        Some((value, same)) => {
            if !same {
                return None;
            }
            number_of(value, MAX_DIGITS)
        }
    }
}

/// The value of the first field of the name, and whether all others have the same.
fn first_named<'b>(buf: &'b [u8], headers: &[HeaderSpan], name: &[u8]) -> Option<(&'b [u8], bool)>
    requires { All (IsHeaderWithin (length buf.now)) headers.now }
    ensures { MatchOption result
        (values_named name.now (map (header_bytes buf.now) headers.now) ≡ [])
        (λ first. (others : List (List ℕ))
        × (values_named name.now (map (header_bytes buf.now) headers.now) ≡ first.0.now ∷ others)
        × (first.1 ≡ list_all (bytes_eq first.0.now) others)) }
{
    for (i, header) in headers.iter().enumerate() {
        if header.name.of(buf).eq_ignore_ascii_case(name) {
            let value = header.value.of(buf);
            return Some((value, all_named_are(buf, &headers[i + 1..], name, value)));
        }
    }
    None
}

fn all_named_are(buf: &[u8], headers: &[HeaderSpan], name: &[u8], value: &[u8]) -> bool
    requires { All (IsHeaderWithin (length buf.now)) headers.now }
    ensures { result
        ≡ list_all (bytes_eq value.now) (values_named name.now (map (header_bytes buf.now) headers.now)) }
{
    for header in headers {
        if header.name.of(buf).eq_ignore_ascii_case(name) {
            if value != header.value.of(buf) {
                return false;
            }
        }
    }
    true
}

/// Whether each field of the name says `identity`.
pub fn all_named_identity(buf: &[u8], headers: &[HeaderSpan], name: &[u8]) -> bool
    requires { All (IsHeaderWithin (length buf.now)) headers.now }
    ensures { result ≡ list_all spec.is_identity (values_named name.now (map (header_bytes buf.now) headers.now)) }
{
    for header in headers {
        if header.name.of(buf).eq_ignore_ascii_case(name) {
            if !is_identity(header.value.of(buf)) {
                return false;
            }
        }
    }
    true
}

fn is_identity(value: &[u8]) -> bool
    ensures { result ≡ spec.is_identity value.now }
{
    value.eq_ignore_ascii_case(b"identity")
}
