// The options of a connection.
ghost use Rattle.std.specs.Prelude.{◌≡◌, length, map, All, reverse};
ghost use Rattle.std.specs.List.{list_any};
ghost use Rattle.httparse.specs.Grammar.{is_ows, skip_ows, trim_ows};
ghost use Rattle.httparse.specs.Spans.{IsHeaderWithin, header_bytes};
ghost use Rattle.iam_wire.specs.Fields.{values_named};
ghost use Rattle.iam_wire.specs.Front as spec;

use httparse::spans::HeaderSpan;

/// Whether a field of the name has the option `close`.
pub fn any_names_close(buf: &[u8], headers: &[HeaderSpan], name: &[u8]) -> bool
    requires { All (IsHeaderWithin (length buf.now)) headers.now }
    ensures { result ≡ list_any spec.names_close (values_named name.now (map (header_bytes buf.now) headers.now)) }
{
    for header in headers {
        if header.name.of(buf).eq_ignore_ascii_case(name) {
            if names_close(header.value.of(buf)) {
                return true;
            }
        }
    }
    false
}

fn names_close(value: &[u8]) -> bool
    ensures { result ≡ spec.names_close value.now }
{
    value
        .split(|byte| *byte == b',')
        .any(|option| is_close(option))
}

fn is_close(option: &[u8]) -> bool
    ensures { result ≡ spec.is_close option.now }
{
    without_last_spaces(without_first_spaces(option)).eq_ignore_ascii_case(b"close")
}

fn without_first_spaces(text: &[u8]) -> &[u8]
    ensures { result.now ≡ skip_ows text.now }
{
    for (i, byte) in text.iter().enumerate() {
        if !is_space(*byte) {
            return &text[i..];
        }
    }
    &text[text.len()..]
}

fn without_last_spaces(text: &[u8]) -> &[u8]
    ensures { result.now ≡ reverse (skip_ows (reverse text.now)) }
{
    let mut end = text.len();
    while end > 0 {
        if !is_space(text[end - 1]) {
            return &text[..end];
        }
        end -= 1;
    }
    &text[..end]
}

fn is_space(byte: u8) -> bool
    ensures { result ≡ is_ows byte }
{
    byte == b' ' || byte == b'\t'
}
