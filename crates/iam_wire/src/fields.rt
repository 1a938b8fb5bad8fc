// The fields of a head, by their names.
ghost use Rattle.std.specs.Prelude.{◌≡◌, length, map, All};
ghost use Rattle.httparse.specs.Spans.{IsHeaderWithin, header_bytes};
ghost use Rattle.iam_wire.specs.Fields.{values_named};
ghost use Rattle.iam_wire.specs.Look.{IsNamed};

use httparse::spans::HeaderSpan;

/// The value of a name that stands at most once.
#[derive(Clone, Copy)]
pub enum Named<'b> {
    Missing,
    Once(&'b [u8]),
    Repeated,
}

/// How many fields have the name.
pub fn count_named(buf: &[u8], headers: &[HeaderSpan], name: &[u8]) -> usize
    requires { All (IsHeaderWithin (length buf.now)) headers.now }
    ensures { result ≡ length (values_named name.now (map (header_bytes buf.now) headers.now)) }
{
    let mut count = 0;
    for header in headers {
        if header.name.of(buf).eq_ignore_ascii_case(name) {
            count += 1;
        }
    }
    count
}

/// The value of the field of the name.
pub fn value_named<'b>(buf: &'b [u8], headers: &[HeaderSpan], name: &[u8]) -> Named<'b>
    requires { All (IsHeaderWithin (length buf.now)) headers.now }
    ensures { IsNamed (values_named name.now (map (header_bytes buf.now) headers.now)) result }
{
    for (i, header) in headers.iter().enumerate() {
        if header.name.of(buf).eq_ignore_ascii_case(name) {
            let value = header.value.of(buf);
            if count_named(buf, &headers[i + 1..], name) == 0 {
                return Named::Once(value);
            }
            return Named::Repeated;
        }
    }
    Named::Missing
}
