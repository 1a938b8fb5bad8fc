ghost use Rattle.std.specs.Prelude.{◌≡◌, ◌≤◌, length, slice_index, false};
ghost use Rattle.cel_lexer.specs.Cut as spec;
ghost use Rattle.cel_lexer.specs.Past.{past};

fn is_blank(b: u8) -> bool
    ensures { result ≡ spec.is_blank b }
{
    b == b' ' || b == b'\t' || b == b'\n' || b == 12 || b == b'\r'
}

fn is_line_end(b: u8) -> bool
    ensures { result ≡ spec.is_line_end b }
{
    b == b'\n' || b == b'\r'
}

fn first(z: &[u8]) -> u8
    ensures { result ≡ slice_index z.now 0 }
{
    if z.is_empty() { 0 } else { z[0] }
}

/// The text from the first byte on that is in no blank and in no comment.
pub fn past(mut z: &[u8]) -> &[u8]
    ensures rest { result.now ≡ past false z.entry.now }
    ensures within { length result.now ≤ length z.entry.now }
{
    let mut in_comment = false;
    while let [b, rest @ ..] = z {
        if in_comment {
            in_comment = !is_line_end(*b);
        } else if !is_blank(*b) {
            if *b != b'/' || first(rest) != b'/' {
                return z;
            }
            in_comment = true;
        }
        z = rest;
    }
    z
}
