// The segments of a place.
ghost use Rattle.iam_routes.specs.Places.{IsHead, IsFirst};

/// A segment, and what stands behind it: nothing, or what begins with the next `/`.
#[derive(Clone, Copy)]
pub struct Segment<'a> {
    pub text: &'a str,
    pub rest: &'a str,
}

/// The text up to its first `/`.
fn head(text: &str) -> Segment<'_>
    ensures { IsHead text.now result }
{
    match text.find('/') {
        Some(end) => {
            let (text, rest) = text.split_at(end);
            Segment { text, rest }
        }
        None => Segment { text, rest: "" },
    }
}

/// The first segment of a place, if it begins with a `/`.
pub fn first(place: &str) -> Option<Segment<'_>>
    ensures { IsFirst place.now result }
{
    match place.strip_prefix('/') {
        Some(text) => Some(head(text)),
        None => None,
    }
}
