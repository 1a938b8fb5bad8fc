// What the segments of a place give for the pieces of a path.
ghost use Rattle.std.specs.Prelude.{◌≡◌, IfOk, map};
ghost use Rattle.iam_names.specs.Node.{collection_of};
ghost use Rattle.iam_routes.specs.Places.{seen_piece, decoded_name, IsPartOf, IsGiven, ArePartsOf};

use crate::segment::first;
use crate::table::Piece;
use iam_names::{NodeKind, NodeName};
use iam_text::{List, OutOfMemory, Text};
use percent_encoding::percent_decode_str;
use std::alloc::{AllocError, Global};

fn collection(kind: &NodeKind) -> &'static str
    ensures { result.now ≡ collection_of kind.now }
{
    match kind {
        NodeKind::Organization => "organizations/",
        NodeKind::Folder => "folders/",
        NodeKind::Project => "projects/",
    }
}

/// A collection, and a segment percent-decoded behind it.
fn decoded(alloc: Global, kind: &NodeKind, segment: &str) -> Result<Vec<u8>, AllocError>
    ensures { IfOk result (λ bytes. bytes.items ≡ decoded_name kind.now segment.now) }
{
    let mut bytes = Vec::new(alloc);
    bytes.extend_from_slice(collection(kind).as_bytes())?;
    percent_decode_str(segment).append_to(&mut bytes)?;
    Ok(bytes)
}

/// The name of the node that a segment names in a collection.
fn node_in(alloc: Global, kind: &NodeKind, segment: &str) -> Result<Option<Text>, OutOfMemory>
    ensures { IfOk result (IsPartOf kind.now segment.now) }
{
    let Ok(text) = String::from_utf8(decoded(alloc, kind, segment)?) else {
        return Ok(None);
    };
    match NodeName::read(alloc, text.as_str())? {
        Some(_) => Ok(Some(Text::from(text))),
        None => Ok(None),
    }
}

/// Whether a segment is one for the piece: then what it gives goes behind the parts.
fn give(
    alloc: Global,
    piece: &Piece,
    segment: &str,
    parts: &mut List<Text>,
) -> Result<bool, OutOfMemory>
    ensures { IfOk result (IsGiven (seen_piece piece.now) segment.now parts.old parts.new) }
{
    match piece {
        Piece::Fixed(text) => Ok(*text == segment),
        Piece::NodeIn(kind) => match node_in(alloc, kind, segment)? {
            Some(part) => {
                parts.push(part)?;
                Ok(true)
            }
            None => Ok(false),
        },
    }
}

/// The parts that a place gives, if its segments are those of the pieces.
pub fn parts_of(
    alloc: Global,
    pieces: &[Piece],
    place: &str,
) -> Result<Option<List<Text>>, OutOfMemory>
    ensures { IfOk result (ArePartsOf (map seen_piece pieces.now) place.now) }
{
    let mut parts = List::new(alloc);
    let mut rest = place;
    for piece in pieces {
        let Some(segment) = first(rest) else {
            return Ok(None);
        };
        if !give(alloc, piece, segment.text, &mut parts)? {
            return Ok(None);
        }
        rest = segment.rest;
    }
    if rest.is_empty() {
        Ok(Some(parts))
    } else {
        Ok(None)
    }
}
