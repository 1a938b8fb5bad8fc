// The route table, in a router.
ghost use Rattle.std.specs.Prelude.{◌≡◌, [], map, true, IfOk, OnOk, string_bytes};
ghost use Rattle.iam_routes.specs.Matched.{piece_text, route_text, with_route, is_free, with_paths, are_free, rows_of, IsTable};
ghost use Rattle.iam_routes.specs.Places.{seen_piece};
ghost use Rattle.iam_routes.specs.Routed.{pieces_of, IsPathIn, IsPathAt};

use crate::table::{PATHS, Piece, TablePath};
use iam_text::OutOfMemory;
use matchit::{InsertError, Router};
use std::alloc::{AllocError, Global};

/// The route table, made once for all messages.
#[derive(Drop)]
pub struct Routes {
    paths: &'static [TablePath],
    router: Router<usize>,
    ghost is_table: { IsTable paths.now },
    ghost is_router: { router ≡ rows_of paths.now },
}

fn piece_text(piece: &Piece) -> &'static str
    ensures { result.now ≡ piece_text (seen_piece piece.now) }
{
    match piece {
        Piece::Fixed(text) => *text,
        Piece::NodeIn(_) => "{part}",
    }
}

/// A path as `matchit` reads it.
fn route_text(alloc: Global, pieces: &[Piece]) -> Result<String, AllocError>
    ensures { IfOk result (λ text. string_bytes text ≡ route_text (map seen_piece pieces.now)) }
{
    let mut text = String::new(alloc);
    for piece in pieces {
        text.push_str("/")?;
        text.push_str(piece_text(piece))?;
    }
    Ok(text)
}

/// Adds a route that conflicts with no row.
fn add(router: &mut Router<usize>, text: &str, place: usize) -> Result<(), AllocError>
    requires { is_free text.now router.old ≡ true }
    ensures { OnOk result (router.new ≡ with_route text.now place router.old) }
{
    match router.insert(text, place) {
        Ok(()) => Ok(()),
        Err(InsertError::OutOfMemory) => Err(AllocError),
        Err(_) => unreachable!(),
    }
}

/// A router of the paths, each with its place.
fn router_of(alloc: Global, paths: &[TablePath]) -> Result<Router<usize>, AllocError>
    requires { are_free (map pieces_of paths.now) 0 [] ≡ true }
    ensures { IfOk result (λ router. router ≡ with_paths (map pieces_of paths.now) 0 []) }
{
    let mut router = Router::new(alloc);
    for (place, path) in paths.iter().enumerate() {
        let text = route_text(alloc, path.pieces)?;
        add(&mut router, text.as_str(), place)?;
    }
    Ok(router)
}

fn path_in(paths: &[TablePath], place: usize) -> Option<&TablePath>
    ensures { IsPathIn paths.now place result }
{
    if place < paths.len() {
        Some(&paths[place])
    } else {
        None
    }
}

fn table_paths() -> &'static [TablePath]
    ensures { IsTable result.now }
{
    &PATHS
}

impl Routes {
    pub fn new(alloc: Global) -> Result<Routes, OutOfMemory> {
        let paths = table_paths();
        let router = router_of(alloc, paths)?;
        Ok(Routes { paths, router })
    }

    /// The only path of the table that a place can have.
    pub fn path_at(&self, place: &str) -> Option<&'static TablePath>
        ensures { IsPathAt place.now result }
    {
        match self.router.at(place) {
            Ok(found) => path_in(self.paths, *found.value),
            Err(_) => None,
        }
    }
}
