// The route of a message.
ghost use Rattle.std.specs.Prelude.{IfOk};
ghost use Rattle.iam_routes.specs.Routed.{IsRouted};

use crate::line::{Found, line_of};
use crate::parts::parts_of;
use crate::query::pairs_of;
use crate::routes::Routes;
use crate::target::{cut, path_of};
use iam_json::Route;
use iam_text::OutOfMemory;
use std::alloc::Global;

/// The route of a message, or why it has none.
#[derive(Drop)]
pub enum Routed {
    NoRoute,
    BadMethod,
    To(Route),
}

pub fn route_of(
    alloc: Global,
    routes: &Routes,
    method: &str,
    target: &str,
) -> Result<Routed, OutOfMemory>
    ensures { IfOk result (IsRouted method.now target.now) }
{
    let at = cut(path_of(target));
    let Some(path) = routes.path_at(at.place) else {
        return Ok(Routed::NoRoute);
    };
    let Some(parts) = parts_of(alloc, path.pieces, at.place)? else {
        return Ok(Routed::NoRoute);
    };
    match line_of(path.lines, method, at.verb) {
        Found::NoVerb => Ok(Routed::NoRoute),
        Found::NoMethod => Ok(Routed::BadMethod),
        Found::At(line) => Ok(Routed::To(Route {
            line,
            parts,
            pairs: pairs_of(alloc, target)?,
        })),
    }
}
