// What a message asks for.
ghost use Rattle.std.specs.Prelude.{◌≡◌, IfOk, Ok, Err};
ghost use Rattle.iam_json.specs.Refusals.{line_of};
ghost use Rattle.iam_routes.specs.Asked.{CallGives, HasCaller, IsAsked, NamesCaller, floor_name};
ghost use Rattle.iam_routes.specs.Routed.{IsRouted};

use crate::caller::{caller_of, floor_of};
use crate::given::Asked;
use crate::route::{Routed, route_of};
use crate::routes::Routes;
use iam_json::{BodyStop, Call, Details, ErrorReply, Route, read_call};
use iam_names::Caller;
use iam_text::{OutOfMemory, Text, let_go};
use iam_wire::Message;
use std::alloc::Global;

fn refused(details: Details) -> Asked
    ensures { result ≡ Asked.Refused (record { number = (line_of details).number; details = details }) }
{
    Asked::Refused(ErrorReply::of(details))
}

// The refusal of a floor that is no number.
fn bad_floor(alloc: Global) -> Result<Asked, OutOfMemory>
    ensures { IfOk result (λ asked. asked ≡ Asked.Refused (record { number = (line_of (Details.BadField floor_name)).number; details = Details.BadField floor_name })) }
{
    let path = Text::of(alloc, "x-iam-min-revision")?;
    Ok(refused(Details::BadField { path }))
}

// The call, of a message that has a caller and whose body gives it, unless its floor is no number.
fn given(alloc: Global, caller: Caller, call: Call, message: &Message) -> Result<Asked, OutOfMemory>
    requires caller { NamesCaller message.now.caller caller }
    requires call { CallGives message.now (Ok call) }
    ensures { IfOk result (IsAsked message.now) }
{
    match floor_of(&message.floor) {
        Some(floor) => Ok(Asked::Given {
            caller,
            floor,
            call,
        }),
        None => {
            let_go(call);
            let_go(caller);
            bad_floor(alloc)
        }
    }
}

// The refusal of a bad member, behind that of a floor that is no number.
fn bad_member(alloc: Global, path: Text, message: &Message) -> Result<Asked, OutOfMemory>
    requires caller { HasCaller message.now }
    requires field { CallGives message.now (Err (BodyStop.BadField path)) }
    ensures { IfOk result (IsAsked message.now) }
{
    match floor_of(&message.floor) {
        Some(_) => Ok(refused(Details::BadField { path })),
        None => bad_floor(alloc),
    }
}

// The call of the body, of a message that has a route and a caller.
fn call_of(
    alloc: Global,
    route: &Route,
    caller: Caller,
    message: &Message,
) -> Result<Asked, OutOfMemory>
    requires route { IsRouted message.now.method message.now.target (Routed.To route.now) }
    requires caller { NamesCaller message.now.caller caller }
    ensures { IfOk result (IsAsked message.now) }
{
    match read_call(alloc, route, message.body.as_slice()) {
        Ok(call) => given(alloc, caller, call, message),
        Err(BodyStop::BadJson) => Ok(refused(Details::BadJson)),
        Err(BodyStop::BadField { path }) => bad_member(alloc, path, message),
        Err(BodyStop::OutOfMemory) => Err(OutOfMemory),
    }
}

/// What a message asks for, or why it is refused: its path, its method, its caller, whether its body is JSON, its floor, the
/// parameters of its query and the members of its body are looked at in this order.
pub fn asked(alloc: Global, message: &Message, routes: &Routes) -> Result<Asked, OutOfMemory>
    ensures { IfOk result (IsAsked message.now) }
{
    let (method, target) = (message.method.as_str(), message.target.as_str());
    let route = match route_of(alloc, routes, method, target)? {
        Routed::NoRoute => return Ok(refused(Details::NoRoute)),
        Routed::BadMethod => return Ok(refused(Details::BadMethod)),
        Routed::To(route) => route,
    };
    let Some(caller) = caller_of(alloc, &message.caller)? else {
        return Ok(refused(Details::BadCaller));
    };
    call_of(alloc, &route, caller, message)
}
