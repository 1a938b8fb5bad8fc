ghost use Rattle.iam_json.specs.Calls.{AtMostOneCall};

/// A body gives at most one call on a line with a node, or one path of a bad member.
pub fn one_call()
    ensures { AtMostOneCall }
{}
