ghost use Rattle.iam_routes.specs.Asked.{AtMostOneAsking};

/// A message has at most one refusal, or one caller and one call.
pub fn one_asking()
    ensures { AtMostOneAsking }
{}
