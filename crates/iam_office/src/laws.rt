ghost use Rattle.iam_office.specs.Laws.{AllAreAnswered, RepliesFollow};

use crate::talking::streams;
use iam_routes::one_asking;

/// Where nobody else adds to the history, the replies follow from the state at first, the messages and the steps.
pub fn replies_follow()
    ensures { RepliesFollow }
{
    one_asking();
}

/// A conversation in which nothing failed answered all messages of its input, up to 10,000, and ended as these and their end say.
pub fn all_are_answered()
    ensures { AllAreAnswered }
{
    streams();
}
