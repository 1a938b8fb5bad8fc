ghost use Rattle.std.specs.Prelude.{◌≡◌, ℕ, List};
ghost use Rattle.cel_value.specs.declared.context.Context.{Context};
ghost use Rattle.cel_answers.specs.declared.task.Task.{Task};
ghost use Rattle.cel_answers.specs.Answers.{LineAnswer};

use cel_syntax::one_answer;
use cel_types::{at_most_one_fault, at_most_one_outcome, conditions_have_no_fault};

/// A line has at most one answer.
pub fn one_answer_a_line()
    ensures { (c : Context) (task : Task) (line answer other : List ℕ) → LineAnswer c task line answer → LineAnswer c task line other → answer ≡ other }
{
    one_answer();
    at_most_one_fault();
    conditions_have_no_fault();
    at_most_one_outcome();
}
