ghost use Rattle.std.specs.Prelude.{◌≡◌};
ghost use Rattle.cel_answers.specs.Task.{task_of, word_task};

use cel_types::Place;
use iam_text::Text;

/// What is asked of each line.
#[derive(Clone, Copy)]
pub enum Task {
    /// The tree of its text.
    Read,
    /// The tree of its text, which is to be a condition in a place.
    Check(Place),
    /// What its text comes to, which is to be a condition of an allow policy.
    Value,
}

fn word_task(word: &str) -> Option<Task>
    ensures { result ≡ word_task word.now }
{
    match word {
        "allow" => Some(Task::Check(Place::Allow)),
        "deny" => Some(Task::Check(Place::Deny)),
        "binding" => Some(Task::Check(Place::Binding)),
        "value" => Some(Task::Value),
        _ => None,
    }
}

/// What the words of the command line ask, or nothing where they are other words than these.
pub fn task_of(words: &[Text]) -> Option<Task>
    ensures { result ≡ task_of words.now }
{
    match words {
        [] => Some(Task::Read),
        [word] => word_task(word.as_str()),
        _ => None,
    }
}
