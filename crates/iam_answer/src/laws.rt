ghost use Rattle.std.specs.Prelude.{◌≡◌, ℕ};
ghost use Rattle.iam_text.specs.declared.moment.Moment.{Moment};
ghost use Rattle.iam_types.specs.declared.answer.Answer.{Answer};
ghost use Rattle.iam_types.specs.declared.command.Command.{Command};
ghost use Rattle.iam_types.specs.declared.tables.Tables.{Tables};
ghost use Rattle.iam_answer.specs.Answer.{accepts, written_answer};
ghost use Rattle.iam_answer.specs.Replies.{served_reply, shows_ok};

/// The answer to an accepted change isn't a refusal.
pub fn written_answers_accept()
    ensures { (before later : Tables) (command : Command) → accepts (written_answer before later command) ≡ 1 }
{}

/// The bytes of a reply with an answer tell whether the answer is a refusal.
pub fn replies_tell_acceptance()
    ensures { (number : ℕ) (moment : Moment) (answer : Answer) → shows_ok (served_reply number moment answer) ≡ accepts answer }
{}
