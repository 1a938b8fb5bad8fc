// The commands by their names, and the options of each.
ghost use Rattle.std.specs.Prelude.{◌≡◌, ◌≢◌, IfSome, IfNone};
ghost use Rattle.iam_plan.specs.Commands as spec;
ghost use Rattle.iam_plan.specs.Values.{texts};
ghost use Rattle.iam_plan.specs.declared.command.CommandName.{CommandName};

/// The name of a command.
#[derive(Clone, Copy)]
pub enum CommandName {
    Apply,
    Ask,
}

static APPLY_OPTIONS: [&str; 5] = ["db", "org", "domain", "customer", "admin"];

static ASK_OPTIONS: [&str; 4] = ["db", "principal", "resource", "permission"];

/// The command whose word this is.
pub fn command_named(word: &str) -> Option<CommandName>
    ensures some { IfSome result (λ command. word.now ≡ spec.word_of command) }
    ensures none { IfNone result ((command : CommandName) → word.now ≢ spec.word_of command) }
{
    if word == "apply" {
        return Some(CommandName::Apply);
    }
    if word == "ask" {
        return Some(CommandName::Ask);
    }
    None
}

/// The names of the command's options.
pub fn options_of(command: CommandName) -> &'static [&'static str]
    ensures { texts result.now ≡ spec.options_of command }
{
    match command {
        CommandName::Apply => APPLY_OPTIONS.as_slice(),
        CommandName::Ask => ASK_OPTIONS.as_slice(),
    }
}
