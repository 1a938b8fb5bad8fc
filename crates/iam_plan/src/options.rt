// Options, read by `clap`.
ghost use Rattle.std.specs.Prelude.{◌≡◌, [], true, List, ℕ, IfOk, IsTrue, option_copied};
ghost use Rattle.clap.specs.Words.{app_of, rows_of, found_of, takes, with_rule};
ghost use Rattle.clap.specs.Words as clap_spec;
ghost use Rattle.iam_plan.specs.Clap.{rule_with, app_with, are_whole, given_in};
ghost use Rattle.iam_plan.specs.Pairs.{Pairs, words_of, values_of, ArePairs};
ghost use Rattle.iam_plan.specs.Values.{texts};

use clap::error::ErrorKind;
use clap::{Arg, ArgAction, ArgMatches, Command};
use iam_text::OutOfMemory;
use std::alloc::{AllocError, Global};

fn bare_command<'a>(alloc: Global) -> Command<'a>
    ensures { app_of result ≡ app_with [] }
{
    Command::new(alloc, "iamd")
        .no_binary_name(true)
        .disable_help_flag(true)
}

// The command with one more option, which has one value.
fn with_option<'a>(
    alloc: Global,
    command: Command<'a>,
    name: &'a str,
) -> Result<Command<'a>, AllocError>
    ensures { IfOk result (λ more. app_of more ≡ with_rule (app_of command.entry) (rule_with name.now)) }
{
    let option = Arg::new(alloc, name).long(name).action(ArgAction::Set);
    command.arg(option)
}

fn command_with<'a>(alloc: Global, names: &'a [&'a str]) -> Result<Command<'a>, OutOfMemory>
    ensures { IfOk result (λ command. app_of command ≡ app_with (texts names.now)) }
{
    let mut command = bare_command(alloc);
    for name in names {
        match with_option(alloc, command, name) {
            Ok(more) => command = more,
            Err(_) => return Err(OutOfMemory),
        }
    }
    Ok(command)
}

// What the command makes of words that it takes. It fails for memory alone.
fn matches_by<'a>(command: Command<'a>, words: &'a [&'a str]) -> Result<ArgMatches<'a>, OutOfMemory>
    requires { takes (app_of command) (texts words.now) ≡ true }
    ensures { IfOk result (λ matches. rows_of (found_of matches) ≡ clap_spec.matches_of (app_of command.entry) (texts words.now)) }
{
    match command.try_get_matches_from(words) {
        Ok(matches) => Ok(matches),
        Err(error) => match error.kind() {
            ErrorKind::OutOfMemory => Err(OutOfMemory),
            _ => unreachable!(),
        },
    }
}

/// What is given in words that are pairs of options with these names. It fails for memory alone.
pub fn matches_of<'a>(
    alloc: Global,
    names: &'a [&'a str],
    words: &'a [&'a str],
) -> Result<ArgMatches<'a>, OutOfMemory>
    requires whole { IsTrue (are_whole (texts names.now)) }
    requires pairs { ArePairs (texts names.now) (texts words.now) }
    ensures { IfOk result (λ matches. (pairs : Pairs) → texts words.now ≡ words_of pairs → (name : List ℕ) → given_in matches name ≡ values_of pairs name) }
{
    match command_with(alloc, names) {
        Ok(command) => matches_by(command, words),
        Err(stop) => Err(stop),
    }
}

/// The value of the option with this name, where it is given.
#[tactic(auto, unfolding(crate::specs::Clap::given_in))]
pub fn value<'a>(matches: &ArgMatches<'a>, name: &str) -> Option<&'a str>
    ensures { option_copied result ≡ given_in matches.now name.now }
{
    matches.get_str(name)
}
