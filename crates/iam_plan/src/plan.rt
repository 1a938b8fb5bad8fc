// What the words of the command line ask for.
ghost use Rattle.std.specs.Prelude.{◌≡◌, ◌∷◌, IfOk, IsErrOf, codes};
ghost use Rattle.iam_plan.specs.Clap.{given_in};
ghost use Rattle.iam_plan.specs.Commands as commands;
ghost use Rattle.iam_plan.specs.Pairs.{ArePairs};
ghost use Rattle.iam_plan.specs.Plan.{IsSaid, IsPlan};
ghost use Rattle.iam_plan.specs.Values.{texts};
ghost use Rattle.iam_plan.specs.declared.plan.Plan.{Plan};

use crate::access::{principal_said, resource_said};
use crate::command::{CommandName, command_named, options_of};
use crate::opening::opening_said;
use crate::options::{matches_of, value};
use crate::pairs::{are_pairs, lent_words};
use clap::ArgMatches;
use iam_names::{Caller, NodeName};
use iam_text::{OutOfMemory, Text};
use iam_types::Opening;
use std::alloc::Global;

/// What the words ask for.
#[derive(Drop)]
pub enum Plan {
    /// The messages of a line over the tables of the keeper, or, where it has none, over the opening's.
    Apply {
        db: Option<Text>,
        opening: Option<Opening>,
    },
    /// One line that says an access.
    Ask {
        db: Option<Text>,
        principal: Caller,
        resource: NodeName,
        permission: Text,
    },
}

#[derive(Clone, Copy)]
pub enum PlanStop {
    /// The words have none of the forms.
    Words,
    OutOfMemory,
}

impl From<OutOfMemory> for PlanStop {
    ghost use Rattle.std.specs.Prelude.{◌≡◌};
    ghost use Rattle.iam_plan.specs.declared.plan.PlanStop.TheVariants.{OutOfMemory as NoMemory};

    ghost from_gives = { λ _ stop. stop ≡ NoMemory };

    fn from(_: OutOfMemory) -> PlanStop {
        PlanStop::OutOfMemory
    }
}

fn db_said(alloc: Global, matches: &ArgMatches) -> Result<Option<Text>, OutOfMemory>
    ensures { IfOk result (λ db. db ≡ given_in matches.now (codes "db")) }
{
    match value(matches, "db") {
        Some(file) => Ok(Some(Text::of(alloc, file)?)),
        None => Ok(None),
    }
}

#[tactic(auto, using(crate::proofs::Plans::no_opening))]
fn apply_said(alloc: Global, matches: &ArgMatches) -> Result<Plan, PlanStop>
    ensures ok { IfOk result (λ plan. IsSaid CommandName.Apply (given_in matches.now) plan) }
    ensures words { IsErrOf result PlanStop.Words → (plan : Plan) → ¬ IsSaid CommandName.Apply (given_in matches.now) plan }
{
    let db = db_said(alloc, matches)?;
    match opening_said(alloc, matches) {
        Ok(opening) => Ok(Plan::Apply { db, opening }),
        Err(stop) => Err(stop),
    }
}

#[tactic(auto, using(crate::proofs::Plans::no_permission, crate::proofs::Plans::no_principal, crate::proofs::Plans::no_resource))]
fn ask_said(alloc: Global, matches: &ArgMatches) -> Result<Plan, PlanStop>
    ensures ok { IfOk result (λ plan. IsSaid CommandName.Ask (given_in matches.now) plan) }
    ensures words { IsErrOf result PlanStop.Words → (plan : Plan) → ¬ IsSaid CommandName.Ask (given_in matches.now) plan }
{
    let Some(permission) = value(matches, "permission") else {
        return Err(PlanStop::Words);
    };
    let permission = Text::of(alloc, permission)?;
    let db = db_said(alloc, matches)?;
    let Some(resource) = resource_said(alloc, matches)? else {
        return Err(PlanStop::Words);
    };
    let Some(principal) = principal_said(alloc, matches)? else {
        return Err(PlanStop::Words);
    };
    Ok(Plan::Ask {
        db,
        principal,
        resource,
        permission,
    })
}

fn plan_said(alloc: Global, command: CommandName, matches: &ArgMatches) -> Result<Plan, PlanStop>
    ensures ok { IfOk result (λ plan. IsSaid command (given_in matches.now) plan) }
    ensures words { IsErrOf result PlanStop.Words → (plan : Plan) → ¬ IsSaid command (given_in matches.now) plan }
{
    match command {
        CommandName::Apply => apply_said(alloc, matches),
        CommandName::Ask => ask_said(alloc, matches),
    }
}

// The plan of a command, from words that are pairs of its options.
fn plan_of_pairs(alloc: Global, command: CommandName, words: &[&str]) -> Result<Plan, PlanStop>
    requires { ArePairs (commands.options_of command) (texts words.now) }
    ensures ok { IfOk result (λ plan. IsPlan (commands.word_of command ∷ texts words.now) plan) }
    ensures words { IsErrOf result PlanStop.Words → (plan : Plan) → ¬ IsPlan (commands.word_of command ∷ texts words.now) plan }
{
    match matches_of(alloc, options_of(command), words) {
        Ok(matches) => plan_said(alloc, command, &matches),
        Err(_) => Err(PlanStop::OutOfMemory),
    }
}

// The plan of a command, from the words behind its own.
fn plan_behind(alloc: Global, command: CommandName, words: &[Text]) -> Result<Plan, PlanStop>
    ensures ok { IfOk result (λ plan. IsPlan (commands.word_of command ∷ words.now) plan) }
    ensures words { IsErrOf result PlanStop.Words → (plan : Plan) → ¬ IsPlan (commands.word_of command ∷ words.now) plan }
{
    if !are_pairs(options_of(command), words) {
        return Err(PlanStop::Words);
    }
    match lent_words(alloc, words) {
        Ok(lent) => plan_of_pairs(alloc, command, lent.as_slice()),
        Err(_) => Err(PlanStop::OutOfMemory),
    }
}

/// The plan that the words say.
#[tactic(auto, using(crate::proofs::Plans::no_words, crate::proofs::Plans::no_command))]
pub fn plan_of(alloc: Global, words: &[Text]) -> Result<Plan, PlanStop>
    ensures ok { IfOk result (λ plan. IsPlan words.now plan) }
    ensures words { IsErrOf result PlanStop.Words → (plan : Plan) → ¬ IsPlan words.now plan }
{
    match words.split_first() {
        Some((first, rest)) => match command_named(first.as_str()) {
            Some(command) => plan_behind(alloc, command, rest),
            None => Err(PlanStop::Words),
        },
        None => Err(PlanStop::Words),
    }
}
