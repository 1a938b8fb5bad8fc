// The run.
use crate::keepers::{file_keeper, memory_keeper};
use crate::words::words_of;
use iam_catalogue::Catalogue;
use iam_outer::{Keeper, Pair, StdinSource, StdoutSink, SystemClock, Text, Zones};
use iam_plan::{Plan, PlanStop, plan_of};
use iam_server::{Status, run};
use iam_text::let_go;
use std::alloc::Global;
use std::io;
use std::rt::HostRuntime;

fn run_over<P: Keeper>(rt: &HostRuntime, words: &[Text], keeper: &mut P) -> Status {
    let alloc: Global = rt.alloc();
    let Ok(catalogue) = Catalogue::built_in(alloc) else {
        return Status::OutOfMemory;
    };
    let mut line = Pair::new(StdinSource::new(rt.stdin()), StdoutSink::new(rt.stdout()));
    let mut clock = SystemClock::new(*rt);
    run(
        alloc,
        words,
        &mut line,
        &mut clock,
        keeper,
        catalogue,
        Zones::none(alloc),
    )
    .status
}

fn run_over_file(rt: &HostRuntime, words: &[Text], path: &str) -> Status {
    let mut keeper = file_keeper(rt, path);
    let status = run_over(rt, words, &mut keeper);
    let_go(keeper);
    status
}

fn run_over_memory(rt: &HostRuntime, words: &[Text]) -> Status {
    let mut keeper = memory_keeper(rt.alloc());
    run_over(rt, words, &mut keeper)
}

// The file of the keeper's rows.
fn db_of(plan: &Plan) -> Option<&Text> {
    match plan {
        Plan::Apply { db, opening: _ } => db.as_ref(),
        Plan::Ask {
            db,
            principal: _,
            resource: _,
            permission: _,
        } => db.as_ref(),
    }
}

// A call of its own, so that what it promises is not carried along by the rest.
fn plan_in(alloc: Global, words: &[Text]) -> Result<Plan, PlanStop> {
    plan_of(alloc, words)
}

fn run_words(rt: &HostRuntime, words: &[Text]) -> Status {
    let plan = match plan_in(rt.alloc(), words) {
        Ok(plan) => plan,
        Err(PlanStop::Words) => return Status::Words,
        Err(PlanStop::OutOfMemory) => return Status::OutOfMemory,
    };
    let status = match db_of(&plan) {
        Some(db) => run_over_file(rt, words, db.as_str()),
        None => run_over_memory(rt, words),
    };
    let_go(plan);
    status
}

fn status_of(rt: &HostRuntime) -> Status {
    match words_of(rt) {
        Ok(words) => run_words(rt, words.as_slice()),
        Err(status) => status,
    }
}

/// Does what the words of the command line say, and shows the word of an end that isn't well on standard error. Returns the
/// number that the process ends with.
pub fn exit_of(rt: &HostRuntime) -> u8 {
    let status = status_of(rt);
    if status != Status::Done {
        let word = status.word();
        let _ = eprintln!(rt; "iamd: {word}");
    }
    status.exit()
}
