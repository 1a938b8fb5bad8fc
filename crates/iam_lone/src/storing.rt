// The steps of a write over the parts of an office.
ghost use Rattle.std.specs.Prelude.{◌≡◌, ◌≤◌, ◌⊎◌, All, IsErrOf, OnOk, OnErr, Ok, Err, Some, None};
ghost use Rattle.iam_admit.specs.Facts.{LeadTo};
ghost use Rattle.iam_answer.specs.Answer.{written_answer};
ghost use Rattle.iam_law.specs.Admit.{admission};
ghost use Rattle.iam_model.specs.Commands.{IsEntry};
ghost use Rattle.iam_model.specs.Formed.{IsChange};
ghost use Rattle.iam_outer.specs.Causes.{Rose};
ghost use Rattle.iam_rows.specs.Kept.{KeepsTables};
ghost use Rattle.iam_types.specs.declared.tables.Tables as spec;
ghost use Rattle.iam_lone.specs.Histories.{Histories};
ghost use Rattle.iam_lone.specs.Lone.{IsJudged, IsKept, IsWaiting, with_waiting};

use iam_answer::written;
use iam_judge::Index;
use iam_keeping::keep;
use iam_law::{
    accepted_changes_are_counted, histories_are_counted, histories_grow, histories_keep_good,
};
use iam_model::changes_are_countable;
use iam_office::{Numbered, WriteStop};
use iam_outer::{Keeper, KeeperStop};
use iam_text::{OutOfMemory, let_go};
use iam_types::{Answer, Command, Entry, FactChange};
use std::alloc::Global;

/// What is known of legal histories.
pub fn histories()
    ensures { Histories }
{
    histories_grow();
    histories_are_counted();
    histories_keep_good();
}

/// Applies the entry that waits to the index, where one does.
pub fn advance(
    alloc: Global,
    index: &mut Index,
    waiting: &mut Option<Entry>,
) -> Result<(), OutOfMemory>
    requires { IsWaiting index.old waiting.old }
    ensures ok { OnOk result ((index.new ≡ with_waiting index.old waiting.old) × (waiting.new ≡ None)) }
    ensures err { OnErr result ((index.new ≡ index.old) × (waiting.new ≡ waiting.old)) }
{
    if let Some(entry) = &*waiting {
        index.apply(alloc, entry)?;
        let_go(waiting.take());
    }
    Ok(())
}

// The answer to a change that the index has taken up.
fn answer_to(alloc: Global, index: &Index, command: &Command) -> Result<Numbered<Answer>, WriteStop>
    ensures { (before : spec.Tables) → (result ≡ Ok (record { number = index.now.org.changes; value = written_answer before index.now command.now })) ⊎ (result ≡ Err (WriteStop.OutOfMemory (Some index.now.org.changes))) }
{
    let number = index.tables().org.changes;
    match written(alloc, index, command) {
        Ok(value) => Ok(Numbered { number, value }),
        Err(_) => Err(WriteStop::OutOfMemory {
            stored: Some(number),
        }),
    }
}

// Takes up an entry that is kept, and answers it. Where memory is refused to the index, the entry waits.
fn finish(
    alloc: Global,
    index: &mut Index,
    waiting: &mut Option<Entry>,
    entry: Entry,
) -> Result<Numbered<Answer>, WriteStop>
    requires none { waiting.old ≡ None }
    requires formed { IsEntry entry }
    requires accepted { admission index.old entry ≡ None }
    ensures kept { IsKept index.old (with_waiting index.new waiting.new) entry result }
    ensures waiting { IsWaiting index.new waiting.new }
{
    changes_are_countable();
    accepted_changes_are_counted();
    let number = index.tables().org.changes + 1;
    match index.apply(alloc, &entry) {
        Ok(()) => {
            let told = answer_to(alloc, index, &entry.command);
            let_go(entry);
            told
        }
        Err(_) => {
            let_go(waiting.replace(entry));
            Err(WriteStop::OutOfMemory {
                stored: Some(number),
            })
        }
    }
}

/// Keeps the changes of an accepted entry, and then takes it up and answers it. Where they aren't kept nothing changes.
pub fn store<P: Keeper>(
    alloc: Global,
    index: &mut Index,
    keeper: &mut P,
    waiting: &mut Option<Entry>,
    entry: Entry,
    changes: &[FactChange],
) -> Result<Numbered<Answer>, WriteStop>
    requires none { waiting.old ≡ None }
    requires formed { IsEntry entry }
    requires accepted { admission index.old entry ≡ None }
    requires changes { All IsChange changes.now }
    requires lead { LeadTo index.old entry changes.now }
    requires rows { KeepsTables (P.rows keeper.old) index.old }
    ensures told { IsJudged index.old (with_waiting index.new waiting.new) entry result }
    ensures waiting { IsWaiting index.new waiting.new }
    ensures rows { KeepsTables (P.rows keeper.new) (with_waiting index.new waiting.new) }
    ensures later { P.keeper_faults keeper.old ≤ P.keeper_faults keeper.new }
    ensures cause { IsErrOf result WriteStop.KeeperFault → Rose (P.keeper_faults keeper.old) (P.keeper_faults keeper.new) }
    ensures same { P.same keeper.old keeper.new }
{
    match keep(alloc, keeper, changes) {
        Ok(()) => finish(alloc, index, waiting, entry),
        Err(KeeperStop::Failed) => {
            let_go(entry);
            Err(WriteStop::KeeperFault)
        }
        Err(KeeperStop::OutOfMemory) => {
            let_go(entry);
            Err(WriteStop::OutOfMemory { stored: None })
        }
    }
}
