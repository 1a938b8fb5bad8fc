// The office of one conversation.
ghost use Rattle.std.specs.Prelude.{◌≡◌, ◌+◌, ◌≤◌, true, None, IsErrOf, OnOk, OnErr};
ghost use Rattle.iam_model.specs.Commands.{IsEntry};
ghost use Rattle.iam_law.specs.Good.{Good};
ghost use Rattle.iam_outer.specs.Causes.{Rose};
ghost use Rattle.iam_rows.specs.Kept.{KeepsTables};
ghost use Rattle.iam_lone.specs.Lone.{IsJudged, StandsFor, current, lone_legal, taken_up, waits};

use crate::storing::{advance, histories, store};
use iam_admit::admit;
use iam_answer::{answer, written_answers_accept};
use iam_judge::Index;
use iam_law::{accepted_changes_are_counted, changes_keep_good};
use iam_names::Caller;
use iam_office::{FloorStop, Numbered, Office, WriteStop};
use iam_outer::Keeper;
use iam_text::{Moment, OutOfMemory, let_go};
use iam_types::{Answer, Ask, Entry};
use std::alloc::Global;
use std::marker::Model;

/// An index and a keeper that nobody else changes. An entry that is kept while memory for the index is refused waits:
/// each later call takes it up first.
#[derive(Drop)]
pub struct Lone<P: Keeper> {
    index: Index,
    keeper: P,
    waiting: Option<Entry>,
}

impl<P: Keeper> Model for Lone<P> {
    ghost use Rattle.iam_lone.specs.Lone.{Alone, IsWaiting, with_waiting};
    ghost use Rattle.iam_rows.specs.Kept.{KeepsTables};

    ghost Value = { Alone P };

    ghost view = { λ l. record { tables = l.index; keeper = l.keeper; waiting = l.waiting } };

    ghost invariant = { λ l. IsWaiting l.index l.waiting × KeepsTables (P.rows l.keeper) (with_waiting l.index l.waiting) };
}

impl<P: Keeper> Lone<P> {
    /// The keeper's rows have to be those of the index's tables. It takes no memory.
    pub fn new(index: Index, keeper: P) -> Lone<P>
        requires { KeepsTables (P.rows keeper) index }
        ensures { result ≡ record { tables = index; keeper = keeper; waiting = None } }
    {
        Lone {
            index,
            keeper,
            waiting: None,
        }
    }

    /// Gives the keeper back.
    pub fn into_keeper(self) -> P
        ensures { result ≡ self.keeper }
    {
        let Lone {
            index,
            keeper,
            waiting,
        } = self;
        let_go(waiting);
        let_go(index);
        keeper
    }

    /// The number of the state that the index is in.
    pub fn number(&self) -> u64
        ensures number { result ≡ self.now.tables.org.changes }
        ensures good { Good self.now.tables }
    {
        self.index.tables().org.changes
    }

    /// The keeper has the rows of the last tables, the entry that waits being applied, and their number counts it.
    pub fn keeps(&self)
        ensures good { Good (current self.now) }
        ensures kept { KeepsTables (P.rows self.now.keeper) (current self.now) }
        ensures counted { (current self.now).org.changes ≡ self.now.tables.org.changes + waits self.now.waiting }
    {
        changes_keep_good();
        accepted_changes_are_counted();
        let _tables = self.index.tables();
        let _waiting = self.waiting.is_some();
    }

    // Takes up the entry that waits.
    fn take_up(&mut self, alloc: Global) -> Result<(), OutOfMemory>
        ensures ok { OnOk result (self.new ≡ taken_up self.old) }
        ensures err { OnErr result (self.new ≡ self.old) }
    {
        advance(alloc, &mut self.index, &mut self.waiting)
    }

    // Judges an entry, and keeps it and takes it up where it is accepted.
    fn judge(&mut self, alloc: Global, entry: Entry) -> Result<Numbered<Answer>, WriteStop>
        requires none { self.old.waiting ≡ None }
        requires formed { IsEntry entry }
        ensures told { IsJudged (current self.old) (current self.new) entry result }
        ensures later { P.keeper_faults self.old.keeper ≤ P.keeper_faults self.new.keeper }
        ensures cause { IsErrOf result WriteStop.KeeperFault → Rose (P.keeper_faults self.old.keeper) (P.keeper_faults self.new.keeper) }
        ensures same { P.same self.old.keeper self.new.keeper }
    {
        match admit(alloc, &self.index, &entry) {
            Ok(Ok(accepted)) => store(
                alloc,
                &mut self.index,
                &mut self.keeper,
                &mut self.waiting,
                entry,
                accepted.changes.as_slice(),
            ),
            Ok(Err(refusal)) => {
                let_go(entry);
                Ok(Numbered {
                    number: self.number(),
                    value: Answer::Refused(refusal),
                })
            }
            Err(_) => {
                let_go(entry);
                Err(WriteStop::OutOfMemory { stored: None })
            }
        }
    }

    // Takes up the entry that waits, and judges one more.
    fn attempt(&mut self, alloc: Global, entry: Entry) -> Result<Numbered<Answer>, WriteStop>
        requires { IsEntry entry }
        ensures told { IsJudged (current self.old) (current self.new) entry result }
        ensures later { P.keeper_faults self.old.keeper ≤ P.keeper_faults self.new.keeper }
        ensures cause { IsErrOf result WriteStop.KeeperFault → Rose (P.keeper_faults self.old.keeper) (P.keeper_faults self.new.keeper) }
        ensures same { P.same self.old.keeper self.new.keeper }
    {
        match self.take_up(alloc) {
            Ok(()) => self.judge(alloc, entry),
            Err(_) => {
                let_go(entry);
                Err(WriteStop::OutOfMemory { stored: None })
            }
        }
    }
}

impl<P: Keeper> Office for Lone<P> {
    ghost stands = { StandsFor };

    ghost office_faults = { λ l. P.keeper_faults l.keeper };

    ghost accepted = { λ l. l.tables.org.changes + waits l.waiting };

    ghost alone = { true };

    ghost same = { λ a b. P.same a.keeper b.keeper };

    ghost same_as_itself = { λ l. P.same_as_itself l.keeper };

    ghost same_onward = { λ a b c ab bc. P.same_onward a.keeper b.keeper c.keeper ab bc };

    ghost legal = { lone_legal };

    fn at_least(&mut self, alloc: Global, floor: u64) -> Result<(), FloorStop> {
        histories();
        self.keeps();
        let Ok(()) = self.take_up(alloc) else {
            return Err(FloorStop::OutOfMemory);
        };
        let known = self.number();
        if floor > known {
            return Err(FloorStop::Ahead { known });
        }
        Ok(())
    }

    fn read(
        &mut self,
        alloc: Global,
        ask: &Ask,
        caller: &Caller,
        moment: Moment,
    ) -> Result<Numbered<Answer>, OutOfMemory> {
        histories();
        self.keeps();
        self.take_up(alloc)?;
        Ok(Numbered {
            number: self.number(),
            value: answer(alloc, &self.index, ask, caller, moment)?,
        })
    }

    fn write(&mut self, alloc: Global, entry: Entry) -> Result<Numbered<Answer>, WriteStop> {
        histories();
        written_answers_accept();
        self.keeps();
        let told = self.attempt(alloc, entry);
        self.keeps();
        told
    }
}
