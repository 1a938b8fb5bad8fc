// The index over the tables.
ghost use Rattle.std.specs.Prelude.{◌≡◌, IfOk, IfErr, IsErrOf, IsTrue, None, OnOk, OnErr};
ghost use Rattle.iam_model.specs.Catalogue.{is_permission};
ghost use Rattle.iam_model.specs.Commands.{IsEntry, after};
ghost use Rattle.iam_model.specs.Consistent.{Consistent};
ghost use Rattle.iam_model.specs.Nodes.{exists};
ghost use Rattle.iam_law.specs.Admit.{admission};
ghost use Rattle.iam_law.specs.Decide as spec;
ghost use Rattle.iam_law.specs.Good.{ConditionsStand, Good};

use crate::decide::decide;
use iam_catalogue::Catalogue;
use iam_changes::apply;
use iam_law::{accepted_entries_fit, conditions_stand};
use iam_model::policies_are_countable;
use iam_outer::Zones;
use iam_steps::Steps;
use iam_text::OutOfMemory;
use iam_types::{Decision, Entry, Query, Tables};
use std::alloc::Global;
use std::marker::Model;
use std::sync::ledger::Ledger;

/// Why no index is made: a condition of the tables isn't one, or memory was refused.
#[derive(Clone, Copy)]
pub enum BuildStop {
    BadCondition,
    OutOfMemory,
}

impl From<OutOfMemory> for BuildStop {
    ghost use Rattle.std.specs.Prelude.{◌≡◌};
    ghost use Rattle.iam_judge.specs.declared.index.BuildStop.TheVariants as variant;

    ghost from_gives = { λ _ stop. stop ≡ variant.OutOfMemory };

    fn from(_: OutOfMemory) -> BuildStop {
        BuildStop::OutOfMemory
    }
}

/// The tables with the catalogue and the time zones. It is seen as its tables, which are good.
#[derive(Drop)]
pub struct Index {
    tables: Tables,
    catalogue: Catalogue,
    zones: Zones,
}

impl Model for Index {
    ghost use Rattle.iam_types.specs.declared.tables.Tables.{Tables};
    ghost use Rattle.iam_law.specs.Good.{Good};

    ghost Value = { Tables };

    ghost view = { λ i. i.tables };

    ghost invariant = { λ i. Good i.tables };
}

impl Index {
    /// The index over consistent tables, where their conditions may stand there. None can be stored yet, so none is bad.
    pub fn build(
        _alloc: Global,
        tables: Tables,
        catalogue: Catalogue,
        zones: Zones,
    ) -> Result<Index, BuildStop>
        requires { Consistent tables }
        ensures ok { IfOk result (λ index. index ≡ tables) }
        ensures bad { IsErrOf result BuildStop.BadCondition → ¬ ConditionsStand tables }
        ensures err { IfErr result (λ stop. stop ≡ BuildStop.OutOfMemory) }
    {
        conditions_stand();
        Ok(Index {
            tables,
            catalogue,
            zones,
        })
    }

    pub fn tables(&self) -> &Tables
        ensures tables { result.now ≡ self.now }
        ensures good { Good self.now }
    {
        &self.tables
    }

    pub fn catalogue(&self) -> &Catalogue {
        &self.catalogue
    }

    pub fn zones(&self) -> &Zones {
        &self.zones
    }

    /// What the query comes to.
    pub fn decision(&self, alloc: Global, query: &Query) -> Result<Decision, OutOfMemory>
        requires node { IsTrue (exists self.now query.now.node) }
        requires permission { IsTrue (is_permission query.now.permission) }
        ensures { IfOk result (λ decision. decision ≡ spec.decide self.now query.now) }
    {
        policies_are_countable();
        decide(alloc, &self.tables, &self.catalogue, query)
    }

    /// What the query comes to, with the steps that it takes: none are counted yet, since it scans.
    pub fn decide<L: Ledger>(
        &self,
        alloc: Global,
        query: &Query,
        _steps: &mut Steps<L>,
    ) -> Result<Decision, OutOfMemory>
        requires node { IsTrue (exists self.now query.now.node) }
        requires permission { IsTrue (is_permission query.now.permission) }
        ensures decision { IfOk result (λ decision. decision ≡ spec.decide self.now query.now) }
        ensures steps { _steps.new ≡ _steps.old }
    {
        self.decision(alloc, query)
    }

    /// Makes the change of an accepted entry.
    pub fn apply(&mut self, alloc: Global, entry: &Entry) -> Result<(), OutOfMemory>
        requires formed { IsEntry entry.now }
        requires accepted { admission self.old entry.now ≡ None }
        ensures ok { OnOk result (self.new ≡ after self.old entry.now) }
        ensures err { OnErr result (self.new ≡ self.old) }
    {
        accepted_entries_fit();
        conditions_stand();
        apply(&mut self.tables, alloc, entry)
    }
}
