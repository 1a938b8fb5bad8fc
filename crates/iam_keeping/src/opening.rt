// The index over the tables of a keeper's rows.
ghost use Rattle.std.specs.Prelude.{◌≡◌, ◌≤◌, [], map, All, IfErr, IfOk, IfSome, IsErrOf, OnErr, OnOk, Some};
ghost use Rattle.std.specs.declared.option.Option.{Option};
ghost use Rattle.iam_text.specs.Put.{IsInOrder};
ghost use Rattle.iam_types.specs.declared.tables.Opening.{Opening};
ghost use Rattle.iam_model.specs.Consistent.{Consistent};
ghost use Rattle.iam_model.specs.Facts as fact_spec;
ghost use Rattle.iam_model.specs.Formed.{IsFact};
ghost use Rattle.iam_model.specs.Opening as opening_spec;
ghost use Rattle.iam_law.specs.Good.{Good};
ghost use Rattle.iam_outer.specs.Causes.{Rose};
ghost use Rattle.iam_outer.specs.Rows.{row_order, Written};
ghost use Rattle.iam_types.specs.declared.fact.FactChange.{FactChange};
ghost use Rattle.iam_keeping.specs.declared.stop.LoadFault.{LoadFault};
ghost use Rattle.iam_keeping.specs.Opened.{IsOpenedFrom, IsLeft, IsLoadFault};
ghost use Rattle.iam_rows.specs.Kept.{AreFactsOf, AreRows, AreWrites, KeepsTables};

use crate::stop::{LoadFault, OpenStop};
use iam_catalogue::Catalogue;
use iam_judge::{BuildStop, Index};
use iam_law::{conditions_stand, openings_are_good};
use iam_model::{facts_are_put, given_tables_are_consistent, ordered_facts_are_placed};
use iam_outer::{Keeper, Row, RowWrite, Zones};
use iam_rows::{
    LoadStop, facts_of_rows, facts_stand_as_rows, puts_of, read_facts_are_kept, rows_follow_changes,
};
use iam_tables::{TablesStop, facts_of, from_facts, opening_tables};
use iam_text::{List, OutOfMemory, let_go};
use iam_types::{Fact, Opening, Tables};
use std::alloc::Global;

// The index over consistent tables.
fn index_of(
    alloc: Global,
    tables: Tables,
    catalogue: Catalogue,
    zones: Zones,
) -> Result<Index, OpenStop>
    requires { Consistent tables }
    ensures ok { IfOk result (λ index. index ≡ tables) }
    ensures err { IfErr result (λ stop. stop ≡ OpenStop.OutOfMemory) }
{
    match Index::build(alloc, tables, catalogue, zones) {
        Ok(index) => Ok(index),
        Err(BuildStop::BadCondition) => unreachable!(),
        Err(BuildStop::OutOfMemory) => Err(OpenStop::OutOfMemory),
    }
}

// The writes that keep tables.
fn writes_of_tables(alloc: Global, tables: &Tables) -> Result<List<RowWrite>, OutOfMemory>
    requires { Consistent tables.now }
    ensures { IfOk result (AreWrites (map (λ fact. FactChange.Put fact) (fact_spec.facts_of tables.now))) }
{
    let facts = facts_of(alloc, tables)?;
    puts_of(alloc, facts.as_slice())
}

// The index over consistent tables, and the writes that keep them.
fn index_and_writes(
    alloc: Global,
    tables: Tables,
    catalogue: Catalogue,
    zones: Zones,
) -> Result<(Index, List<RowWrite>), OpenStop>
    requires { Consistent tables }
    ensures index { IfOk result (λ made. made.0 ≡ tables) }
    ensures writes { IfOk result (λ made. AreWrites (map (λ fact. FactChange.Put fact) (fact_spec.facts_of tables)) made.1) }
    ensures err { IfErr result (λ stop. stop ≡ OpenStop.OutOfMemory) }
{
    match writes_of_tables(alloc, &tables) {
        Ok(writes) => {
            let index = index_of(alloc, tables, catalogue, zones)?;
            Ok((index, writes))
        }
        Err(_) => {
            let_go(tables);
            let_go(catalogue);
            let_go(zones);
            Err(OpenStop::OutOfMemory)
        }
    }
}

// The index that an organisation starts from, and the writes that keep its tables.
fn first_index(
    alloc: Global,
    opening: &Opening,
    catalogue: Catalogue,
    zones: Zones,
) -> Result<(Index, List<RowWrite>), OpenStop>
    requires { opening_spec.IsOpening opening.now }
    ensures index { IfOk result (λ made. made.0 ≡ opening_spec.opening_tables opening.now) }
    ensures writes { IfOk result (λ made. AreWrites (map (λ fact. FactChange.Put fact) (fact_spec.facts_of (opening_spec.opening_tables opening.now))) made.1) }
    ensures err { IfErr result (λ stop. stop ≡ OpenStop.OutOfMemory) }
{
    openings_are_good();
    match opening_tables(alloc, opening) {
        Ok(tables) => index_and_writes(alloc, tables, catalogue, zones),
        Err(_) => {
            let_go(catalogue);
            let_go(zones);
            Err(OpenStop::OutOfMemory)
        }
    }
}

fn commit<P: Keeper>(keeper: &mut P, writes: &[RowWrite]) -> Result<(), OpenStop>
    ensures ok { OnOk result (Written (P.rows keeper.old) (P.rows keeper.new) writes.now) }
    ensures err { OnErr result (P.rows keeper.new ≡ P.rows keeper.old) }
    ensures fault { (fault : LoadFault) → IsErrOf result (OpenStop.Rows fault) → ⊥ }
    ensures later { P.keeper_faults keeper.old ≤ P.keeper_faults keeper.new }
    ensures cause { IsErrOf result OpenStop.Keeper → Rose (P.keeper_faults keeper.old) (P.keeper_faults keeper.new) }
    ensures same { P.same keeper.old keeper.new }
{
    keeper.commit(writes)?;
    Ok(())
}

// Keeps what an organisation starts from, where the keeper has no rows. All is made before the commit, the index too, so
// that nothing can be refused behind it.
fn begin<P: Keeper>(
    alloc: Global,
    opening: &Opening,
    keeper: &mut P,
    catalogue: Catalogue,
    zones: Zones,
) -> Result<Index, OpenStop>
    requires formed { opening_spec.IsOpening opening.now }
    requires empty { IfSome (P.rows keeper.old) (λ rows. rows ≡ []) }
    ensures good { IfOk result Good }
    ensures opened { IfOk result (λ index. index ≡ opening_spec.opening_tables opening.now) }
    ensures kept { IfOk result (KeepsTables (P.rows keeper.new)) }
    ensures left { OnOk result (IsLeft (Some opening.now) (P.rows keeper.old) (P.rows keeper.new)) }
    ensures err { OnErr result (P.rows keeper.new ≡ P.rows keeper.old) }
    ensures fault { (fault : LoadFault) → IsErrOf result (OpenStop.Rows fault) → ⊥ }
    ensures later { P.keeper_faults keeper.old ≤ P.keeper_faults keeper.new }
    ensures cause { IsErrOf result OpenStop.Keeper → Rose (P.keeper_faults keeper.old) (P.keeper_faults keeper.new) }
    ensures same { P.same keeper.old keeper.new }
{
    openings_are_good();
    facts_are_put();
    rows_follow_changes();
    let (index, writes) = first_index(alloc, opening, catalogue, zones)?;
    match commit(keeper, writes.as_slice()) {
        Ok(()) => Ok(index),
        Err(stop) => {
            let_go(index);
            Err(stop)
        }
    }
}

fn begin_with<P: Keeper>(
    alloc: Global,
    opening: Option<Opening>,
    keeper: &mut P,
    catalogue: Catalogue,
    zones: Zones,
) -> Result<Index, OpenStop>
    requires formed { IfSome opening opening_spec.IsOpening }
    requires empty { IfSome (P.rows keeper.old) (λ rows. rows ≡ []) }
    ensures good { IfOk result Good }
    ensures opened { IfOk result (IsOpenedFrom opening []) }
    ensures kept { IfOk result (KeepsTables (P.rows keeper.new)) }
    ensures left { OnOk result (IsLeft opening (P.rows keeper.old) (P.rows keeper.new)) }
    ensures err { OnErr result (P.rows keeper.new ≡ P.rows keeper.old) }
    ensures fault { (fault : LoadFault) → IsErrOf result (OpenStop.Rows fault) → IsLoadFault opening [] fault }
    ensures later { P.keeper_faults keeper.old ≤ P.keeper_faults keeper.new }
    ensures cause { IsErrOf result OpenStop.Keeper → Rose (P.keeper_faults keeper.old) (P.keeper_faults keeper.new) }
    ensures same { P.same keeper.old keeper.new }
{
    match opening {
        Some(opening) => {
            let begun = begin(alloc, &opening, keeper, catalogue, zones);
            let_go(opening);
            begun
        }
        None => {
            let_go(catalogue);
            let_go(zones);
            Err(OpenStop::Rows(LoadFault::Empty))
        }
    }
}

fn tables_of_facts(alloc: Global, rows: &[Row], facts: List<Fact>) -> Result<Tables, OpenStop>
    requires formed { All IsFact facts }
    requires read { AreFactsOf rows.now facts }
    ensures consistent { IfOk result Consistent }
    ensures opened { IfOk result (λ tables. IsInOrder row_order rows.now → AreRows (fact_spec.facts_of tables) rows.now) }
    ensures fault { (opening : Option Opening) (fault : LoadFault) → IsErrOf result (OpenStop.Rows fault) → IsLoadFault opening rows.now fault }
    ensures keeper { IsErrOf result OpenStop.Keeper → ⊥ }
{
    facts_stand_as_rows();
    ordered_facts_are_placed();
    given_tables_are_consistent();
    read_facts_are_kept();
    match from_facts(alloc, facts) {
        Ok(tables) => Ok(tables),
        Err(TablesStop::Inconsistent { rule }) => {
            Err(OpenStop::Rows(LoadFault::Inconsistent { rule }))
        }
        Err(TablesStop::OutOfMemory) => Err(OpenStop::OutOfMemory),
    }
}

fn tables_of_rows(alloc: Global, rows: &[Row]) -> Result<Tables, OpenStop>
    ensures consistent { IfOk result Consistent }
    ensures opened { IfOk result (λ tables. IsInOrder row_order rows.now → AreRows (fact_spec.facts_of tables) rows.now) }
    ensures fault { (opening : Option Opening) (fault : LoadFault) → IsErrOf result (OpenStop.Rows fault) → IsLoadFault opening rows.now fault }
    ensures keeper { IsErrOf result OpenStop.Keeper → ⊥ }
{
    match facts_of_rows(alloc, rows) {
        Ok(facts) => tables_of_facts(alloc, rows, facts),
        Err(LoadStop::BadRow { index }) => Err(OpenStop::Rows(LoadFault::BadRow { index })),
        Err(LoadStop::OutOfMemory) => Err(OpenStop::OutOfMemory),
    }
}

// The index over the tables of rows.
fn index_of_rows(
    alloc: Global,
    rows: &[Row],
    catalogue: Catalogue,
    zones: Zones,
) -> Result<Index, OpenStop>
    ensures consistent { IfOk result Consistent }
    ensures opened { IfOk result (λ index. IsInOrder row_order rows.now → AreRows (fact_spec.facts_of index) rows.now) }
    ensures fault { (opening : Option Opening) (fault : LoadFault) → IsErrOf result (OpenStop.Rows fault) → IsLoadFault opening rows.now fault }
    ensures keeper { IsErrOf result OpenStop.Keeper → ⊥ }
{
    let tables = tables_of_rows(alloc, rows)?;
    index_of(alloc, tables, catalogue, zones)
}

// Opens the index over rows that were loaded.
fn open_rows<P: Keeper>(
    alloc: Global,
    opening: Option<Opening>,
    keeper: &mut P,
    rows: &[Row],
    catalogue: Catalogue,
    zones: Zones,
) -> Result<Index, OpenStop>
    requires formed { IfSome opening opening_spec.IsOpening }
    requires loaded { IfSome (P.rows keeper.old) (λ kept. rows.now ≡ kept) }
    ensures good { IfOk result Good }
    ensures opened { IfOk result (λ index. IfSome (P.rows keeper.old) (λ rows. IsOpenedFrom opening rows index)) }
    ensures kept { IfOk result (KeepsTables (P.rows keeper.new)) }
    ensures left { OnOk result (IsLeft opening (P.rows keeper.old) (P.rows keeper.new)) }
    ensures err { OnErr result (P.rows keeper.new ≡ P.rows keeper.old) }
    ensures fault { (fault : LoadFault) → IsErrOf result (OpenStop.Rows fault) → IfSome (P.rows keeper.old) (λ rows. IsLoadFault opening rows fault) }
    ensures later { P.keeper_faults keeper.old ≤ P.keeper_faults keeper.new }
    ensures cause { IsErrOf result OpenStop.Keeper → Rose (P.keeper_faults keeper.old) (P.keeper_faults keeper.new) }
    ensures same { P.same keeper.old keeper.new }
{
    conditions_stand();
    if rows.is_empty() {
        return begin_with(alloc, opening, keeper, catalogue, zones);
    }
    let_go(opening);
    index_of_rows(alloc, rows, catalogue, zones)
}

/// Opens the index over the tables of the keeper's rows. Where there are none, the opening's tables are kept and opened;
/// where rows are there, an opening is passed over. Nothing is kept before the index is built.
pub fn open<P: Keeper>(
    alloc: Global,
    opening: Option<Opening>,
    keeper: &mut P,
    catalogue: Catalogue,
    zones: Zones,
) -> Result<Index, OpenStop>
    requires { IfSome opening opening_spec.IsOpening }
    ensures good { IfOk result Good }
    ensures opened { IfOk result (λ index. IfSome (P.rows keeper.old) (λ rows. IsOpenedFrom opening rows index)) }
    ensures kept { IfOk result (KeepsTables (P.rows keeper.new)) }
    ensures left { OnOk result (IsLeft opening (P.rows keeper.old) (P.rows keeper.new)) }
    ensures err { OnErr result (P.rows keeper.new ≡ P.rows keeper.old) }
    ensures fault { (fault : LoadFault) → IsErrOf result (OpenStop.Rows fault) → IfSome (P.rows keeper.old) (λ rows. IsLoadFault opening rows fault) }
    ensures later { P.keeper_faults keeper.old ≤ P.keeper_faults keeper.new }
    ensures cause { IsErrOf result OpenStop.Keeper → Rose (P.keeper_faults keeper.old) (P.keeper_faults keeper.new) }
    ensures same { P.same keeper.old keeper.new }
{
    match keeper.load() {
        Ok(rows) => open_rows(alloc, opening, keeper, rows.as_slice(), catalogue, zones),
        Err(stop) => {
            let_go(opening);
            let_go(catalogue);
            let_go(zones);
            Err(OpenStop::from(stop))
        }
    }
}
