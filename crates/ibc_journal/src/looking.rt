//! What a file holds, and how its journal began.

ghost use Rattle.std.specs.Prelude.{◌≡◌, [], ◌∷◌, IfErr, IfOk, IsTrue, Some, Ok, ⊤};
ghost use Rattle.sqlite.specs.State.{Survives};
ghost use Rattle.sqlite.specs.Held.{state};
ghost use Rattle.ibc_journal.specs.Tables.{no_schema, meta, entries, journal_schema};
ghost use Rattle.ibc_journal.specs.Plain.{plain_column, AreNumbers, AreBytes, IsPlainColumn, IsPlainTable, HasNoRules, HasPlainDefaults};
ghost use Rattle.ibc_journal.specs.Changes.{CrashLeaves};
ghost use Rattle.ibc_journal.specs.Crashes.{LeavesNothing};
ghost use Rattle.ibc_journal.specs.Faults.{IsOfBeginning};
ghost use Rattle.ibc_journal.specs.Reads.{HasStill, LeavesTheSame, SeesJournal, ShowsBeginning, ShowsOnlyBeginning, TellsBeginning};
ghost use Rattle.ibc_journal.specs.declared.looking.Looks.TheVariants.{Empty, Journal};

use crate::JournalFault;
use crate::digests::FORMAT;
use sqlite::{Alter, Connection, Error, Row};
use sqlite_schema::code::Terms;
use sqlite_schema::schema::{Column, Kind, Schema, Table};
use sqlite_value::keys::Collation;
use sqlite_value::value::Value;
use std::alloc::{AllocError, Global};

/// What a file looks like.
#[derive(Clone, Copy, Debug, PartialEq, Eq)]
pub enum Looks {
    /// There is no table, index or view.
    Empty,
    /// The tables are those of a journal of this format, and there is nothing else.
    Journal,
    /// The tables are those of a journal of another format, with this number.
    OfFormat(i64),
    /// It's no journal.
    Other,
}

/// How a journal began.
#[derive(Debug, Drop)]
pub struct Beginning {
    pub format: i64,
    pub genesis: Vec<u8>,
}

/// What the file of a connection looks like. `Empty` comes where `begin` makes a journal, and `Journal` where the tables are
/// those that `begin` makes.
pub fn look<S: Alter>(alloc: Global, conn: &mut Connection<S>) -> Result<Looks, Error>
    ensures empty { result ≡ Ok Empty → HasStill (state S.Store) no_schema conn.old conn.new }
    ensures journal { result ≡ Ok Journal → HasStill (state S.Store) journal_schema conn.old conn.new }
    ensures sees_empty { (state S.Store conn.old).now.schema ≡ no_schema → result ≡ Ok Empty }
    ensures sees_journal { SeesJournal (state S.Store) conn.old result }
    ensures crash { CrashLeaves (state S.Store) conn.old conn.new LeavesNothing }
{
    if is_empty(conn.schema()) {
        return Ok(Looks::Empty);
    }
    if has_our_tables(alloc, conn.schema())? {
        return Ok(Looks::Journal);
    }
    look_at_others(conn)
}

/// How the journal of a connection began. Error: `Beginnings` where the first table has no row, or more than one.
pub fn beginning_of<S: Alter>(conn: &mut Connection<S>) -> Result<Beginning, JournalFault>
    ensures began { TellsBeginning (state S.Store) conn.old conn.new result }
    ensures faults { IfErr result IsOfBeginning }
    ensures same { LeavesTheSame (state S.Store) conn.old conn.new result }
    ensures crash { CrashLeaves (state S.Store) conn.old conn.new LeavesNothing }
{
    let rows = conn.query_all("SELECT format, genesis FROM meta", &[])?;
    let found = only_beginning(rows.as_slice());
    drop(rows);
    found
}

// The beginning that the only row shows.
fn only_beginning(rows: &[Row]) -> Result<Beginning, JournalFault>
    ensures faults { IfErr result IsOfBeginning }
    ensures began { ShowsOnlyBeginning rows.now result }
{
    match rows {
        [row] => Ok(beginning_in(row)?),
        _ => Err(JournalFault::Beginnings),
    }
}

// The beginning that a row shows.
fn beginning_in(row: &Row) -> Result<Beginning, Error>
    ensures { ShowsBeginning row.now result }
{
    Ok(Beginning {
        format: row.get(0)?,
        genesis: row.get(1)?,
    })
}

// Whether a schema has no table, index or view.
fn is_empty(schema: &Schema) -> bool
    ensures is { IsTrue result → schema.now ≡ no_schema }
    ensures sees { schema.now ≡ no_schema → IsTrue result }
{
    schema.tables.as_slice().is_empty()
        && schema.indexes.as_slice().is_empty()
        && schema.views.as_slice().is_empty()
}

// Whether a schema has the two tables of a journal, and nothing else.
fn has_our_tables(alloc: Global, schema: &Schema) -> Result<bool, AllocError>
    ensures is { IfOk result (λ has. IsTrue has → schema.now ≡ journal_schema) }
    ensures sees { schema.now ≡ journal_schema → IfOk result (λ has. IsTrue has) }
{
    let [first, second] = schema.tables.as_slice() else {
        return Ok(false);
    };
    if !schema.indexes.as_slice().is_empty() || !schema.views.as_slice().is_empty() {
        return Ok(false);
    }
    Ok(is_meta(alloc, first)? && is_entries(alloc, second)?)
}

// Whether a table is the first one of a journal.
fn is_meta(alloc: Global, table: &Table) -> Result<bool, AllocError>
    ensures is { IfOk result (λ is. IsTrue is → table.now ≡ meta) }
    ensures sees { table.now ≡ meta → IfOk result (λ is. IsTrue is) }
{
    if table.tree != 0 || table.name.as_slice() != b"meta".as_slice() {
        return Ok(false);
    }
    Ok(is_plain(alloc, table)? && are_meta_columns(table.columns.as_slice()))
}

fn are_meta_columns(columns: &[Column]) -> bool
    ensures is { IsTrue result → columns.now ≡ meta.columns }
    ensures sees { columns.now ≡ meta.columns → IsTrue result }
{
    match columns {
        [format, genesis] => {
            is_column(format, b"format".as_slice(), Kind::Integer, false)
                && is_column(genesis, b"genesis".as_slice(), Kind::Blob, true)
        }
        _ => false,
    }
}

// Whether a table is the second one of a journal.
fn is_entries(alloc: Global, table: &Table) -> Result<bool, AllocError>
    ensures is { IfOk result (λ is. IsTrue is → table.now ≡ entries) }
    ensures sees { table.now ≡ entries → IfOk result (λ is. IsTrue is) }
{
    if table.tree != 1 || table.name.as_slice() != b"entries".as_slice() {
        return Ok(false);
    }
    Ok(is_plain(alloc, table)? && are_entry_columns(table.columns.as_slice()))
}

fn are_entry_columns(columns: &[Column]) -> bool
    ensures is { IsTrue result → columns.now ≡ entries.columns }
    ensures sees { columns.now ≡ entries.columns → IsTrue result }
{
    match columns {
        [place, chain, kind, log_place, event, answer, digest] => {
            are_numbers(place, chain, kind, log_place) && are_bytes(event, answer, digest)
        }
        _ => false,
    }
}

fn are_numbers(place: &Column, chain: &Column, kind: &Column, log_place: &Column) -> bool
    ensures is { IsTrue result → AreNumbers place.now chain.now kind.now log_place.now }
    ensures sees { AreNumbers place.now chain.now kind.now log_place.now → IsTrue result }
{
    is_column(place, b"place".as_slice(), Kind::Integer, false)
        && is_column(chain, b"chain".as_slice(), Kind::Integer, true)
        && is_column(kind, b"kind".as_slice(), Kind::Integer, true)
        && is_column(log_place, b"log_place".as_slice(), Kind::Integer, true)
}

fn are_bytes(event: &Column, answer: &Column, digest: &Column) -> bool
    ensures is { IsTrue result → AreBytes event.now answer.now digest.now }
    ensures sees { AreBytes event.now answer.now digest.now → IsTrue result }
{
    is_column(event, b"event".as_slice(), Kind::Blob, true)
        && is_column(answer, b"answer".as_slice(), Kind::Blob, true)
        && is_column(digest, b"digest".as_slice(), Kind::Blob, true)
}

// Whether a column has this name and kind, may or may not be NULL, and has nothing else of its own.
fn is_column(column: &Column, name: &[u8], kind: Kind, not_null: bool) -> bool
    ensures is { IsTrue result → column.now ≡ plain_column name.now kind not_null }
    ensures sees { column.now ≡ plain_column name.now kind not_null → IsTrue result }
{
    column.name.as_slice() == name
        && column.kind == kind
        && column.not_null == not_null
        && is_plain_column(column)
}

// Whether a column takes values of its kind alone, has no default, and is sorted by bytes.
fn is_plain_column(column: &Column) -> bool
    ensures is { IsTrue result → IsPlainColumn column.now }
    ensures sees { IsPlainColumn column.now → IsTrue result }
{
    column.is_strict
        && matches!(&column.default, Value::Null)
        && column.collation == Collation::Binary
}

// Whether the first column of a table is the number of its row, and the table has no other rule.
fn is_plain(alloc: Global, table: &Table) -> Result<bool, AllocError>
    ensures is { IfOk result (λ is. IsTrue is → IsPlainTable table.now) }
    ensures sees { IsPlainTable table.now → IfOk result (λ is. IsTrue is) }
{
    Ok(
        has_first_key(table)
            && has_no_rules(table)
            && is_none(alloc, &table.checks)?
            && is_none(alloc, &table.stamps.terms)?,
    )
}

// Whether the first column of a table is the number of its row.
fn has_first_key(table: &Table) -> bool
    ensures is { IsTrue result → (table.now.key ≡ Some 0) × (table.now.primary ≡ 0 ∷ []) }
    ensures sees { table.now.key ≡ Some 0 → table.now.primary ≡ 0 ∷ [] → IsTrue result }
{
    match table.key {
        Some(0) => is_zero_alone(table.primary.as_slice()),
        _ => false,
    }
}

fn is_zero_alone(places: &[usize]) -> bool
    ensures is { IsTrue result → places.now ≡ 0 ∷ [] }
    ensures sees { places.now ≡ 0 ∷ [] → IsTrue result }
{
    match places {
        [place] => *place == 0,
        _ => false,
    }
}

// Whether a table has no key besides its first, no reference to another, and no default that is reckoned.
fn has_no_rules(table: &Table) -> bool
    ensures is { IsTrue result → HasNoRules table.now }
    ensures sees { HasNoRules table.now → IsTrue result }
{
    table.uniques.as_slice().is_empty()
        && table.orders.as_slice().is_empty()
        && table.references.as_slice().is_empty()
        && has_plain_defaults(table)
}

// Whether a table has no default that is reckoned, and counts no rows.
fn has_plain_defaults(table: &Table) -> bool
    ensures is { IsTrue result → HasPlainDefaults table.now }
    ensures sees { HasPlainDefaults table.now → IsTrue result }
{
    table.computed.as_slice().is_empty()
        && table.stamps.places.as_slice().is_empty()
        && table.stamps.formats.as_slice().is_empty()
        && !table.is_counted
}

// Whether there is no term.
fn is_none(alloc: Global, terms: &Terms) -> Result<bool, AllocError>
    ensures is { IfOk result (λ is. IsTrue is → terms.now ≡ []) }
    ensures sees { terms.now ≡ [] → IfOk result (λ is. IsTrue is) }
{
    let lent = terms.lend(alloc)?;
    let is = lent.roots.is_empty();
    drop(lent);
    Ok(is)
}

// What a file with other tables looks like.
fn look_at_others<S: Alter>(conn: &mut Connection<S>) -> Result<Looks, Error>
    ensures full { IfOk result (λ looks. ¬ (looks ≡ Empty)) }
    ensures other { IfOk result (λ looks. ¬ (looks ≡ Journal)) }
    ensures survives { Survives (state S.Store conn.old) (state S.Store conn.new) (λ _. ⊤) }
{
    let format = format_of(conn)?;
    Ok(looks_of(format))
}

// What a file with other tables looks like, which has this format, or none.
fn looks_of(format: Option<i64>) -> Looks
    ensures full { ¬ (result ≡ Empty) }
    ensures other { ¬ (result ≡ Journal) }
{
    match format {
        Some(format) if format != i64::from(FORMAT) => Looks::OfFormat(format),
        _ => Looks::Other,
    }
}

// The format of a journal that isn't of this one.
fn format_of<S: Alter>(conn: &mut Connection<S>) -> Result<Option<i64>, Error>
    ensures { Survives (state S.Store conn.old) (state S.Store conn.new) (λ _. ⊤) }
{
    let found = conn.query_row("SELECT format FROM meta", &[]);
    format_in(found)
}

// The format in the only column of a row that was found.
fn format_in(found: Result<Row, Error>) -> Result<Option<i64>, Error> {
    match found {
        Ok(row) => Ok(row.get(0).ok()),
        Err(Error::SqliteFailure(code)) => Err(Error::SqliteFailure(code)),
        Err(_) => Ok(None),
    }
}
