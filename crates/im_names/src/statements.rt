ghost use Rattle.std.specs.Prelude.{◌≡◌, ◌⊎◌, List, ℕ, map, Some, Ok, Err, IfOk, IfErr};
ghost use Rattle.im_syntax.specs.Rules.{IsStmt, IsCreate};
ghost use Rattle.im_syntax.specs.Tuples.{written};
ghost use Rattle.im_syntax.specs.declared.statement.Stmt.TheVariants as form;
ghost use Rattle.im_names.specs.declared.resolved.Resolved.TheVariants as resolved;
ghost use Rattle.im_names.specs.declared.fault.NameFault.TheVariants.{NoMemory as Lacks};
ghost use Rattle.im_names.specs.Fitting.{DefaultsFit, Serves};
ghost use Rattle.im_names.specs.Faults.{Passes, IsCause, IsErr};
ghost use Rattle.im_names.specs.Conditions.{filter_of};
ghost use Rattle.im_names.specs.Definitions.{column_of as the_column};
ghost use Rattle.im_names.specs.Literals.{default_of as the_default};
ghost use Rattle.im_names.specs.Rows.{insert_fault, rows_of as all_rows, update_fault, set_of, delete_fault};
ghost use Rattle.im_names.specs.Statements.{resolution, query_answer, create_answer, memory_answer, added_fault, add_answer};

use crate::columns::{check_distinct, check_listed, check_not_standing};
use crate::conditions::{bind_where, check_where};
use crate::definitions::{column_of, memory_of, priority_of, schema_of, shape_of};
use crate::even::all_fit;
use crate::fault::NameFault;
use crate::literals::{check_default, default_of};
use crate::queries::bind_query;
use crate::resolved::Resolved;
use crate::rows::{bind_sets, check_counts, rows_of};
use crate::tables::table_called;
use crate::targets::Targets;
use im_history::{Look, Mode, Priority, SharedTable, TableInfo};
use im_syntax::{
    Bound, ColumnPart, Cond, EvenTuples, Lit, MemoryPart, Query, Stmt, Tuples, TuplesForm,
};
use im_values::{List, Name, Rows, Schema};
use std::alloc::Global;

fn resolve_query(alloc: Global, tables: &[SharedTable], query: &Query) -> Result<Bound, NameFault>
    ensures ok { IfOk result (λ bound. query_answer tables.now query.now ≡ Ok bound) }
    ensures err { IfErr result (IsErr (query_answer tables.now query.now)) }
{
    let (number, table) = table_called(alloc, tables, &query.table)?;
    bind_query(alloc, number, &table.schema, query)
}

fn resolve_create(
    alloc: Global,
    name: &Name,
    columns: &[ColumnPart],
    block: Option<u32>,
    extent: Option<u32>,
    memory: Option<MemoryPart>,
) -> Result<Resolved, NameFault>
    requires { IsCreate name.now columns.now block extent }
    ensures ok { IfOk result (λ r. create_answer name.now columns.now block extent memory ≡ Ok r) }
    ensures err { IfErr result (IsErr (create_answer name.now columns.now block extent memory)) }
{
    check_distinct(alloc, columns)?;
    Ok(Resolved::Create {
        name: name.copy(alloc)?,
        schema: schema_of(alloc, columns)?,
        shape: shape_of(block, extent),
        memory: memory_of(memory),
    })
}

fn resolve_memory(
    alloc: Global,
    tables: &[SharedTable],
    name: &Name,
    priority: Option<Priority>,
) -> Result<Resolved, NameFault>
    ensures ok { IfOk result (λ r. memory_answer tables.now name.now priority ≡ Ok r) }
    ensures err { IfErr result (IsErr (memory_answer tables.now name.now priority)) }
{
    let (table, _) = table_called(alloc, tables, name)?;
    Ok(Resolved::Memory { table, priority })
}

/// A column that a table of a number and these columns gets.
fn bind_added(
    alloc: Global,
    table: u32,
    schema: &Schema,
    part: &ColumnPart,
    default: &Option<Lit>,
) -> Result<Resolved, NameFault>
    ensures ok { IfOk result (λ r. Passes
        (added_fault schema.now (the_column part.now) (the_default default.now))
        (r ≡ resolved.AddColumn table (the_column part.now) (the_default default.now))) }
    ensures err { IfErr result (IsCause (added_fault schema.now (the_column part.now) (the_default default.now))) }
{
    check_not_standing(alloc, schema, &part.name)?;
    let column = column_of(alloc, part)?;
    check_default(alloc, &column, default)?;
    let default = default_of(alloc, default)?;
    Ok(Resolved::AddColumn {
        table,
        column,
        default,
    })
}

fn resolve_added(
    alloc: Global,
    tables: &[SharedTable],
    name: &Name,
    part: &ColumnPart,
    default: &Option<Lit>,
) -> Result<Resolved, NameFault>
    ensures ok { IfOk result (λ r. add_answer tables.now name.now (the_column part.now) (the_default default.now) ≡ Ok r) }
    ensures err { IfErr result (IsErr (add_answer tables.now name.now (the_column part.now) (the_default default.now))) }
{
    let (number, table) = table_called(alloc, tables, name)?;
    bind_added(alloc, number, &table.schema, part, default)
}

fn bind_insert(
    alloc: Global,
    table: &TableInfo,
    names: &[Name],
    tuples: &[List<Lit>],
) -> Result<Rows, NameFault>
    ensures ok { IfOk result (λ rows. Passes
        (insert_fault table.now.schema names.now tuples.now)
        (rows ≡ all_rows table.now.schema table.now.defaults names.now tuples.now)) }
    ensures err { IfErr result (IsCause (insert_fault table.now.schema names.now tuples.now)) }
{
    check_listed(alloc, &table.schema, names)?;
    let targets = Targets::of(alloc, &table.schema, names)?;
    check_counts(tuples, targets.count())?;
    rows_of(alloc, table, &targets, tuples)
}

/// Tuples that are kept as values are the rows as they are, where all columns are meant and every value may stand in its own. What
/// is wrong with others is told of them as they are written.
fn bind_even(
    alloc: Global,
    table: &TableInfo,
    names: &[Name],
    tuples: &EvenTuples,
) -> Result<Rows, NameFault>
    ensures ok { IfOk result (λ rows. Passes
        (insert_fault table.now.schema names.now (written tuples.now))
        (rows ≡ all_rows table.now.schema table.now.defaults names.now (written tuples.now))) }
    ensures err { IfErr result (IsCause (insert_fault table.now.schema names.now (written tuples.now))) }
{
    if names.is_empty() && all_fit(tuples, &table.schema) {
        let rows = tuples.rows()?;
        return Ok(rows);
    }
    let tuples = tuples.to_list(alloc)?;
    bind_insert(alloc, table, names, tuples.as_slice())
}

fn bind_tuples(
    alloc: Global,
    table: &TableInfo,
    names: &[Name],
    tuples: &Tuples,
) -> Result<Rows, NameFault>
    ensures ok { IfOk result (λ rows. Passes
        (insert_fault table.now.schema names.now tuples.now)
        (rows ≡ all_rows table.now.schema table.now.defaults names.now tuples.now)) }
    ensures err { IfErr result (IsCause (insert_fault table.now.schema names.now tuples.now)) }
{
    match tuples.form() {
        TuplesForm::Even(tuples) => bind_even(alloc, table, names, tuples),
        TuplesForm::Listed(tuples) => bind_insert(alloc, table, names, tuples.items()),
    }
}

fn resolve_insert(
    alloc: Global,
    tables: &[SharedTable],
    name: &Name,
    names: &[Name],
    tuples: &Tuples,
) -> Result<Resolved, NameFault>
    ensures ok { IfOk result (λ r. resolution tables.now (form.Insert name.now names.now tuples.now) ≡ Ok r) }
    ensures err { IfErr result (IsErr (resolution tables.now (form.Insert name.now names.now tuples.now))) }
{
    let (number, table) = table_called(alloc, tables, name)?;
    let rows = bind_tuples(alloc, table, names, tuples)?;
    Ok(Resolved::Insert {
        table: number,
        rows,
    })
}

fn bind_update(
    alloc: Global,
    table: u32,
    schema: &Schema,
    sets: &[(Name, Lit)],
    cond: &Option<Cond>,
) -> Result<Resolved, NameFault>
    ensures ok { IfOk result (λ r. Passes
        (update_fault schema.now sets.now cond.now)
        (r ≡ resolved.Update table (filter_of schema.now cond.now) (map (set_of schema.now) sets.now))) }
    ensures err { IfErr result (IsCause (update_fault schema.now sets.now cond.now)) }
{
    check_listed(alloc, schema, sets)?;
    check_where(alloc, schema, cond)?;
    let sets = bind_sets(alloc, schema, sets)?;
    let filter = bind_where(alloc, schema, cond)?;
    Ok(Resolved::Update {
        table,
        filter,
        sets,
    })
}

fn resolve_update(
    alloc: Global,
    tables: &[SharedTable],
    name: &Name,
    sets: &[(Name, Lit)],
    cond: &Option<Cond>,
) -> Result<Resolved, NameFault>
    ensures ok { IfOk result (λ r. resolution tables.now (form.Update name.now sets.now cond.now) ≡ Ok r) }
    ensures err { IfErr result (IsErr (resolution tables.now (form.Update name.now sets.now cond.now))) }
{
    let (number, table) = table_called(alloc, tables, name)?;
    bind_update(alloc, number, &table.schema, sets, cond)
}

fn bind_delete(
    alloc: Global,
    table: u32,
    schema: &Schema,
    cond: &Option<Cond>,
) -> Result<Resolved, NameFault>
    ensures ok { IfOk result (λ r. Passes
        (delete_fault schema.now cond.now)
        (r ≡ resolved.Delete table (filter_of schema.now cond.now))) }
    ensures err { IfErr result (IsCause (delete_fault schema.now cond.now)) }
{
    check_where(alloc, schema, cond)?;
    let filter = bind_where(alloc, schema, cond)?;
    Ok(Resolved::Delete { table, filter })
}

fn resolve_delete(
    alloc: Global,
    tables: &[SharedTable],
    name: &Name,
    cond: &Option<Cond>,
) -> Result<Resolved, NameFault>
    ensures ok { IfOk result (λ r. resolution tables.now (form.Delete name.now cond.now) ≡ Ok r) }
    ensures err { IfErr result (IsErr (resolution tables.now (form.Delete name.now cond.now))) }
{
    let (number, table) = table_called(alloc, tables, name)?;
    bind_delete(alloc, number, &table.schema, cond)
}

fn resolve_evict(
    alloc: Global,
    tables: &[SharedTable],
    name: &Name,
    extent: u64,
) -> Result<Resolved, NameFault>
    ensures ok { IfOk result (λ r. resolution tables.now (form.Evict name.now extent) ≡ Ok r) }
    ensures err { IfErr result (IsErr (resolution tables.now (form.Evict name.now extent))) }
{
    let (table, _) = table_called(alloc, tables, name)?;
    Ok(Resolved::Evict { table, extent })
}

fn resolve_among(alloc: Global, stmt: &Stmt, tables: &[SharedTable]) -> Result<Resolved, NameFault>
    requires { IsStmt stmt.now }
    ensures ok { IfOk result (λ resolved. resolution tables.now stmt.now ≡ Ok resolved) }
    ensures err { IfErr result (IsErr (resolution tables.now stmt.now)) }
{
    match stmt {
        Stmt::Select(query) => Ok(Resolved::Select(resolve_query(alloc, tables, query)?)),
        Stmt::Explain(query) => Ok(Resolved::Explain(resolve_query(alloc, tables, query)?)),
        Stmt::OpenFor { cursor, query } => Ok(Resolved::OpenFor {
            cursor: *cursor,
            bound: resolve_query(alloc, tables, query)?,
        }),
        Stmt::Create {
            name,
            columns,
            block,
            extent,
            memory,
        } => resolve_create(alloc, name, columns.items(), *block, *extent, *memory),
        Stmt::AlterMemory { name, memory } => {
            resolve_memory(alloc, tables, name, Some(priority_of(*memory)))
        }
        Stmt::AlterNoMemory { name } => resolve_memory(alloc, tables, name, None),
        Stmt::AddColumn {
            name,
            column,
            default,
        } => resolve_added(alloc, tables, name, column, default),
        Stmt::Insert {
            name,
            columns,
            tuples,
        } => resolve_insert(alloc, tables, name, columns.items(), tuples),
        Stmt::Update { name, sets, cond } => {
            resolve_update(alloc, tables, name, sets.items(), cond)
        }
        Stmt::Delete { name, cond } => resolve_delete(alloc, tables, name, cond),
        Stmt::Evict { name, extent } => resolve_evict(alloc, tables, name, *extent),
        Stmt::SetReadOnly => Ok(Resolved::SetMode(Mode::ReadOnly)),
        Stmt::SetSerializable => Ok(Resolved::SetMode(Mode::Serializable)),
        Stmt::SetCommitted => Ok(Resolved::SetMode(Mode::Committed)),
        Stmt::Commit => Ok(Resolved::Commit),
        Stmt::Rollback => Ok(Resolved::Rollback),
        Stmt::Step(cursor) => Ok(Resolved::Step(*cursor)),
        Stmt::Fetch(cursor) => Ok(Resolved::Fetch(*cursor)),
        Stmt::Close(cursor) => Ok(Resolved::Close(*cursor)),
        Stmt::Run => Ok(Resolved::Run),
        Stmt::Begin => Ok(Resolved::Begin),
        Stmt::Switch => Ok(Resolved::Switch),
        Stmt::Cancel => Ok(Resolved::Cancel),
        Stmt::Trickle(n) => Ok(Resolved::Trickle(*n)),
        Stmt::Purge => Ok(Resolved::Purge),
    }
}

/// A statement with numbers for its names, as the tables of a look have them, or its first fault. What it answers fits those tables
/// where their defaults do, as those of every table in a store.
pub fn resolve(alloc: Global, stmt: &Stmt, look: &Look) -> Result<Resolved, NameFault>
    requires { IsStmt stmt.now }
    ensures ok { IfOk result (λ resolved. resolution look.now.tables stmt.now ≡ Ok resolved) }
    ensures err { IfErr result
        (λ why. (why ≡ Lacks) ⊎ (resolution look.now.tables stmt.now ≡ Err why)) }
    ensures serves { DefaultsFit look.now.tables → IfOk result (Serves look.now.tables) }
{
    resolve_among(alloc, stmt, look.tables.tables())
}
