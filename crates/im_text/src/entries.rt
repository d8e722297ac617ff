ghost use Rattle.std.specs.Prelude.{◌≡◌, ◌∷◌, OnOk, map, flat_map, codes};
ghost use Rattle.std.specs.Option.{option_copied};
ghost use Rattle.im_history.specs.Puts.{lent_change};
ghost use Rattle.im_text.specs.Entries as spec;
ghost use Rattle.im_text.specs.Fields.{field_text};
ghost use Rattle.im_text.specs.Records.{further, record_text, records_text};
ghost use Rattle.im_text.specs.inner.Pages.{IsBetween, IsInside, Adds, Ends};

use crate::field::Field;
use crate::page::Page;
use im_history::{Changes, Entry, LentChange, Mode, Shape, What};
use im_values::{Column, Kind, Name, NoMemory, Priority, Schema, Seen, Value};
use itoa::Buffer;

/// The word for a table's priority in the column store, or for its leaving it.
fn priority_word(priority: Option<Priority>) -> &'static str
    ensures { result.now ≡ spec.priority_word priority }
{
    match priority {
        Some(Priority::Critical) => "critical",
        Some(Priority::High) => "high",
        Some(Priority::Medium) => "medium",
        Some(Priority::Low) => "low",
        Some(Priority::None) => "none",
        None => "off",
    }
}

/// The word for the isolation of a transaction.
fn mode_word(mode: Mode) -> &'static str
    ensures { result.now ≡ spec.mode_word mode }
{
    match mode {
        Mode::Committed => "committed",
        Mode::Serializable => "serializable",
        Mode::ReadOnly => "readonly",
    }
}

/// The most bytes of a column's texts, or 0 where it has numbers.
fn text_limit(kind: Kind) -> u64
    ensures { result ≡ spec.text_limit kind }
{
    match kind {
        Kind::Int => 0,
        Kind::Text(limit) => u64::from(limit),
    }
}

/// 1 where something is so, and else 0.
fn flag(so: bool) -> u64
    ensures { result ≡ spec.flag so }
{
    if so { 1 } else { 0 }
}

/// Puts a column of a table that was created, as further fields.
fn put_column(page: &mut Page, column: &Column) -> Result<(), NoMemory>
    requires { IsInside page.old }
    ensures { OnOk result (Adds page.old page.new (further (spec.column_fields column.now))) }
{
    page.put(column.name.bytes())?;
    page.put_each_number(&[text_limit(column.kind)])
}

/// Puts the columns of a table that was created, as further fields.
fn put_columns(page: &mut Page, columns: &[Column]) -> Result<(), NoMemory>
    requires { IsInside page.old }
    ensures { OnOk result (Adds page.old page.new (further (flat_map spec.column_fields columns.now))) }
{
    for column in columns {
        put_column(page, column)?;
    }
    Ok(())
}

/// Puts the creation of a table, as further fields.
fn put_create(page: &mut Page, name: &Name, schema: &Schema, shape: Shape) -> Result<(), NoMemory>
    requires { IsInside page.old }
    ensures { OnOk result (Adds page.old page.new (further (spec.create_fields name.now schema.now shape))) }
{
    page.put(b"create")?;
    page.put(name.bytes())?;
    page.put_each_number(&[u64::from(shape.block()), u64::from(shape.extent())])?;
    put_columns(page, schema.columns())
}

/// Puts a value as a further field.
fn put_value(page: &mut Page, value: &Value) -> Result<(), NoMemory>
    requires { IsInside page.old }
    ensures { OnOk result (Adds page.old page.new (44 ∷ field_text (spec.value_field value.now))) }
{
    match value.seen() {
        Seen::Int(number) => page.put(Buffer::new().format(number).as_bytes()),
        Seen::Text(text) => page.put(text),
        Seen::Null => page.put(b""),
    }
}

/// Puts a column that a table got and its default, as further fields.
fn put_add(page: &mut Page, table: u32, column: &Column, default: &Value) -> Result<(), NoMemory>
    requires { IsInside page.old }
    ensures { OnOk result (Adds page.old page.new (further (spec.add_fields table column.now default.now))) }
{
    page.put_phrase("add", &[u64::from(table)])?;
    put_column(page, column)?;
    put_value(page, default)
}

/// Puts the opening of a cursor, and the SCN that it asked for, as further fields.
fn put_open(page: &mut Page, cursor: u32, table: u32, asked: Option<u64>) -> Result<(), NoMemory>
    requires { IsInside page.old }
    ensures { OnOk result (Adds page.old page.new (further (spec.open_fields cursor table asked))) }
{
    let cursor = u64::from(cursor);
    let table = u64::from(table);
    match asked {
        Some(scn) => page.put_phrase("open", &[cursor, table, scn]),
        None => page.put_phrase("open", &[cursor, table]),
    }
}

/// Puts what happened, as further fields.
fn put_what(page: &mut Page, what: &What) -> Result<(), NoMemory>
    requires { IsInside page.old }
    ensures { OnOk result (Adds page.old page.new (further (spec.what_fields what.now))) }
{
    match what {
        What::Create {
            name,
            schema,
            shape,
        } => put_create(page, name, schema, *shape),
        What::Add {
            table,
            column,
            default,
        } => put_add(page, *table, column, default),
        What::Memory { table, priority } => page.put_fields(&[
            Field::Word("memory"),
            Field::Number(u64::from(*table)),
            Field::Word(priority_word(*priority)),
        ]),
        What::Begin { mode } => page.put_fields(&[
            Field::Word("begin"),
            Field::Word(mode_word(*mode)),
        ]),
        What::Open {
            cursor,
            table,
            asked,
        } => put_open(page, *cursor, *table, *asked),
        What::Shut { cursor } => page.put_phrase("shut", &[u64::from(*cursor)]),
        What::Write { changes } => page.put_phrase("write", &[changes.len() as u64]),
        What::Commit => page.put_phrase("commit", &[]),
        What::Rollback => page.put_phrase("rollback", &[]),
        What::Build {
            id,
            table,
            extent,
            trickle,
        } => page.put_phrase("build", &[*id, u64::from(*table), *extent, flag(*trickle)]),
        What::Switch { id } => page.put_phrase("switch", &[*id]),
        What::Cancel { id, full } => page.put_phrase("cancel", &[*id, flag(*full)]),
        What::Trickle { n } => page.put_phrase("trickle", &[u64::from(*n)]),
        What::Evict { table, extent } => page.put_phrase("evict", &[u64::from(*table), *extent]),
        What::Leave => page.put_phrase("leave", &[]),
        What::Purge => page.put_phrase("purge", &[]),
    }
}

/// Puts values as further fields.
fn put_values(page: &mut Page, values: &[Value]) -> Result<(), NoMemory>
    requires { IsInside page.old }
    ensures { OnOk result (Adds page.old page.new (further (map spec.value_field values.now))) }
{
    for value in values {
        put_value(page, value)?;
    }
    Ok(())
}

/// Puts what a change does with its row, of which it leaves these values, as further fields.
fn put_row_change(page: &mut Page, row: Option<&[Value]>) -> Result<(), NoMemory>
    requires { IsInside page.old }
    ensures { OnOk result (Adds page.old page.new (further (spec.row_fields (option_copied row.entry)))) }
{
    match row {
        Some(values) => {
            page.put(b"put")?;
            put_values(page, values)
        }
        None => page.put(b"out"),
    }
}

/// Puts the record of a change of the entry at a place.
fn put_change(page: &mut Page, place: u64, change: LentChange<'_>) -> Result<(), NoMemory>
    requires { IsBetween page.old }
    ensures { OnOk result (Ends page.old page.new (record_text (spec.change_record place (lent_change change.entry)))) }
{
    page.begin_with("c")?;
    page.put_each_number(&[place, u64::from(change.table), change.rid])?;
    put_row_change(page, change.row)?;
    page.end()
}

/// Puts the records of the changes of the entry at a place.
fn put_changes(page: &mut Page, place: u64, changes: &Changes) -> Result<(), NoMemory>
    requires { IsBetween page.old }
    ensures { OnOk result (Ends page.old page.new (records_text (map (spec.change_record place) changes.now))) }
{
    for at in 0..changes.len() {
        put_change(page, place, changes.at(at))?;
    }
    Ok(())
}

/// Puts the records of what was written, where something was.
fn put_written(page: &mut Page, place: u64, what: &What) -> Result<(), NoMemory>
    requires { IsBetween page.old }
    ensures { OnOk result (Ends page.old page.new (records_text (map (spec.change_record place) (spec.changes_of what.now)))) }
{
    match what {
        What::Write { changes } => put_changes(page, place, changes),
        _ => Ok(()),
    }
}

/// Puts the record of who did what.
fn put_head(page: &mut Page, place: u64, entry: &Entry) -> Result<(), NoMemory>
    requires { IsBetween page.old }
    ensures { OnOk result (Ends page.old page.new (record_text (spec.head_record place entry.now))) }
{
    page.begin_with("h")?;
    page.put_each_number(&[place, u64::from(entry.who)])?;
    put_what(page, &entry.what)?;
    page.end()
}

/// Puts the entry at a place: who did what, and then each change.
pub fn put_entry(page: &mut Page, place: u64, entry: &Entry) -> Result<(), NoMemory>
    requires { IsBetween page.old }
    ensures { OnOk result (Ends page.old page.new (records_text (spec.entry_records place entry.now))) }
{
    put_head(page, place, entry)?;
    put_written(page, place, &entry.what)
}
