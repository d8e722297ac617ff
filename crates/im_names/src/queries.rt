ghost use Rattle.std.specs.Prelude.{◌≡◌, ◌||◌, ℕ, List, length, map, None, IfOk, OnOk, IfErr};
ghost use Rattle.std.specs.List.{flat_map, list_any, range_with_len};
ghost use Rattle.im_syntax.specs.declared.item.ItemOf.{ItemOf as AnyItem};
ghost use Rattle.im_syntax.specs.declared.item.ItemOf.TheVariants as part;
ghost use Rattle.im_syntax.specs.Functions.{is_aggregate};
ghost use Rattle.im_syntax.specs.BoundQuery.{is_listed as listed};
ghost use Rattle.im_names.specs.Faults.{IsCause, Passes, first_fault};
ghost use Rattle.im_names.specs.Lookups.{number_of as number, unknown_fault};
ghost use Rattle.im_names.specs.Queries as spec;

use crate::columns::{check_all_known, check_known, number_of, width_of};
use crate::conditions::{bind_where, check_where};
use crate::fault::NameFault;
use crate::literals::check_summed;
use im_syntax::{Bound, Function, Item, ItemPart, Key, KeyPart, ListPart, Query, Way};
use im_values::{List, Name, NoMemory, Schema};
use std::alloc::Global;

/// A part of a query that has an item: the item itself, or a key.
trait HasItem {
    ghost own_item: { Self → AnyItem (List ℕ) };

    fn item(&self) -> &ItemPart
        ensures { result.now ≡ own_item self.now };
}

impl HasItem for ItemPart {
    ghost own_item = { λ item. item };

    fn item(&self) -> &ItemPart {
        self
    }
}

impl HasItem for KeyPart {
    ghost own_item = { spec.key_item };

    fn item(&self) -> &ItemPart {
        &self.item
    }
}

fn items_of(list: &ListPart) -> &[ItemPart]
    ensures { result.now ≡ spec.items_of list.now }
{
    match list {
        ListPart::Star => &[],
        ListPart::Items(items) => items.items(),
    }
}

// ---- names

fn check_item(alloc: Global, schema: &Schema, item: &ItemPart) -> Result<(), NameFault>
    ensures ok { OnOk result (unknown_fault schema.now (spec.item_names item.now) ≡ None) }
    ensures err { IfErr result (IsCause (unknown_fault schema.now (spec.item_names item.now))) }
{
    match item {
        ItemPart::CountAll => Ok(()),
        ItemPart::Column(name) | ItemPart::Aggregate(_, name) => check_known(alloc, schema, name),
    }
}

fn check_items<T: HasItem>(alloc: Global, schema: &Schema, parts: &[T]) -> Result<(), NameFault>
    ensures ok { OnOk result
        (unknown_fault schema.now (flat_map spec.item_names (map T.own_item parts.now)) ≡ None) }
    ensures err { IfErr result
        (IsCause (unknown_fault schema.now (flat_map spec.item_names (map T.own_item parts.now)))) }
{
    for part in parts {
        check_item(alloc, schema, part.item())?;
    }
    Ok(())
}

// ---- items and keys

/// A function that goes over the values of a column.
fn check_function(
    alloc: Global,
    schema: &Schema,
    function: Function,
    number: u32,
) -> Result<(), NameFault>
    ensures ok { OnOk result (spec.function_fault schema.now function number ≡ None) }
    ensures err { IfErr result (IsCause (spec.function_fault schema.now function number)) }
{
    if !function.adds() {
        return Ok(());
    }
    match schema.columns().get(number as usize) {
        Some(column) => check_summed(alloc, column),
        None => Ok(()),
    }
}

fn bind_aggregate(
    alloc: Global,
    schema: &Schema,
    function: Function,
    name: &Name,
) -> Result<Item, NameFault>
    ensures ok { IfOk result (λ x. Passes
        (spec.item_fault schema.now (part.Aggregate function name.now))
        (x ≡ spec.item_of schema.now (part.Aggregate function name.now))) }
    ensures err { IfErr result (IsCause (spec.item_fault schema.now (part.Aggregate function name.now))) }
{
    let number = number_of(schema, name);
    check_function(alloc, schema, function, number)?;
    Ok(Item::Aggregate(function, number))
}

fn bind_item(alloc: Global, schema: &Schema, item: &ItemPart) -> Result<Item, NameFault>
    ensures ok { IfOk result (λ x. Passes
        (spec.item_fault schema.now item.now)
        (x ≡ spec.item_of schema.now item.now)) }
    ensures err { IfErr result (IsCause (spec.item_fault schema.now item.now)) }
{
    match item {
        ItemPart::CountAll => Ok(Item::CountAll),
        ItemPart::Column(name) => Ok(Item::Column(number_of(schema, name))),
        ItemPart::Aggregate(function, name) => bind_aggregate(alloc, schema, *function, name),
    }
}

fn bind_items(alloc: Global, schema: &Schema, items: &[ItemPart]) -> Result<List<Item>, NameFault>
    ensures ok { IfOk result (λ xs. Passes
        (first_fault (map (spec.item_fault schema.now) items.now))
        (xs ≡ map (spec.item_of schema.now) items.now)) }
    ensures err { IfErr result (IsCause (first_fault (map (spec.item_fault schema.now) items.now))) }
{
    let mut bound = Vec::with_capacity(alloc, items.len())?;
    for item in items {
        bound.push(bind_item(alloc, schema, item)?)?;
    }
    Ok(List::of(bound))
}

fn all_columns(alloc: Global, width: u32) -> Result<List<Item>, NoMemory>
    ensures { IfOk result (λ xs. xs ≡ map part.Column (range_with_len 0 width)) }
{
    let mut items = Vec::with_capacity(alloc, width as usize)?;
    for number in 0..width {
        items.push(Item::Column(number))?;
    }
    Ok(List::of(items))
}

fn bind_list(alloc: Global, schema: &Schema, list: &ListPart) -> Result<List<Item>, NameFault>
    ensures ok { IfOk result (λ xs. Passes
        (first_fault (map (spec.item_fault schema.now) (spec.items_of list.now)))
        (xs ≡ spec.list_of schema.now list.now)) }
    ensures err { IfErr result (IsCause (first_fault (map (spec.item_fault schema.now) (spec.items_of list.now)))) }
{
    match list {
        ListPart::Star => Ok(all_columns(alloc, width_of(schema))?),
        ListPart::Items(items) => bind_items(alloc, schema, items.items()),
    }
}

fn is_descending(way: Way) -> bool
    ensures { result ≡ spec.is_descending way }
{
    matches!(way, Way::Desc)
}

fn bind_key(alloc: Global, schema: &Schema, key: &KeyPart) -> Result<Key, NameFault>
    ensures ok { IfOk result (λ x. Passes
        (spec.item_fault schema.now (spec.key_item key.now))
        (x ≡ spec.key_of schema.now key.now)) }
    ensures err { IfErr result (IsCause (spec.item_fault schema.now (spec.key_item key.now))) }
{
    Ok(Key {
        item: bind_item(alloc, schema, &key.item)?,
        descending: is_descending(key.way),
    })
}

fn bind_keys(alloc: Global, schema: &Schema, keys: &[KeyPart]) -> Result<List<Key>, NameFault>
    ensures ok { IfOk result (λ xs. Passes
        (first_fault (map (spec.item_fault schema.now) (map spec.key_item keys.now)))
        (xs ≡ map (spec.key_of schema.now) keys.now)) }
    ensures err { IfErr result
        (IsCause (first_fault (map (spec.item_fault schema.now) (map spec.key_item keys.now)))) }
{
    let mut bound = Vec::with_capacity(alloc, keys.len())?;
    for key in keys {
        bound.push(bind_key(alloc, schema, key)?)?;
    }
    Ok(List::of(bound))
}

fn bind_groups(alloc: Global, schema: &Schema, groups: &[Name]) -> Result<List<u32>, NoMemory>
    ensures { IfOk result (λ xs. xs ≡ map (number schema.now) groups.now) }
{
    let mut bound = Vec::with_capacity(alloc, groups.len())?;
    for name in groups {
        bound.push(number_of(schema, name))?;
    }
    Ok(List::of(bound))
}

// ---- grouping

fn has_aggregate<T: HasItem>(parts: &[T]) -> bool
    ensures { result ≡ list_any is_aggregate (map T.own_item parts.now) }
{
    for part in parts {
        if part.item().is_aggregate() {
            return true;
        }
    }
    false
}

fn is_grouped(query: &Query) -> bool
    ensures { result ≡ spec.is_grouped query.now }
{
    !query.groups.items().is_empty()
        || has_aggregate(items_of(&query.list))
        || has_aggregate(query.keys.items())
}

fn is_listed(numbers: &[u32], number: u32) -> bool
    ensures { result ≡ listed numbers.now number }
{
    numbers.contains(&number)
}

/// For each column of the table, whether it is among these.
fn marks_of(alloc: Global, width: u32, groups: &[u32]) -> Result<Vec<bool>, NoMemory>
    ensures { IfOk result (λ marks. marks.items ≡ map (listed groups.now) (range_with_len 0 width)) }
{
    let mut marks = Vec::with_capacity(alloc, width as usize)?;
    for column in 0..width {
        marks.push(is_listed(groups, column))?;
    }
    Ok(marks)
}

/// A column that is marked.
fn check_marked(
    alloc: Global,
    schema: &Schema,
    marks: &[bool],
    name: &Name,
) -> Result<(), NameFault>
    ensures ok { OnOk result (spec.marked_fault schema.now marks.now (part.Column name.now) ≡ None) }
    ensures err { IfErr result (IsCause (spec.marked_fault schema.now marks.now (part.Column name.now))) }
{
    match marks.get(number_of(schema, name) as usize) {
        Some(true) => Ok(()),
        _ => Err(NameFault::NotGrouped {
            column: Some(name.copy(alloc)?),
        }),
    }
}

/// An item that is an aggregate, or a column that is marked.
fn check_lone(
    alloc: Global,
    schema: &Schema,
    marks: &[bool],
    item: &ItemPart,
) -> Result<(), NameFault>
    ensures ok { OnOk result (spec.marked_fault schema.now marks.now item.now ≡ None) }
    ensures err { IfErr result (IsCause (spec.marked_fault schema.now marks.now item.now)) }
{
    match item {
        ItemPart::Column(name) => check_marked(alloc, schema, marks, name),
        _ => Ok(()),
    }
}

fn check_lones<T: HasItem>(
    alloc: Global,
    schema: &Schema,
    marks: &[bool],
    parts: &[T],
) -> Result<(), NameFault>
    ensures ok { OnOk result
        (first_fault (map (spec.marked_fault schema.now marks.now) (map T.own_item parts.now)) ≡ None) }
    ensures err { IfErr result
        (IsCause (first_fault (map (spec.marked_fault schema.now marks.now) (map T.own_item parts.now)))) }
{
    for part in parts {
        check_lone(alloc, schema, marks, part.item())?;
    }
    Ok(())
}

fn check_star(list: &ListPart) -> Result<(), NameFault>
    ensures ok { OnOk result (spec.star_fault list.now ≡ None) }
    ensures err { IfErr result (IsCause (spec.star_fault list.now)) }
{
    match list {
        ListPart::Star => Err(NameFault::NotGrouped { column: None }),
        ListPart::Items(_) => Ok(()),
    }
}

/// A list of items, and keys, in which each column that stands alone is marked.
fn check_marks(
    alloc: Global,
    schema: &Schema,
    marks: &[bool],
    query: &Query,
) -> Result<(), NameFault>
    ensures ok { OnOk result (spec.marked_faults schema.now marks.now query.now ≡ None) }
    ensures err { IfErr result (IsCause (spec.marked_faults schema.now marks.now query.now)) }
{
    check_star(&query.list)?;
    check_lones(alloc, schema, marks, items_of(&query.list))?;
    check_lones(alloc, schema, marks, query.keys.items())
}

/// A list and keys that may stand in a query that is grouped by these columns.
fn check_grouped(
    alloc: Global,
    schema: &Schema,
    query: &Query,
    groups: &[u32],
) -> Result<(), NameFault>
    requires { groups.now ≡ map (number schema.now) query.now.groups }
    ensures ok { OnOk result (spec.lone_faults schema.now query.now ≡ None) }
    ensures err { IfErr result (IsCause (spec.lone_faults schema.now query.now)) }
{
    let marks = marks_of(alloc, width_of(schema), groups)?;
    check_marks(alloc, schema, &marks, query)
}

/// A query that is not grouped, or may be grouped by these columns.
fn check_grouping(
    alloc: Global,
    schema: &Schema,
    query: &Query,
    groups: &[u32],
) -> Result<(), NameFault>
    requires { groups.now ≡ map (number schema.now) query.now.groups }
    ensures ok { OnOk result (spec.grouped_fault schema.now query.now ≡ None) }
    ensures err { IfErr result (IsCause (spec.grouped_fault schema.now query.now)) }
{
    if is_grouped(query) {
        check_grouped(alloc, schema, query, groups)
    } else {
        Ok(())
    }
}

// ---- queries

/// A query whose names the table has columns of.
fn check_names(alloc: Global, schema: &Schema, query: &Query) -> Result<(), NameFault>
    ensures ok { OnOk result (spec.names_fault schema.now query.now ≡ None) }
    ensures err { IfErr result (IsCause (spec.names_fault schema.now query.now)) }
{
    check_items(alloc, schema, items_of(&query.list))?;
    check_where(alloc, schema, &query.cond)?;
    check_all_known(alloc, schema, query.groups.items())?;
    check_items(alloc, schema, query.keys.items())
}

/// The bound form of a query whose names were checked.
fn bind_parts(alloc: Global, table: u32, schema: &Schema, query: &Query) -> Result<Bound, NameFault>
    ensures ok { IfOk result (λ bound. Passes
        (spec.kinds_fault schema.now query.now)
        (bound ≡ spec.bound_of table schema.now query.now)) }
    ensures err { IfErr result (IsCause (spec.kinds_fault schema.now query.now)) }
{
    let items = bind_list(alloc, schema, &query.list)?;
    let filter = bind_where(alloc, schema, &query.cond)?;
    let keys = bind_keys(alloc, schema, query.keys.items())?;
    Ok(Bound {
        table,
        asked: query.asked,
        filter,
        items,
        groups: bind_groups(alloc, schema, query.groups.items())?,
        keys,
        grouped: is_grouped(query),
    })
}

/// The bound form of a query on the table of this number.
pub fn bind_query(
    alloc: Global,
    table: u32,
    schema: &Schema,
    query: &Query,
) -> Result<Bound, NameFault>
    ensures ok { IfOk result (λ bound. Passes
        (spec.query_fault schema.now query.now)
        (bound ≡ spec.bound_of table schema.now query.now)) }
    ensures err { IfErr result (IsCause (spec.query_fault schema.now query.now)) }
{
    check_names(alloc, schema, query)?;
    let bound = bind_parts(alloc, table, schema, query)?;
    check_grouping(alloc, schema, query, bound.groups.items())?;
    Ok(bound)
}
