ghost use Rattle.std.specs.Prelude.{◌≡◌, ◌≤◌, ◌+◌, ◌*◌, ◌^◌, ◌++◌, ◌%◌, IfOk, OnOk, length, min};
ghost use Rattle.im_values.specs.declared.limits.TheConstants.{MOST_SCRIPT_BYTES};
ghost use Rattle.im_script.specs.declared.generated.TheConstants as sizes;
ghost use Rattle.im_script.specs.Generated as spec;
ghost use Rattle.im_script.specs.inner.Putting as inner;

use im_values::NoMemory;
use itoa::Buffer;
use std::alloc::Global;

/// How many orders an INSERT has, but for the last one, which has what is left.
const PER_INSERT: u64 = 100;

/// How many orders are committed at once: those of 500 INSERTs.
const PER_COMMIT: u64 = 50_000;

/// Room for the row of an order and its part of the lines around it.
const ROW_ROOM: usize = 29;

/// Room for the lines around the orders.
const LINES_ROOM: usize = 1024;

const OPENING: &str =
    "1> CREATE TABLE ORDERS (ID NUMBER, REGION VARCHAR2(8), AMOUNT NUMBER) INMEMORY PRIORITY HIGH\n";

const CLOSING: &str = "bg> RUN\n\
1> SELECT COUNT(*), SUM(AMOUNT) FROM ORDERS\n\
1> SELECT REGION, COUNT(*), SUM(AMOUNT), MIN(AMOUNT), MAX(AMOUNT) FROM ORDERS GROUP BY REGION\n\
1> UPDATE ORDERS SET AMOUNT = 1000 WHERE AMOUNT < 100\n\
1> COMMIT\n\
1> SELECT COUNT(*), SUM(AMOUNT) FROM ORDERS\n\
bg> TRICKLE 1000000\n\
bg> RUN\n\
1> SELECT REGION, SUM(AMOUNT) FROM ORDERS GROUP BY REGION ORDER BY SUM(AMOUNT) DESC\n";

/// A law, for contracts alone: an INSERT of a generated script has at most 100 orders, and a COMMIT comes behind each 50,000.
pub fn generated_sizes_are()
    ensures insert { sizes.PER_INSERT ≡ 100 }
    ensures commit { sizes.PER_COMMIT ≡ 50000 }
{}

/// What stands between the number and the amount of an order: its region.
fn between(order: u64) -> &'static [u8]
    ensures { result.now ≡ inner.between order }
{
    match order % 4 {
        0 => b", 'NORTH', ",
        1 => b", 'EAST', ",
        2 => b", 'SOUTH', ",
        _ => b", 'WEST', ",
    }
}

/// Puts the row of an order, but for the bracket before it.
fn put_behind_bracket(script: &mut Vec<u8>, seed: u32, order: u64) -> Result<(), NoMemory>
    requires { order ≤ 2 ^ 32 }
    ensures { OnOk result (script.new.items ≡ script.old.items ++ inner.order_rest seed order) }
{
    let mut digits = Buffer::new();
    let amount = (37 * order + u64::from(seed)) % 1000;
    script.extend_from_slice(digits.format(order).as_bytes())?;
    script.extend_from_slice(between(order))?;
    script.extend_from_slice(digits.format(amount).as_bytes())?;
    script.push(b')')?;
    Ok(())
}

/// Puts the row of an order.
fn put_order(script: &mut Vec<u8>, seed: u32, order: u64) -> Result<(), NoMemory>
    requires { order ≤ 2 ^ 32 }
    ensures { OnOk result (script.new.items ≡ script.old.items ++ spec.order_row seed order) }
{
    script.push(b'(')?;
    put_behind_bracket(script, seed, order)
}

/// Puts the row of an order behind another one.
fn put_further(script: &mut Vec<u8>, seed: u32, order: u64) -> Result<(), NoMemory>
    requires { order ≤ 2 ^ 32 }
    ensures { OnOk result (script.new.items ≡ script.old.items ++ inner.further_row seed order) }
{
    script.extend_from_slice(b", (")?;
    put_behind_bracket(script, seed, order)
}

/// Puts the rows of so many orders behind another one.
fn put_further_rows(script: &mut Vec<u8>, seed: u32, first: u64, count: u64) -> Result<(), NoMemory>
    requires { first + count ≤ 2 ^ 32 + 1 }
    ensures { OnOk result (script.new.items ≡ script.old.items ++ inner.further_rows seed first count) }
{
    for place in 0..count {
        put_further(script, seed, first + place)?;
    }
    Ok(())
}

/// Puts the line that inserts so many orders.
fn put_insert(script: &mut Vec<u8>, seed: u32, first: u64, count: u64) -> Result<(), NoMemory>
    requires some { 1 ≤ count }
    requires numbers { first + count ≤ 2 ^ 32 + 1 }
    ensures { OnOk result (script.new.items ≡ script.old.items ++ inner.insert_text seed first count) }
{
    script.extend_from_slice(b"1> INSERT INTO ORDERS VALUES ")?;
    put_order(script, seed, first)?;
    put_further_rows(script, seed, first + 1, count - 1)?;
    script.push(b'\n')?;
    Ok(())
}

/// How many of those that are left come next, of which there may be so many.
fn next_of(left: u64, most: u64) -> u64
    ensures { result ≡ min left most }
{
    if left < most { left } else { most }
}

/// Puts the lines that insert so many orders.
fn put_inserts(script: &mut Vec<u8>, seed: u32, first: u64, count: u64) -> Result<(), NoMemory>
    requires { first + count ≤ 2 ^ 32 + 1 }
    ensures { OnOk result (script.new.items ≡ script.old.items ++ inner.inserts_text seed first count) }
{
    let mut next = first;
    let mut left = count;
    while left > 0 {
        let orders = next_of(left, PER_INSERT);
        put_insert(script, seed, next, orders)?;
        next += orders;
        left -= orders;
    }
    Ok(())
}

/// Puts the lines that insert so many orders and commit them.
fn put_transaction(script: &mut Vec<u8>, seed: u32, first: u64, count: u64) -> Result<(), NoMemory>
    requires { first + count ≤ 2 ^ 32 + 1 }
    ensures { OnOk result (script.new.items ≡ script.old.items ++ inner.transaction_text seed first count) }
{
    put_inserts(script, seed, first, count)?;
    script.extend_from_slice(b"1> COMMIT\n")?;
    Ok(())
}

/// Puts the lines that insert and commit all orders.
fn put_orders(script: &mut Vec<u8>, seed: u32, rows: u32) -> Result<(), NoMemory>
    ensures { OnOk result (script.new.items ≡ script.old.items ++ inner.orders_text seed 1 rows) }
{
    let mut next = 1;
    let mut left = u64::from(rows);
    while left > 0 {
        let orders = next_of(left, PER_COMMIT);
        put_transaction(script, seed, next, orders)?;
        next += orders;
        left -= orders;
    }
    Ok(())
}

/// The script of a table of so many orders, whose amounts go by the seed: they are inserted by 100 and committed by 50,000, then
/// read and changed, with units built in between. A script of 500,000 orders has some 12,000,000 bytes, and a transaction of it
/// 50,000 changes. Its room is taken once.
pub fn generate(alloc: Global, seed: u32, rows: u32) -> Result<Vec<u8>, NoMemory>
    ensures script { IfOk result (λ script. script.items ≡ spec.generated seed rows) }
    ensures within { rows ≤ 500000 → IfOk result (λ script. length script.items ≤ MOST_SCRIPT_BYTES) }
{
    let room = rows as usize * ROW_ROOM + LINES_ROOM;
    let mut script = Vec::with_capacity(alloc, room)?;
    script.extend_from_slice(OPENING.as_bytes())?;
    put_orders(&mut script, seed, rows)?;
    script.extend_from_slice(CLOSING.as_bytes())?;
    Ok(script)
}
