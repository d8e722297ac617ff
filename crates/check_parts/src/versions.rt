ghost use Rattle.std.specs.Prelude.{◌≡◌, ◌<◌};

use im_values::{Row, Seen, Steps, Value};
use im_versions::Chain;
use std::alloc::Global;
use std::marker::Brand;
use std::sync::ledger::{Blank, Ledger};
use std::test::Fail;
use std::thread::Threads;

/// Puts a row of one number, or none, on top. It answers whether the SCN was later than the last.
fn put(alloc: Global, chain: &mut Chain, scn: u64, number: Option<i64>) -> Result<bool, Fail> {
    let row = match number {
        Some(number) => {
            let mut values = Vec::new(alloc);
            values.push(Value::int(number))?;
            Some(Row::of(values))
        }
        None => None,
    };
    chain.reserve()?;
    match chain.latest() {
        Some(last) if last >= scn => Ok(false),
        _ => {
            chain.push(scn, row);
            Ok(true)
        }
    }
}

/// The number of a row of one.
fn number(row: Option<&Row>) -> Option<i64> {
    match row?.values().first()?.seen() {
        Seen::Int(number) => Some(number),
        _ => None,
    }
}

/// Whether the chain has each of these rows at its SCN.
fn has_rows<R: Threads, L: Ledger>(
    rt: &R,
    blank: Blank,
    chain: &Chain,
    rows: &[(u64, Option<i64>)],
) -> bool
    requires name { blank.name ≡ L.name }
    requires parts { blank.parts ≡ L.parts }
    requires some { 0 < blank.parts }
{
    let mut steps = Steps::<L>::new(rt, blank);
    for (scn, row) in rows {
        if number(chain.at(*scn, &mut steps)) != *row {
            return false;
        }
    }
    true
}

/// Makes room for one version, at the second try where memory runs out at the first.
///
/// It answers whether the chain has these rows, and the same newest version, after the first try.
fn reserve_twice<R: Threads, L: Ledger>(
    rt: &R,
    blank: Blank,
    chain: &mut Chain,
    rows: &[(u64, Option<i64>)],
) -> Result<bool, Fail>
    requires name { blank.name ≡ L.name }
    requires parts { blank.parts ≡ L.parts }
    requires some { 0 < blank.parts }
{
    let latest = chain.latest();
    let lacks = chain.reserve().is_err();
    let is_as_before = chain.latest() == latest && has_rows::<R, L>(rt, blank, chain, rows);
    if lacks {
        chain.reserve()?;
    }
    Ok(is_as_before)
}

#[test]
fn a_chain_that_lacks_memory_for_a_version_has_the_rows_that_it_had(
    rt: HostRuntime,
) -> Result<(), Fail> {
    let alloc = rt.alloc();
    let mut chain = Chain::new(alloc);
    let mut rows = Vec::new(alloc);
    rows.push((0, None))?;
    for i in 1..20 {
        let row = if i % 3 == 0 { None } else { Some(i as i64) };
        assert!(rt;
            reserve_twice::<HostRuntime, Brand>(&rt, Blank::new(1), &mut chain, rows.as_slice())?
        );
        assert!(rt; put(alloc, &mut chain, 2 * i, row)?);
        rows.push((2 * i, row))?;
        rows.push((2 * i + 1, row))?;
    }
    assert!(rt; has_rows::<HostRuntime, Brand>(&rt, Blank::new(1), &chain, rows.as_slice()));
    Ok(())
}
