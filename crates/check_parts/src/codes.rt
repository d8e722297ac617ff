ghost use Rattle.std.specs.Prelude.{◌≡◌, ◌^◌, ◌<◌, All, IfOk, length};
ghost use Rattle.std.specs.Bool.{OnTrue};

use crate::values::Cell::{Int, Null, Text};
use crate::values::{Cell, values_of};
use im_codes::{Coding, Dict, Runs, lend_values};
use im_values::{NoMemory, Value};
use std::alloc::Global;
use std::test::Fail;

const MIXED: [(Cell, u32); 7] = [
    (Int(30), 1),
    (Null, 1),
    (Int(10), 1),
    (Int(30), 1),
    (Text(b"b"), 1),
    (Text(b"a"), 1),
    (Text(b"b"), 1),
];

/// A dictionary, at the second try where memory runs out at the first.
fn dictionary(alloc: Global, values: &[Value]) -> Result<Dict, NoMemory>
    requires { length values.now < 2 ^ 31 }
{
    if let Ok(dict) = Dict::build(alloc, values) {
        return Ok(dict);
    }
    Dict::build(alloc, values)
}

/// Runs, at the second try likewise.
fn runs(alloc: Global, codes: &[u32]) -> Result<Runs, NoMemory>
    requires { length codes.now < 2 ^ 31 }
    ensures { IfOk result (λ runs. runs ≡ codes.now) }
{
    if let Ok(runs) = Runs::build(alloc, codes) {
        return Ok(runs);
    }
    Runs::build(alloc, codes)
}

/// Whether a dictionary of the mixed values numbers the distinct ones in their order.
fn is_in_order(dict: &Dict, values: &[Value]) -> bool {
    for (value, code) in values.iter().zip([2, 0, 1, 2, 4, 3, 4]) {
        if dict.code_of(value) != Some(code) {
            return false;
        }
    }
    for (number, code) in [(9, 1), (10, 1), (20, 2), (30, 2), (31, 3)] {
        if dict.lower(&Value::int(number)) != code {
            return false;
        }
    }
    dict.len() == 4 && dict.code_of(&Value::int(20)).is_none()
}

#[test]
fn a_dictionary_numbers_the_distinct_values_in_their_order(rt: HostRuntime) -> Result<(), Fail> {
    let values = values_of(rt.alloc(), &MIXED)?;
    assert!(rt; values.len() < 8);
    let dict = dictionary(rt.alloc(), values.as_slice())?;
    assert!(rt; is_in_order(&dict, values.as_slice()));
    Ok(())
}

/// Whether a dictionary has the code of NULL alone.
fn is_of_null_alone(dict: &Dict) -> bool {
    dict.is_empty()
        && dict.code_of(&Value::null()) == Some(0)
        && dict.code_of(&Value::int(0)).is_none()
        && dict.lower(&Value::int(0)) == 1
}

#[test]
fn a_dictionary_of_no_value_has_the_code_of_null_alone(rt: HostRuntime) -> Result<(), Fail> {
    let nulls = [Value::null(), Value::null()];
    for count in 0..3 {
        let dict = dictionary(rt.alloc(), &nulls[..count])?;
        assert!(rt; is_of_null_alone(&dict));
    }
    Ok(())
}

/// Whether runs have these codes and ends, and give back the codes that they were made of.
fn has_runs(runs: &Runs, codes: &[u32], expected: &[(u32, u32)]) -> bool
    requires { runs.now ≡ codes.now }
{
    if runs.runs().len() != expected.len() {
        return false;
    }
    for (run, (code, end)) in runs.runs().iter().zip(expected) {
        if run.code != *code || run.end != *end {
            return false;
        }
    }
    for i in 0..codes.len() {
        if runs.get(i as u64) != codes[i] {
            return false;
        }
    }
    true
}

#[test]
fn runs_are_as_long_as_they_can_be(rt: HostRuntime) -> Result<(), Fail> {
    let cases: [(&[u32], &[(u32, u32)]); 5] = [
        (&[], &[]),
        (&[7], &[(7, 1)]),
        (&[2, 0, 1, 2], &[(2, 1), (0, 2), (1, 3), (2, 4)]),
        (&[1, 1, 2, 2, 2, 1], &[(1, 2), (2, 5), (1, 6)]),
        (&[7; 100], &[(7, 100)]),
    ];
    for (codes, expected) in cases {
        assert!(rt; codes.len() < 101);
        let runs = runs(rt.alloc(), codes)?;
        assert!(rt; has_runs(&runs, codes, expected));
        assert!(rt; runs.codes(rt.alloc())?.as_slice() == codes);
    }
    Ok(())
}

/// Whether each place is before an end.
fn are_before(places: &[u32], end: usize) -> bool
    ensures { OnTrue result (All (λ place. place < end) places.now) }
{
    for place in places {
        if *place as usize >= end {
            return false;
        }
    }
    true
}

/// The codes at places of the codes of values, with those of fresh values behind them: none for a place that is not there.
fn picked(
    alloc: Global,
    values: &[&Value],
    fresh: &[&Value],
    places: &[u32],
) -> Result<Option<Vec<u32>>, NoMemory>
    requires { length values.now < 2 ^ 31 }
{
    let Coding { dict, codes } = Coding::of(alloc, values)?;
    if !are_before(places, codes.len() + fresh.len()) {
        return Ok(None);
    }
    dict.codes_picked(alloc, codes, fresh, places)
}

/// Whether these codes were picked, or none.
fn is_picked_as(picked: &Option<Vec<u32>>, wanted: Option<&[u32]>) -> bool {
    match (picked, wanted) {
        (Some(codes), Some(wanted)) => codes.as_slice() == wanted,
        (None, None) => true,
        _ => false,
    }
}

#[test]
fn a_dictionary_picks_codes_while_it_is_that_of_the_values(rt: HostRuntime) -> Result<(), Fail> {
    let values = values_of(
        rt.alloc(),
        &[(Int(20), 1), (Null, 1), (Int(10), 1), (Int(20), 1)],
    )?;
    let lent = lend_values(rt.alloc(), values.as_slice())?;
    assert!(rt; lent.len() < 8);
    let known = [&Value::int(10), &Value::null()];
    let cases: [(&[u32], Option<&[u32]>); 5] = [
        (&[0, 1, 2, 3], Some(&[2, 0, 1, 2])),
        (&[4, 0, 5], Some(&[1, 2, 0])),
        (&[2, 3], Some(&[1, 2])),
        (&[0, 1, 3], None),
        (&[], None),
    ];
    for (places, wanted) in cases {
        let codes = picked(rt.alloc(), lent.as_slice(), &known, places)?;
        assert!(rt; is_picked_as(&codes, wanted));
    }
    let codes = picked(rt.alloc(), lent.as_slice(), &[&Value::int(30)], &[0, 2])?;
    assert!(rt; codes.is_none());
    Ok(())
}
