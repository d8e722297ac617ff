ghost use Rattle.std.specs.Prelude.{◌==◌, ◌||◌, if◌then◌else◌, Some, None};
ghost use Rattle.std.specs.Char.{is_ascii_digit};
ghost use Rattle.im_readers.specs.Reading.{one};

use im_readers::{Halt, Part, list, list_up_to};
use std::alloc::Global;
use std::test::Fail;

/// Digits with commas between them, as bytes.
struct Digits;

impl Part<u8> for Digits {
    type Value = u8;

    ghost marks = { λ b. b == 44 };

    ghost reads = { λ _. one (λ b. if is_ascii_digit b then Some b else None) };

    fn is_mark(&self, token: &u8) -> bool {
        *token == b','
    }

    fn read<'a>(&self, _alloc: Global, tokens: &'a [u8]) -> Result<(u8, &'a [u8]), Halt> {
        match tokens {
            [digit, rest @ ..] if digit.is_ascii_digit() => Ok((*digit, rest)),
            _ => Err(Halt::Left(tokens.len())),
        }
    }
}

/// How many values a list has, and how many tokens stand behind it.
fn lengths(found: Result<(Vec<u8>, &[u8]), Halt>) -> Option<(usize, usize)> {
    match found {
        Ok((values, rest)) => Some((values.len(), rest.len())),
        Err(_) => None,
    }
}

#[test]
fn a_list_ends_before_what_is_no_mark_and_stops_behind_one(rt: HostRuntime) -> Result<(), Fail> {
    let cases: [(&[u8], Option<(usize, usize)>); 4] = [
        (b"1,2;", Some((2, 1))),
        (b"1,2,3", Some((3, 0))),
        (b"1,", None),
        (b"", None),
    ];
    for (tokens, wanted) in cases {
        assert_eq!(rt; lengths(list(rt.alloc(), &Digits, tokens)), wanted);
    }
    Ok(())
}

#[test]
fn a_list_with_a_limit_leaves_what_is_past_it(rt: HostRuntime) -> Result<(), Fail> {
    let found = lengths(list_up_to(rt.alloc(), &Digits, 1, b"1,2,3"));
    assert_eq!(rt; found, Some((2, 2)));
    Ok(())
}
