ghost use Rattle.std.specs.Prelude.{◌≡◌, ◌<◌};

use im_edge::{Gate, MemSink, MemSource, OpenGate};
use im_shell::{Status, Word, run};
use im_values::Steps;
use std::alloc::Global;
use std::marker::Brand;
use std::process::Abort;
use std::sync::Wait;
use std::sync::ledger::{Blank, Ledger};
use std::test::Fail;
use std::thread::Threads;

/// A script of two rows, which is played with faults.
const TWO_ROWS: &str =
    "1> CREATE TABLE T (K NUMBER)\n1> INSERT INTO T VALUES (10)\n1> INSERT INTO T VALUES (20)\n\
    1> COMMIT\n1> SELECT COUNT(*) FROM T";

const TWO_ROWS_TEXT: &str =
    "1,created,1,1\n2,inserted,1,0\n3,inserted,1,1\n4,committed,2\n5,answer,2,1\n5,row,2\n";

/// A script whose last line goes on with more rows, up to the most changes that a transaction may have and past them.
const CHANGES_BEFORE_THE_LIMIT: &str =
    "1> CREATE TABLE T (K NUMBER)\n1> INSERT INTO T VALUES (1), (2)\n1> INSERT INTO T VALUES (3)";

/// A comment of sixteen bytes.
const SIXTEEN: &str = "-- fifteen here\n";

/// A script, in which pieces it is read and written, which calls fail, and what comes of it.
#[derive(Clone, Copy)]
pub struct Case<'a> {
    script: &'a str,
    read_piece: usize,
    read_fails: u64,
    write_piece: usize,
    write_fails: u64,
    status: Status,
    text: &'a str,
}

/// A script that meets no fault.
pub fn plain<'a>(script: &'a str, text: &'a str) -> Case<'a> {
    Case {
        script,
        read_piece: 7,
        read_fails: 0,
        write_piece: 5,
        write_fails: 0,
        status: Status::Done,
        text,
    }
}

fn one_call(alloc: Global, number: u64) -> Result<Vec<u64>, Fail> {
    let mut calls = Vec::new(alloc);
    if number > 0 {
        calls.push(number)?;
    }
    Ok(calls)
}

fn words(alloc: Global, texts: &[&str]) -> Result<Vec<Word>, Fail> {
    let mut words = Vec::new(alloc);
    for text in texts {
        words.push(Word::of(String::from_str(alloc, text)?))?;
    }
    Ok(words)
}

/// Runs a case, and answers its status and the text that was taken.
fn outcome<R: Threads + Wait + Sync, G: Gate + Sync, L: Ledger>(
    rt: &R,
    alloc: Global,
    command: &[&str],
    case: &Case,
    gate: &G,
    blank: Blank,
) -> Result<(Status, Vec<u8>), Fail>
    requires name { blank.name ≡ L.name }
    requires parts { blank.parts ≡ L.parts }
    requires some { 0 < blank.parts }
    requires read { 0 < case.now.read_piece }
    requires write { 0 < case.now.write_piece }
{
    let script = Vec::from_slice(alloc, case.script.as_bytes())?;
    let mut source = MemSource::new(script, case.read_piece, one_call(alloc, case.read_fails)?);
    let mut sink = MemSink::new(alloc, case.write_piece, one_call(alloc, case.write_fails)?);
    sink.push_room(1 << 19)?;
    let words = words(alloc, command)?;
    let mut steps = Steps::<L>::new(rt, blank);
    let status = run(
        rt,
        alloc,
        words.as_slice(),
        &mut source,
        &mut sink,
        gate,
        &mut steps,
    );
    Ok((status, Vec::from_slice(alloc, sink.taken())?))
}

/// Runs a command on a case with a gate, and answers its status and the text that was taken.
pub fn played<R: Abort + Threads + Wait + Sync, G: Gate + Sync>(
    rt: &R,
    alloc: Global,
    command: &[&str],
    case: &Case,
    gate: &G,
) -> Result<(Status, Vec<u8>), Fail> {
    assert!(rt; case.read_piece > 0 && case.write_piece > 0);
    outcome::<R, G, Brand>(rt, alloc, command, case, gate, Blank::new(1))
}

/// Runs a command on a case, and compares its status and text.
fn check<R: Abort + Threads + Wait + Sync>(
    rt: &R,
    alloc: Global,
    command: &[&str],
    case: &Case,
) -> Result<(), Fail> {
    let (status, text) = played(rt, alloc, command, case, &OpenGate)?;
    assert_eq!(rt; status, case.status);
    assert_eq!(rt; text.as_slice(), case.text.as_bytes());
    Ok(())
}

/// A text followed by so many copies of a piece.
fn followed_by(alloc: Global, text: &str, piece: &str, count: usize) -> Result<String, Fail> {
    let mut text = String::from_str(alloc, text)?;
    for _ in 0..count {
        text.push_str(piece)?;
    }
    Ok(text)
}

/// A text and so many copies of a piece behind it, which make a script at a limit or past it, and what it comes to.
///
/// A line may have 1,048,576 bytes. A transaction may have 65,536 changes, and a refused statement keeps none.
const LIMITS: [(&str, &str, usize, &str); 4] = [
    ("--", "-", 1_048_575, "1,error,02,line-too-long,1048577\n"),
    ("--", "-", 1_048_574, ""),
    (
        CHANGES_BEFORE_THE_LIMIT,
        ", (0)",
        65_534,
        "1,created,1,1\n2,inserted,2,0\n3,error,17,too-many-changes,65535,65534\n",
    ),
    (
        CHANGES_BEFORE_THE_LIMIT,
        ", (0)",
        65_533,
        "1,created,1,1\n2,inserted,2,0\n3,inserted,65534,2\n",
    ),
];

#[test]
fn what_passes_a_limit_is_told_with_its_values(rt: HostRuntime) -> Result<(), Fail> {
    for (text, piece, count, replies) in LIMITS {
        let script = followed_by(rt.alloc(), text, piece, count)?;
        let case = Case {
            read_piece: 4096,
            ..plain(script.as_str(), replies)
        };
        check(&rt, rt.alloc(), &["ime", "run"], &case)?;
    }
    Ok(())
}

#[test]
fn a_script_that_is_too_long_is_not_played(rt: HostRuntime) -> Result<(), Fail> {
    let script = followed_by(rt.alloc(), "", SIXTEEN, 1_048_577)?;
    let case = Case {
        read_piece: 65_536,
        status: Status::ScriptTooLong,
        ..plain(script.as_str(), "")
    };
    check(&rt, rt.alloc(), &["ime", "run"], &case)
}

#[test]
fn a_fault_of_the_source_or_the_sink_ends_a_run(rt: HostRuntime) -> Result<(), Fail> {
    let cases = [
        plain(TWO_ROWS, TWO_ROWS_TEXT),
        Case {
            read_piece: 4,
            read_fails: 2,
            status: Status::ReadFault,
            ..plain(TWO_ROWS, "")
        },
        Case {
            write_fails: 3,
            status: Status::WriteFault,
            ..plain(TWO_ROWS, "1,created,")
        },
    ];
    for case in &cases {
        check(&rt, rt.alloc(), &["ime", "run"], case)?;
    }
    Ok(())
}

/// How many reads take the script of two rows in pieces of 7 bytes, with the one that finds its end, and how many writes its text in
/// pieces of 5.
const READS: u64 = 19;

const WRITES: u64 = 16;

#[test]
fn each_read_and_each_write_may_fail(rt: HostRuntime) -> Result<(), Fail> {
    for call in 1..READS + 1 {
        let case = Case {
            read_fails: call,
            status: Status::ReadFault,
            ..plain(TWO_ROWS, "")
        };
        check(&rt, rt.alloc(), &["ime", "run"], &case)?;
    }
    for call in 1..WRITES + 1 {
        let case = Case {
            write_fails: call,
            ..plain(TWO_ROWS, "")
        };
        let (status, text) = played(&rt, rt.alloc(), &["ime", "run"], &case, &OpenGate)?;
        assert_eq!(rt; status, Status::WriteFault);
        assert!(rt; text.len() as u64 == (call - 1) * 5);
        assert!(rt; TWO_ROWS_TEXT.as_bytes().starts_with(text.as_slice()));
    }
    let none_left = Case {
        read_fails: READS + 1,
        write_fails: WRITES + 1,
        ..plain(TWO_ROWS, TWO_ROWS_TEXT)
    };
    check(&rt, rt.alloc(), &["ime", "run"], &none_left)
}

#[test]
fn wrong_words_are_refused(rt: HostRuntime) -> Result<(), Fail> {
    let commands: [&[&str]; 6] = [
        &[],
        &["ime"],
        &["ime", "walk"],
        &["ime", "races"],
        &["ime", "run", "run"],
        &["ime", "run", "race"],
    ];
    for command in commands {
        let case = Case {
            status: Status::Usage,
            ..plain(TWO_ROWS, "")
        };
        check(&rt, rt.alloc(), command, &case)?;
    }
    Ok(())
}

/// Each way in which a run may end, with the exit status and what stands on standard error.
const ENDS: [(Status, u8, Option<&str>); 6] = [
    (Status::Done, 0, None),
    (
        Status::Usage,
        1,
        Some(
            "ime: usage: ime run|race|gen [--area N] [--workers N] [--turns N] [--rows N] [--seed N]",
        ),
    ),
    (Status::ReadFault, 2, Some("ime: read failed")),
    (Status::WriteFault, 3, Some("ime: write failed")),
    (Status::NoMemory, 4, Some("ime: no memory")),
    (Status::ScriptTooLong, 5, Some("ime: script too long")),
];

#[test]
fn each_end_has_an_exit_status_and_a_line(rt: HostRuntime) -> Result<(), Fail> {
    for (status, code, line) in ENDS {
        assert!(rt; status.code() == code && status.line() == line);
    }
    Ok(())
}
