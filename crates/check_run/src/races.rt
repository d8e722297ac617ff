use crate::gates::MeetingGate;
use crate::reader::{Race, read_report};
use crate::shell::{plain, played};
use im_edge::{Gate, OpenGate};
use im_shell::Status;
use std::alloc::Global;
use std::process::Abort;
use std::str;
use std::sync::Wait;
use std::test::Fail;
use std::thread::Threads;

/// Two sessions race beside workers, over a table of one extent.
pub const WORKED: &str = "1> CREATE TABLE T (K NUMBER) BLOCK 2 EXTENT 2 INMEMORY PRIORITY HIGH\n\
    1> INSERT INTO T VALUES (10), (20), (30), (50)\n1> COMMIT\nrace>\n\
    1> UPDATE T SET K = 11 WHERE K = 10\n1> COMMIT\n2> SELECT SUM(K) FROM T";

/// Each line behind the prelude is refused.
const REFUSED: &str =
    "1> CREATE TABLE T (K NUMBER)\nrace>\n2> SELEC\n2> SELECT K FROM U\n  bg> RUN\n3> garbage";

/// A session steps through a table of two extents, beside a worker that builds them.
pub const STEPPED: &str = "1> CREATE TABLE T (K NUMBER) BLOCK 2 EXTENT 2 INMEMORY PRIORITY HIGH\n\
    1> INSERT INTO T VALUES (1), (2), (3), (4), (5), (6)\n1> COMMIT\nrace>\n\
    1> OPEN 1 FOR SELECT SUM(K) FROM T\n1> STEP 1\n1> STEP 1\n1> FETCH 1";

/// A session reads a table, and another one commits a row and reads it then, beside a worker that builds its units.
const COMMIT_FIRST: &str = "1> CREATE TABLE T (K NUMBER) BLOCK 2 EXTENT 2 INMEMORY PRIORITY HIGH\n\
    1> INSERT INTO T VALUES (1), (2), (3)\n1> COMMIT\nrace>\n\
    1> SELECT SUM(K) FROM T\n2> INSERT INTO T VALUES (4)\n2> COMMIT\n2> SELECT COUNT(*) FROM T";

/// The same, but that the other one reads before it commits.
const COMMIT_LAST: &str = "1> CREATE TABLE T (K NUMBER) BLOCK 2 EXTENT 2 INMEMORY PRIORITY HIGH\n\
    1> INSERT INTO T VALUES (1), (2), (3)\n1> COMMIT\nrace>\n\
    1> SELECT SUM(K) FROM T\n2> SELECT COUNT(*) FROM T\n2> INSERT INTO T VALUES (4)\n2> COMMIT";

/// Two sessions have a table each, and both create one that they share, so one is refused.
const SHARED: &str = "race>\n\
    1> CREATE TABLE A (K NUMBER)\n1> CREATE TABLE S (K NUMBER)\n1> INSERT INTO A VALUES (1), (2)\n\
    1> INSERT INTO S VALUES (11)\n1> COMMIT\n1> UPDATE A SET K = 3 WHERE K = 1\n1> COMMIT\n\
    1> SELECT COUNT(*) FROM S\n\
    2> CREATE TABLE B (K NUMBER)\n2> CREATE TABLE S (K NUMBER)\n2> INSERT INTO S VALUES (21), (22)\n\
    2> INSERT INTO B VALUES (5)\n2> COMMIT\n2> DELETE FROM B WHERE K = 5\n2> ROLLBACK\n\
    2> SELECT COUNT(*) FROM S";

/// Two sessions read at an SCN that they ask for, while one of them writes; below the horizon the other one is refused.
pub const OLDER: &str = "1> CREATE TABLE T (K NUMBER) BLOCK 2 EXTENT 2 INMEMORY PRIORITY HIGH\n\
    1> INSERT INTO T VALUES (1), (2), (3)\n1> COMMIT\n1> INSERT INTO T VALUES (4)\n1> COMMIT\nbg> PURGE\nrace>\n\
    1> UPDATE T SET K = 11 WHERE K = 1\n1> SELECT SUM(K) FROM T AS OF SCN 3\n1> COMMIT\n1> SELECT SUM(K) FROM T\n\
    2> OPEN 1 FOR SELECT SUM(K) FROM T AS OF SCN 3\n2> STEP 1\n2> FETCH 1\n2> SELECT SUM(K) FROM T AS OF SCN 2";

/// How often each of eight sessions commits.
const COMMITS: usize = 1000;

/// The report of a race that is played whole.
fn report_of<R: Abort + Threads + Wait + Sync, G: Gate + Sync>(
    rt: &R,
    alloc: Global,
    command: &[&str],
    script: &str,
    gate: &G,
) -> Result<Vec<u8>, Fail> {
    let (status, report) = played(rt, alloc, command, &plain(script, ""), gate)?;
    assert_eq!(rt; status, Status::Done);
    Ok(report)
}

/// The text of a report.
fn text_of(report: &[u8]) -> &str {
    str::from_utf8(report).unwrap_or("")
}

#[test]
fn the_worked_race_is_lawful(rt: HostRuntime) -> Result<(), Fail> {
    for (count, workers) in [("1", 1), ("2", 2), ("8", 8)] {
        let words = ["ime", "race", "--workers", count];
        let report = report_of(&rt, rt.alloc(), &words, WORKED, &OpenGate)?;
        let race = Race {
            script: WORKED,
            prelude: 4,
            workers,
        };
        assert_eq!(rt; read_report(rt.alloc(), &race, report.as_slice()), Ok(()));
        let text = text_of(report.as_slice());
        assert!(rt; text.ends_with("7,row,110\n") || text.ends_with("7,row,111\n"));
    }
    Ok(())
}

#[test]
fn a_session_whose_lines_are_refused_leaves(rt: HostRuntime) -> Result<(), Fail> {
    let words = ["ime", "race", "--workers", "1"];
    let report = report_of(&rt, rt.alloc(), &words, REFUSED, &OpenGate)?;
    let race = Race {
        script: REFUSED,
        prelude: 1,
        workers: 1,
    };
    assert_eq!(rt; read_report(rt.alloc(), &race, report.as_slice()), Ok(()));
    let text = text_of(report.as_slice());
    assert!(rt; text.contains(",2,leave\n") && text.contains(",3,leave\n"));
    assert!(rt; text.contains("\n5,error,01,syntax,3\n6,error,01,syntax,4\n"));
    Ok(())
}

#[test]
fn two_sessions_share_a_table(rt: HostRuntime) -> Result<(), Fail> {
    let words = ["ime", "race", "--workers", "1"];
    let report = report_of(&rt, rt.alloc(), &words, SHARED, &OpenGate)?;
    let race = Race {
        script: SHARED,
        prelude: 0,
        workers: 1,
    };
    assert_eq!(rt; read_report(rt.alloc(), &race, report.as_slice()), Ok(()));
    let text = text_of(report.as_slice());
    assert_eq!(rt;
        text.lines().filter(|line| line.contains(",error,")).count(),
        1
    );
    Ok(())
}

#[test]
fn sessions_read_at_an_older_scn(rt: HostRuntime) -> Result<(), Fail> {
    let words = ["ime", "race", "--workers", "1"];
    let report = report_of(&rt, rt.alloc(), &words, OLDER, &OpenGate)?;
    let race = Race {
        script: OLDER,
        prelude: 7,
        workers: 1,
    };
    assert_eq!(rt; read_report(rt.alloc(), &race, report.as_slice()), Ok(()));
    let text = text_of(report.as_slice());
    assert!(rt; text.contains("\n6,purged,3,4\n") && text.contains("\n9,answer,3,1\n9,row,10\n"));
    assert!(rt; text.contains("\n14,answer,3,1\n14,row,10\n"));
    assert!(rt; text.ends_with("\n15,error,20,snapshot-too-old,2,3\n"));
    Ok(())
}

#[test]
fn eight_sessions_commit_and_each_commit_is_there(rt: HostRuntime) -> Result<(), Fail> {
    let mut script = String::from_str(rt.alloc(), "race>\n")?;
    for _ in 0..COMMITS {
        script.push_str("1> COMMIT\n2> COMMIT\n3> COMMIT\n4> COMMIT\n")?;
        script.push_str("5> COMMIT\n6> COMMIT\n7> COMMIT\n8> COMMIT\n")?;
    }
    let words = ["ime", "race", "--workers", "1"];
    let report = report_of(&rt, rt.alloc(), &words, script.as_str(), &OpenGate)?;
    let text = text_of(report.as_slice());
    assert!(rt; text.starts_with("history,8008\n"));
    assert_eq!(rt;
        text.lines()
            .filter(|line| line.ends_with(",commit"))
            .count(),
        8 * COMMITS
    );
    assert_eq!(rt;
        text.lines().filter(|line| line.ends_with(",leave")).count(),
        8
    );
    assert!(rt; text.contains(",committed,8000\n"));
    Ok(())
}

/// A field, from 0, of the first line of a report that has a word, as the place that it is.
fn place_in(text: &str, word: &str, field: usize) -> Option<u64> {
    let line = text.lines().find(|line| line.contains(word))?;
    line.split(',').nth(field)?.parse::<u64>().ok()
}

/// Whether the second step came behind the first switch.
fn steps_late(text: &str) -> Option<bool> {
    let step = place_in(text, "mark,7,", 2)?;
    let switch = place_in(text, ",17,switch,", 1)?;
    Some(switch < step)
}

/// The report of the race of a session that steps under a gate.
fn stepped<R: Abort + Threads + Wait + Sync>(
    rt: &R,
    alloc: Global,
    gate: &MeetingGate,
) -> Result<Vec<u8>, Fail> {
    let words = ["ime", "race", "--workers", "1", "--turns", "1000000"];
    let report = report_of(rt, alloc, &words, STEPPED, gate)?;
    let race = Race {
        script: STEPPED,
        prelude: 4,
        workers: 1,
    };
    assert_eq!(rt; read_report(alloc, &race, report.as_slice()), Ok(()));
    assert!(rt; !gate.gave_up());
    let text = text_of(report.as_slice());
    assert!(rt; text.contains("\nworker,17,over,"));
    assert!(rt; text.ends_with("\n8,answer,2,1\n8,row,21\n"));
    Ok(report)
}

#[test]
fn a_step_waits_for_a_switch(rt: HostRuntime) -> Result<(), Fail> {
    let gate = MeetingGate::new((1, 2), (17, 1), 10_000_000);
    let report = stepped(&rt, rt.alloc(), &gate)?;
    assert_eq!(rt; steps_late(text_of(report.as_slice())), Some(true));
    Ok(())
}

#[test]
fn a_switch_waits_for_a_step(rt: HostRuntime) -> Result<(), Fail> {
    let gate = MeetingGate::new((17, 1), (1, 2), 10_000_000);
    let report = stepped(&rt, rt.alloc(), &gate)?;
    let text = text_of(report.as_slice());
    assert_eq!(rt; steps_late(text), Some(false));
    assert!(rt; text.contains("\n6,served,0,blocks\n") && text.contains("\n7,served,1,blocks\n"));
    Ok(())
}

/// What a gate may put in an order: a step of session 1, the commit of session 2, and the first switch of the worker.
#[derive(Clone, Copy)]
enum Event {
    Step,
    Commit,
    Switch,
}

impl Event {
    /// When it came: an entry comes behind those before it, and a step behind the entries that it saw.
    fn instant(self, text: &str) -> Option<u64> {
        let (word, field, behind) = match self {
            Event::Step => ("mark,5,", 2, 0),
            Event::Commit => (",2,commit", 1, 1),
            Event::Switch => (",17,switch,", 1, 1),
        };
        let place = place_in(text, word, field)?;
        Some(place.saturating_mul(2).saturating_add(behind))
    }
}

/// An order that a gate forces: the script, the step that is held up, the one until which it is, and what then comes first and last.
type Order = (&'static str, (u32, u32), (u32, u32), Event, Event);

const ORDERS: [Order; 4] = [
    (COMMIT_FIRST, (1, 1), (2, 1), Event::Commit, Event::Step),
    (COMMIT_LAST, (2, 1), (1, 1), Event::Step, Event::Commit),
    (COMMIT_FIRST, (17, 1), (2, 1), Event::Commit, Event::Switch),
    (COMMIT_LAST, (2, 1), (17, 1), Event::Switch, Event::Commit),
];

#[test]
fn a_step_a_commit_and_a_switch_wait_for_each_other(rt: HostRuntime) -> Result<(), Fail> {
    let words = ["ime", "race", "--workers", "1", "--turns", "1000000"];
    for (script, held, until, first, last) in ORDERS {
        let gate = MeetingGate::new(held, until, 10_000_000);
        let report = report_of(&rt, rt.alloc(), &words, script, &gate)?;
        let race = Race {
            script,
            prelude: 4,
            workers: 1,
        };
        assert_eq!(rt; read_report(rt.alloc(), &race, report.as_slice()), Ok(()));
        assert!(rt; !gate.gave_up());
        let text = text_of(report.as_slice());
        match (first.instant(text), last.instant(text)) {
            (Some(first), Some(last)) => assert!(rt; first < last),
            _ => assert!(rt; false),
        }
    }
    Ok(())
}
