use crate::races::{OLDER, STEPPED, WORKED};
use crate::reader::{Race, Wrong, read_report};
use std::alloc::Global;
use std::process::Abort;
use std::test::Fail;

/// The worked race, with one worker.
const RACE: Race<'static> = Race {
    script: WORKED,
    prelude: 4,
    workers: 1,
};

/// A report of it.
const REPORT: &str =
    "1,created,1,1\n2,inserted,4,0\n3,committed,2\nhistory,16\nh,0,1,create,T,2,2,K,0\nh,1,1,memory,1,high\n\
    h,2,1,write,4\nc,2,1,0,put,10\nc,2,1,1,put,20\nc,2,1,2,put,30\nc,2,1,3,put,50\nh,3,1,commit\nh,4,17,build,1,1,0,0\n\
    h,5,1,open,0,1\nh,6,1,write,1\nc,6,1,0,put,11\nh,7,1,shut,0\nh,8,17,switch,1\nh,9,1,commit\nh,10,2,open,0,1\n\
    h,11,2,shut,0\nh,12,1,leave\nh,13,2,leave\nh,14,17,build,2,1,0,0\nh,15,17,switch,2\nworker,17,over,16\nat,5,6\n\
    mark,5,6,0,blocks\n5,updated,1\nat,6,9\n6,committed,3\nat,7,10\nmark,7,11,0,unit,2,1\n7,answer,3,1\n7,row,111\n";

/// The race of a session that steps, with one worker.
const STEPS_RACE: Race<'static> = Race {
    script: STEPPED,
    prelude: 4,
    workers: 1,
};

/// A report of it.
const STEPS_REPORT: &str =
    "1,created,1,1\n2,inserted,6,0\n3,committed,2\nhistory,11\nh,0,1,create,T,2,2,K,0\nh,1,1,memory,1,high\n\
    h,2,1,write,6\nc,2,1,0,put,1\nc,2,1,1,put,2\nc,2,1,2,put,3\nc,2,1,3,put,4\nc,2,1,4,put,5\nc,2,1,5,put,6\n\
    h,3,1,commit\nh,4,1,open,1,1\nh,5,17,build,1,1,0,0\nh,6,17,switch,1\nh,7,17,build,2,1,1,0\nh,8,17,switch,2\n\
    h,9,1,shut,1\nh,10,1,leave\nworker,17,over,11\nat,5,4\n5,opened,1,2,2\nat,6,5\nmark,6,5,0,blocks\n\
    6,served,0,blocks\nat,7,9\nmark,7,9,1,unit,2,0\n7,served,1,unit,2,0\nat,8,9\n8,answer,2,1\n8,row,21\n";

/// The race of a session that finds no row, since a unit excludes what it asks for.
const PRUNED_RACE: Race<'static> = Race {
    script: "1> CREATE TABLE T (K NUMBER) BLOCK 2 EXTENT 2 INMEMORY PRIORITY HIGH\n\
        1> INSERT INTO T VALUES (10), (20)\n1> COMMIT\nrace>\n1> UPDATE T SET K = 7 WHERE K = 5",
    prelude: 4,
    workers: 1,
};

/// A report of it.
const PRUNED_REPORT: &str =
    "1,created,1,1\n2,inserted,2,0\n3,committed,2\nhistory,9\nh,0,1,create,T,2,2,K,0\nh,1,1,memory,1,high\n\
    h,2,1,write,2\nc,2,1,0,put,10\nc,2,1,1,put,20\nh,3,1,commit\nh,4,17,build,1,1,0,0\nh,5,17,switch,1\n\
    h,6,1,open,0,1\nh,7,1,shut,0\nh,8,1,leave\nworker,17,over,9\nat,5,6\nmark,5,7,0,pruned,2,0\n5,updated,0\n";

/// The race of sessions that ask for an SCN, with one worker.
const OLDER_RACE: Race<'static> = Race {
    script: OLDER,
    prelude: 7,
    workers: 1,
};

/// A report of it.
const OLDER_REPORT: &str =
    "1,created,1,1\n2,inserted,3,0\n3,committed,2\n4,inserted,1,3\n5,committed,3\n6,purged,3,4\nhistory,23\n\
    h,0,1,create,T,2,2,K,0\nh,1,1,memory,1,high\nh,2,1,write,3\nc,2,1,0,put,1\nc,2,1,1,put,2\nc,2,1,2,put,3\n\
    h,3,1,commit\nh,4,1,write,1\nc,4,1,3,put,4\nh,5,1,commit\nh,6,0,purge\nh,7,17,build,1,1,0,0\nh,8,1,open,0,1\n\
    h,9,1,write,1\nc,9,1,0,put,11\nh,10,1,shut,0\nh,11,1,open,0,1,3\nh,12,17,switch,1\nh,13,1,shut,0\nh,14,1,commit\n\
    h,15,2,open,1,1,3\nh,16,1,open,0,1\nh,17,1,shut,0\nh,18,1,leave\nh,19,2,shut,1\nh,20,2,leave\nh,21,17,build,2,1,0,0\n\
    h,22,17,switch,2\nworker,17,over,23\nat,8,9\nmark,8,9,0,blocks\n8,updated,1\nat,9,11\nmark,9,12,0,blocks\n\
    9,answer,3,1\n9,row,10\nat,10,14\n10,committed,4\nat,11,16\nmark,11,17,0,unit,3,1\n11,answer,4,1\n11,row,20\n\
    at,12,15\n12,opened,1,3,1\nat,13,16\nmark,13,16,0,unit,3,0\n13,served,0,unit,3,0\nat,14,16\n14,answer,3,1\n14,row,10\n\
    at,15,20\n15,error,20,snapshot-too-old,2,3\n";

/// A report with lines changed: each that is the first of a pair becomes the second, or is left out where that is empty.
fn changed(alloc: Global, report: &str, pairs: &[(&str, &str)]) -> Result<String, Fail> {
    let mut text = String::new(alloc);
    for line in report.lines() {
        let mut line = line;
        for (old, new) in pairs {
            if line == *old {
                line = *new;
            }
        }
        if !line.is_empty() {
            text.push_str(line)?;
            text.push('\n')?;
        }
    }
    Ok(text)
}

/// What the reader says of the report of a race with lines changed.
fn read_changed(
    alloc: Global,
    race: &Race<'_>,
    report: &str,
    pairs: &[(&str, &str)],
) -> Result<Result<(), Wrong>, Fail> {
    let text = changed(alloc, report, pairs)?;
    Ok(read_report(alloc, race, text.as_bytes()))
}

#[test]
fn a_lawful_report_passes(rt: HostRuntime) -> Result<(), Fail> {
    assert_eq!(rt; read_changed(rt.alloc(), &RACE, REPORT, &[])?, Ok(()));
    assert_eq!(rt;
        read_changed(rt.alloc(), &STEPS_RACE, STEPS_REPORT, &[])?,
        Ok(())
    );
    assert_eq!(rt;
        read_changed(rt.alloc(), &PRUNED_RACE, PRUNED_REPORT, &[])?,
        Ok(())
    );
    assert_eq!(rt;
        read_changed(rt.alloc(), &OLDER_RACE, OLDER_REPORT, &[])?,
        Ok(())
    );
    let spent = [("worker,17,over,16", "worker,17,spent,0,16")];
    assert_eq!(rt; read_changed(rt.alloc(), &RACE, REPORT, &spent)?, Ok(()));
    Ok(())
}

/// A line of a report, what is in its place, and what the reader says of it.
type Spoilt = (&'static str, &'static str, Wrong);

/// The worked race, with one line changed.
const LINES: [Spoilt; 31] = [
    // An entry is left out.
    ("h,7,1,shut,0", "", Wrong::Record(17)),
    // A table leaves the column store, which the reader does not read.
    (
        "h,1,1,memory,1,high",
        "h,1,1,memory,1,off",
        Wrong::Record(6),
    ),
    // A session shuts the cursor of another.
    ("h,11,2,shut,0", "h,11,1,shut,0", Wrong::Cursor(11)),
    // A session begins a build, and a worker one of an extent that is not there.
    (
        "h,14,17,build,2,1,0,0",
        "h,14,2,build,2,1,0,0",
        Wrong::Begins(14),
    ),
    (
        "h,14,17,build,2,1,0,0",
        "h,14,17,build,2,1,1,0",
        Wrong::Begins(14),
    ),
    // A Leave is missing.
    ("h,13,2,leave", "h,13,2,commit", Wrong::Leaves(2)),
    // An entry is that of a number that takes no part.
    ("h,12,1,leave", "h,12,3,leave", Wrong::Stranger(12)),
    // A worker is idle where a build could begin, and while it holds one.
    ("worker,17,over,16", "worker,17,spent,0,14", Wrong::Idle(17)),
    ("worker,17,over,16", "worker,17,spent,0,15", Wrong::Idle(17)),
    // The replies before the race are others than their entries give.
    ("1,created,1,1", "1,created,1,2", Wrong::Early(1)),
    ("2,inserted,4,0", "2,inserted,4,1", Wrong::Early(2)),
    ("3,committed,2", "3,committed,3", Wrong::Early(3)),
    // A row is inserted with another value.
    ("c,2,1,3,put,50", "c,2,1,3,put,51", Wrong::Early(2)),
    // Two lines have the place of one entry.
    ("at,6,9", "at,6,6", Wrong::Place(6)),
    // A mark's place stands where the reply's does.
    ("at,7,10", "at,7,11", Wrong::Reply(7)),
    // Replies are others than their entries and their statements give.
    ("6,committed,3", "6,committed,4", Wrong::Reply(6)),
    ("5,updated,1", "5,updated,2", Wrong::Reply(5)),
    ("5,updated,1", "5,deleted,1", Wrong::Reply(5)),
    // A write puts another value, changes another row, or takes the row away.
    ("c,6,1,0,put,11", "c,6,1,0,put,12", Wrong::Write(5)),
    ("c,6,1,0,put,11", "c,6,1,1,put,11", Wrong::Write(5)),
    ("c,6,1,0,put,11", "c,6,1,0,out", Wrong::Write(5)),
    // A line is refused, and its write stands.
    ("5,updated,1", "5,error,14,read-only", Wrong::Writes),
    // An extent is not marked, and one that is not there; a mark stands behind the write, and at a line that reads nothing.
    ("mark,5,6,0,blocks", "", Wrong::Extents(5)),
    ("mark,5,6,0,blocks", "mark,5,6,1,blocks", Wrong::Extents(5)),
    ("mark,5,6,0,blocks", "mark,5,7,0,blocks", Wrong::Extents(5)),
    ("at,6,9", "at,6,9\nmark,6,9,0,blocks", Wrong::Extents(6)),
    // The blocks served an extent that has a unit, and a unit one that has none.
    ("mark,7,11,0,unit,2,1", "mark,7,11,0,blocks", Wrong::Mark(7)),
    ("mark,5,6,0,blocks", "mark,5,6,0,unit,2,0", Wrong::Mark(5)),
    // Nothing is asked for that a unit could exclude.
    (
        "mark,7,11,0,unit,2,1",
        "mark,7,11,0,pruned,2,1",
        Wrong::Mark(7),
    ),
    // A stale row is not counted.
    (
        "mark,7,11,0,unit,2,1",
        "mark,7,11,0,unit,2,0",
        Wrong::Mark(7),
    ),
    // A sum is one off.
    ("7,row,111", "7,row,112", Wrong::Answer(7)),
];

/// The race of a session that steps, with one line changed.
const STEPS_LINES: [Spoilt; 5] = [
    // Another number of extents is said to be scanned.
    ("5,opened,1,2,2", "5,opened,1,2,3", Wrong::Reply(5)),
    // A step says something else than its mark, and has none.
    ("7,served,1,unit,2,0", "7,served,1,blocks", Wrong::Reply(7)),
    ("mark,7,9,1,unit,2,0", "", Wrong::Place(7)),
    // FETCH reads an extent that a step has read.
    ("at,8,9", "at,8,9\nmark,8,9,1,unit,2,0", Wrong::Extents(8)),
    // An extent is built that has a unit.
    (
        "h,7,17,build,2,1,1,0",
        "h,7,17,build,2,1,0,0",
        Wrong::Begins(7),
    ),
];

/// The race of a session that finds no row, with one line changed.
const PRUNED_LINES: [Spoilt; 3] = [
    // A unit is read that could be passed over, and a mark stands behind the end of the scan.
    (
        "mark,5,7,0,pruned,2,0",
        "mark,5,7,0,unit,2,0",
        Wrong::Mark(5),
    ),
    (
        "mark,5,7,0,pruned,2,0",
        "mark,5,8,0,pruned,2,0",
        Wrong::Extents(5),
    ),
    // A row is said to be changed, and nothing was written.
    ("5,updated,0", "5,updated,1", Wrong::Reply(5)),
];

/// The race of sessions that ask for an SCN, with one line changed.
const OLDER_LINES: [Spoilt; 8] = [
    // The horizon of a purge is another one, and so is the number of versions that it keeps.
    ("6,purged,3,4", "6,purged,2,4", Wrong::Early(6)),
    ("6,purged,3,4", "6,purged,3,5", Wrong::Early(6)),
    // A cursor asks for an SCN below the horizon, and for one that was not reached.
    ("h,11,1,open,0,1,3", "h,11,1,open,0,1,2", Wrong::Asked(11)),
    ("h,15,2,open,1,1,3", "h,15,2,open,1,1,5", Wrong::Asked(15)),
    // It asks for another SCN than its line names, and for none.
    ("h,15,2,open,1,1,3", "h,15,2,open,1,1,4", Wrong::Reply(12)),
    ("h,11,1,open,0,1,3", "h,11,1,open,0,1", Wrong::Reply(9)),
    // A row is written by a cursor that asks for an SCN.
    ("h,8,1,open,0,1", "h,8,1,open,0,1,3", Wrong::Write(8)),
    // The session's own change is shown at an SCN that was asked for.
    ("9,row,10", "9,row,20", Wrong::Answer(9)),
];

/// Compares what the reader says of the report of a race with a line changed.
fn check_spoilt<R: Abort>(
    rt: &R,
    alloc: Global,
    race: &Race<'_>,
    report: &str,
    cases: &[Spoilt],
) -> Result<(), Fail> {
    for (old, new, wrong) in cases {
        assert_eq!(rt;
            read_changed(alloc, race, report, &[(*old, *new)])?,
            Err(*wrong)
        );
    }
    Ok(())
}

#[test]
fn a_report_with_a_line_spoilt_is_refused(rt: HostRuntime) -> Result<(), Fail> {
    check_spoilt(&rt, rt.alloc(), &RACE, REPORT, &LINES)?;
    check_spoilt(&rt, rt.alloc(), &STEPS_RACE, STEPS_REPORT, &STEPS_LINES)?;
    check_spoilt(&rt, rt.alloc(), &PRUNED_RACE, PRUNED_REPORT, &PRUNED_LINES)?;
    check_spoilt(&rt, rt.alloc(), &OLDER_RACE, OLDER_REPORT, &OLDER_LINES)
}

#[test]
fn a_report_with_lines_spoilt_is_refused(rt: HostRuntime) -> Result<(), Fail> {
    let cases: [(&[(&str, &str)], Wrong); 2] = [
        // A worker's build has no end.
        (
            &[
                ("history,16", "history,15"),
                ("h,15,17,switch,2", ""),
                ("worker,17,over,16", "worker,17,over,15"),
            ],
            Wrong::Unended(14),
        ),
        // A worker is over where a build could begin.
        (
            &[
                ("history,16", "history,14"),
                ("h,14,17,build,2,1,0,0", ""),
                ("h,15,17,switch,2", ""),
                ("worker,17,over,16", "worker,17,over,14"),
            ],
            Wrong::Idle(17),
        ),
    ];
    for (pairs, wrong) in cases {
        assert_eq!(rt; read_changed(rt.alloc(), &RACE, REPORT, pairs)?, Err(wrong));
    }
    Ok(())
}

#[test]
fn a_report_with_steps_spoilt_is_refused(rt: HostRuntime) -> Result<(), Fail> {
    let cases: [(&[(&str, &str)], Wrong); 2] = [
        // A step serves another extent than the next one.
        (
            &[
                ("mark,6,5,0,blocks", "mark,6,5,1,blocks"),
                ("6,served,0,blocks", "6,served,1,blocks"),
            ],
            Wrong::Extents(6),
        ),
        // A step finds no extent, and one is left.
        (
            &[
                ("mark,7,9,1,unit,2,0", ""),
                ("7,served,1,unit,2,0", "7,end,1"),
            ],
            Wrong::Extents(7),
        ),
    ];
    for (pairs, wrong) in cases {
        assert_eq!(rt;
            read_changed(rt.alloc(), &STEPS_RACE, STEPS_REPORT, pairs)?,
            Err(wrong)
        );
    }
    Ok(())
}
