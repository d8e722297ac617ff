use im_script::{LineKind, lines};
use std::alloc::Global;
use std::test::Fail;

/// The byte at which the one line of a script leaves the language, if it does.
fn bad_byte(alloc: Global, script: &str) -> Result<Option<u64>, Fail> {
    let lines = lines(alloc, script.as_bytes())?;
    let [line] = lines.as_slice() else {
        return Err(Fail::from("the script has not one line"));
    };
    match &line.kind {
        LineKind::Bad(byte) => Ok(Some(*byte)),
        LineKind::Session(_, _) | LineKind::Background(_) => Ok(None),
        _ => Err(Fail::from("the line has no statement part")),
    }
}

/// Lines that name an SCN or purge, and where they leave the language.
const LINES: [(&str, Option<u64>); 21] = [
    ("1> SELECT * FROM T AS OF SCN 0", None),
    ("2> select k from t as of scn 007 where k = 1;", None),
    (
        "3> EXPLAIN SELECT * FROM T AS OF SCN 9223372036854775807",
        None,
    ),
    ("4> OPEN 7 FOR SELECT K FROM T AS OF SCN 3 ORDER BY K", None),
    ("bg> PURGE", None),
    ("1> SELECT * FROM T AS SCN 3", Some(23)),
    ("1> SELECT * FROM T AS OF 3", Some(26)),
    ("1> SELECT * FROM T AS OF SCN", Some(29)),
    ("1> SELECT * FROM T AS OF SCN K", Some(30)),
    ("1> SELECT * FROM T AS OF SCN -1", Some(30)),
    ("1> SELECT * FROM T AS OF SCN 9223372036854775808", Some(30)),
    ("1> SELECT * FROM T AS OF SCN 3 AS OF SCN 4", Some(32)),
    ("1> SELECT * FROM T WHERE K = 1 AS OF SCN 3", Some(32)),
    ("1> DELETE FROM T AS OF SCN 3", Some(18)),
    ("1> UPDATE T AS OF SCN 3 SET K = 1", Some(13)),
    ("1> PURGE", Some(4)),
    ("bg> PURGE x", Some(11)),
    ("1> CREATE TABLE T (AS NUMBER)", Some(20)),
    ("1> CREATE TABLE OF (K NUMBER)", Some(17)),
    ("1> SELECT SCN FROM T", Some(11)),
    ("bg> EVICT PURGE 0", Some(11)),
];

#[test]
fn a_line_leaves_the_language_at_its_byte(rt: HostRuntime) -> Result<(), Fail> {
    let alloc = rt.alloc();
    for (line, byte) in LINES {
        assert_eq!(rt; bad_byte(alloc, line)?, byte);
    }
    Ok(())
}
