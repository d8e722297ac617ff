use im_script::generate;
use std::test::Fail;

/// The script of three orders, with seed 0.
const THREE: &str =
    "1> CREATE TABLE ORDERS (ID NUMBER, REGION VARCHAR2(8), AMOUNT NUMBER) INMEMORY PRIORITY HIGH\n\
1> INSERT INTO ORDERS VALUES (1, 'EAST', 37), (2, 'SOUTH', 74), (3, 'WEST', 111)\n\
1> COMMIT\n\
bg> RUN\n\
1> SELECT COUNT(*), SUM(AMOUNT) FROM ORDERS\n\
1> SELECT REGION, COUNT(*), SUM(AMOUNT), MIN(AMOUNT), MAX(AMOUNT) FROM ORDERS GROUP BY REGION\n\
1> UPDATE ORDERS SET AMOUNT = 1000 WHERE AMOUNT < 100\n\
1> COMMIT\n\
1> SELECT COUNT(*), SUM(AMOUNT) FROM ORDERS\n\
bg> TRICKLE 1000000\n\
bg> RUN\n\
1> SELECT REGION, SUM(AMOUNT) FROM ORDERS GROUP BY REGION ORDER BY SUM(AMOUNT) DESC\n";

/// How many lines a script has.
fn line_count(script: &[u8]) -> usize {
    let mut count: usize = 0;
    for byte in script {
        if *byte == b'\n' {
            count = count.wrapping_add(1);
        }
    }
    count
}

#[test]
fn a_small_script_is_as_it_was_written_by_hand(rt: HostRuntime) -> Result<(), Fail> {
    assert!(rt; generate(rt.alloc(), 0, 3)?.as_slice() == THREE.as_bytes());
    Ok(())
}

#[test]
fn an_insert_has_100_orders_and_a_commit_500_inserts(rt: HostRuntime) -> Result<(), Fail> {
    let cases = [(100, 12), (101, 13), (50_000, 511), (50_001, 513)];
    for (rows, count) in cases {
        assert_eq!(rt;
            line_count(generate(rt.alloc(), 1, rows)?.as_slice()),
            count
        );
    }
    Ok(())
}
