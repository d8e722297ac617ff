use im_lex::{insert, lex};
use im_spell::spell;
use im_syntax::Token;
use std::alloc::Global;
use std::test::Fail;

/// Whether two tokens are one.
fn is_same(one: &Token, other: &Token) -> bool {
    match (one, other) {
        (Token::Keyword(one), Token::Keyword(other)) => *one as usize == *other as usize,
        (Token::Sign(one), Token::Sign(other)) => *one as usize == *other as usize,
        (Token::Word(one), Token::Word(other)) | (Token::Text(one), Token::Text(other)) => {
            one.bytes() == other.bytes()
        }
        (Token::Int(one), Token::Int(other)) => one == other,
        _ => false,
    }
}

fn are_same(some: &[Token], others: &[Token]) -> bool {
    some.len() == others.len()
        && some
            .iter()
            .zip(others)
            .all(|(one, other)| is_same(one, other))
}

/// How a line is read.
#[derive(Clone, Copy, PartialEq, Eq)]
enum Way {
    /// Straight from its bytes, as what its tokens spell.
    Straight,
    /// By its tokens alone.
    Tokens,
    /// Straight from its bytes, but not as its tokens.
    Wrong,
}

fn way_of(alloc: Global, text: &str) -> Result<Way, Fail> {
    let Some(statement) = insert(alloc, text.as_bytes())? else {
        return Ok(Way::Tokens);
    };
    let spelled = spell(alloc, &statement)?;
    drop(statement);
    match lex(alloc, text.as_bytes()) {
        Ok(tokens) if are_same(tokens.as_slice(), spelled.as_slice()) => Ok(Way::Straight),
        _ => Ok(Way::Wrong),
    }
}

/// Lines that are an INSERT in the usual spelling.
const USUAL: [&str; 10] = [
    "INSERT INTO T VALUES (1)",
    "INSERT INTO ORDERS VALUES (1, 'NORTH', 37), (2, NULL, 74)",
    " \tINSERT  INTO orders_2\tVALUES( 1,'a' ),\r( -2 , 'b' ) ; ",
    "INSERT INTO T VALUES (-0, 007, 9223372036854775807, -9223372036854775808)",
    "INSERT INTO T VALUES ('it''s', '''', 'a text of more bytes than stand in place')",
    "INSERT INTO T VALUES (1), (2), (3);",
    "INSERT INTO T VALUES ('(', ')', ',', '--', ';')",
    "INSERT INTO T VALUES (NULL);  -- the end",
    "INSERT INTO insertion VALUES (NULL ,NULL)",
    "INSERT INTO T VALUES ('1',1,'1')",
];

/// Lines in another spelling, or of no statement.
const UNUSUAL: [&str; 18] = [
    "",
    "COMMIT",
    "insert into t values (1)",
    "INSERT INTO T (K) VALUES (1)",
    "INSERT INTO T VALUES ('')",
    "INSERT INTO T VALUES (1), (1, 2)",
    "INSERT INTO T VALUES (9223372036854775808)",
    "INSERT INTO T VALUES (-9223372036854775809)",
    "INSERT INTO T VALUES (null)",
    "INSERT INTO T VALUES (NULLS)",
    "INSERT INTO SELECT VALUES (1)",
    "INSERTINTO T VALUES (1)",
    "INSERT INTO T VALUES (1) -- the end",
    "INSERT INTO T VALUES (1); 2",
    "INSERT INTO T VALUES (1),",
    "INSERT INTO T VALUES (1",
    "INSERT INTO T VALUES ()",
    "INSERT INTO T VALUES ('a)",
];

fn are_all(alloc: Global, texts: &[&str], way: Way) -> Result<bool, Fail> {
    for text in texts {
        if way_of(alloc, text)? != way {
            return Ok(false);
        }
    }
    Ok(true)
}

#[test]
fn an_insert_is_read_straight_from_its_bytes(rt: HostRuntime) -> Result<(), Fail> {
    let alloc = rt.alloc();
    assert!(rt; are_all(alloc, &USUAL, Way::Straight)?);
    assert!(rt; are_all(alloc, &UNUSUAL, Way::Tokens)?);
    Ok(())
}
