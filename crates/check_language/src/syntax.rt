ghost use Rattle.std.specs.Prelude.{IfOk};
ghost use Rattle.im_syntax.specs.Rules.{IsStmt};

use im_lex::lex;
use im_parse::parse;
use im_spell::spell;
use im_syntax::{Keyword, Stmt, Token};
use std::alloc::Global;
use std::test::Fail;

/// The tokens of a text.
fn tokens_of(alloc: Global, text: &[u8]) -> Result<Vec<Token>, Fail> {
    match lex(alloc, text) {
        Ok(tokens) => Ok(tokens),
        Err(_) => Err(Fail::from("a byte is bad")),
    }
}

/// The statement that these are the tokens of.
fn statement_of(alloc: Global, tokens: &[Token]) -> Result<Stmt, Fail>
    ensures { IfOk result IsStmt }
{
    match parse(alloc, tokens) {
        Ok(statement) => Ok(statement),
        Err(_) => Err(Fail::from("the text is no statement")),
    }
}

/// The signs, in the order in which the type of signs has them.
const SIGNS: [&str; 10] = ["(", ")", ",", "*", "=", "<", "<=", ">", ">=", "<>"];

/// Texts in quotes, and without them.
const TEXTS: [(&str, &str); 4] = [("'it''s'", "it's"), ("''", ""), ("'a'", "a"), ("'b'", "b")];

/// Whether a word, as it stands in a statement, is a token.
fn is_token(word: &str, token: &Token) -> bool {
    match token {
        Token::Keyword(keyword) => match Keyword::of(word.as_bytes()) {
            Some(read) => read as usize == *keyword as usize,
            None => false,
        },
        Token::Word(name) => name.bytes() == word.as_bytes(),
        Token::Int(number) => word.parse::<i64>() == Ok(*number),
        Token::Text(text) => TEXTS.iter().any(|(quoted, plain)| *quoted == word
            && plain.as_bytes() == text.bytes()),
        Token::Sign(sign) => SIGNS[*sign as usize] == word,
    }
}

/// Whether these tokens are the words of a text, one after the other.
fn are_tokens(tokens: &[Token], text: &str) -> bool {
    let mut words = text.split(' ');
    for token in tokens {
        match words.next() {
            Some(word) if is_token(word, token) => {}
            _ => return false,
        }
    }
    words.next().is_none()
}

/// Whether a text is a statement whose spelling is the words of the text.
fn is_spelled_again(alloc: Global, text: &str) -> Result<bool, Fail> {
    let tokens = tokens_of(alloc, text.as_bytes())?;
    let statement = statement_of(alloc, tokens.as_slice())?;
    let spelled = spell(alloc, &statement)?;
    Ok(are_tokens(spelled.as_slice(), text))
}

/// A statement of each kind, with each part that it may have. Its tokens have blanks between them.
const STATEMENTS: [&str; 30] = [
    "CREATE TABLE T ( K NUMBER , M INTEGER , N VARCHAR2 ( 2 ) ) BLOCK 2 EXTENT 3 INMEMORY MEMCOMPRESS FOR QUERY LOW PRIORITY HIGH",
    "ALTER TABLE T INMEMORY PRIORITY NONE",
    "ALTER TABLE T NO INMEMORY",
    "ALTER TABLE T ADD ( N VARCHAR2 ( 3 ) DEFAULT 'it''s' )",
    "ALTER TABLE T ADD ( K NUMBER )",
    "INSERT INTO T ( K , N ) VALUES ( -1 , 'it''s' ) , ( NULL , '' )",
    "UPDATE T SET K = 1 , N = NULL WHERE NOT ( K IN ( 1 , 2 ) OR K IS NOT NULL ) AND N NOT BETWEEN 'a' AND 'b'",
    "DELETE FROM T",
    "SELECT K , COUNT ( * ) FROM T WHERE K <> 1 AND K < 2 OR K <= 3 AND K > 4 AND K >= 5 GROUP BY K ORDER BY MAX ( K ) DESC , K ASC , M",
    "SELECT * FROM T AS OF SCN 0",
    "SELECT K FROM T AS OF SCN 9223372036854775807 WHERE K = 1 GROUP BY K ORDER BY K",
    "EXPLAIN SELECT * FROM T",
    "EXPLAIN SELECT * FROM T AS OF SCN 3 WHERE K = 1",
    "OPEN 7 FOR SELECT SUM ( K ) , MIN ( K ) , COUNT ( K ) FROM T",
    "OPEN 7 FOR SELECT K FROM T AS OF SCN 3 ORDER BY K",
    "STEP 7",
    "FETCH 7",
    "CLOSE 7",
    "SET TRANSACTION ISOLATION LEVEL READ COMMITTED",
    "SET TRANSACTION ISOLATION LEVEL SERIALIZABLE",
    "SET TRANSACTION READ ONLY",
    "COMMIT",
    "ROLLBACK",
    "RUN",
    "BEGIN",
    "SWITCH",
    "CANCEL",
    "TRICKLE 6",
    "EVICT T 0",
    "PURGE",
];

#[test]
fn a_statement_is_read_and_spelled_again(rt: HostRuntime) -> Result<(), Fail> {
    let alloc = rt.alloc();
    for text in STATEMENTS {
        assert!(rt; is_spelled_again(alloc, text)?);
    }
    Ok(())
}
