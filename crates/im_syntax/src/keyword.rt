ghost use Rattle.std.specs.Prelude.{◌≡◌, ◌<◌, ℕ, List, Some, map, slice_index};
ghost use Rattle.std.specs.Str.{bytes_eq};
ghost use Rattle.im_syntax.specs.Keywords as keywords;
ghost use Rattle.im_syntax.specs.declared.keyword.Keyword.{Keyword};
ghost use Rattle.im_syntax.specs.inner.Slots as slots;

/// A word that the language keeps for itself: it names no table and no column.
#[derive(Clone, Copy)]
pub enum Keyword {
    Add,
    Alter,
    And,
    As,
    Asc,
    Begin,
    Between,
    Block,
    By,
    Cancel,
    Close,
    Commit,
    Committed,
    Count,
    Create,
    Critical,
    Default,
    Delete,
    Desc,
    Evict,
    Explain,
    Extent,
    Fetch,
    For,
    From,
    Group,
    High,
    In,
    InMemory,
    Insert,
    Integer,
    Into,
    Is,
    Isolation,
    Level,
    Low,
    Max,
    Medium,
    MemCompress,
    Min,
    No,
    None,
    Not,
    Null,
    Number,
    Of,
    Only,
    Open,
    Or,
    Order,
    Priority,
    Purge,
    Query,
    Read,
    Rollback,
    Run,
    Scn,
    Select,
    Serializable,
    Set,
    Step,
    Sum,
    Switch,
    Table,
    Transaction,
    Trickle,
    Update,
    Values,
    Varchar2,
    Where,
}

/// The keywords by their letters, which are capitals.
pub const KEYWORDS: [(&[u8], Keyword); 70] = [
    (b"ADD", Keyword::Add),
    (b"ALTER", Keyword::Alter),
    (b"AND", Keyword::And),
    (b"AS", Keyword::As),
    (b"ASC", Keyword::Asc),
    (b"BEGIN", Keyword::Begin),
    (b"BETWEEN", Keyword::Between),
    (b"BLOCK", Keyword::Block),
    (b"BY", Keyword::By),
    (b"CANCEL", Keyword::Cancel),
    (b"CLOSE", Keyword::Close),
    (b"COMMIT", Keyword::Commit),
    (b"COMMITTED", Keyword::Committed),
    (b"COUNT", Keyword::Count),
    (b"CREATE", Keyword::Create),
    (b"CRITICAL", Keyword::Critical),
    (b"DEFAULT", Keyword::Default),
    (b"DELETE", Keyword::Delete),
    (b"DESC", Keyword::Desc),
    (b"EVICT", Keyword::Evict),
    (b"EXPLAIN", Keyword::Explain),
    (b"EXTENT", Keyword::Extent),
    (b"FETCH", Keyword::Fetch),
    (b"FOR", Keyword::For),
    (b"FROM", Keyword::From),
    (b"GROUP", Keyword::Group),
    (b"HIGH", Keyword::High),
    (b"IN", Keyword::In),
    (b"INMEMORY", Keyword::InMemory),
    (b"INSERT", Keyword::Insert),
    (b"INTEGER", Keyword::Integer),
    (b"INTO", Keyword::Into),
    (b"IS", Keyword::Is),
    (b"ISOLATION", Keyword::Isolation),
    (b"LEVEL", Keyword::Level),
    (b"LOW", Keyword::Low),
    (b"MAX", Keyword::Max),
    (b"MEDIUM", Keyword::Medium),
    (b"MEMCOMPRESS", Keyword::MemCompress),
    (b"MIN", Keyword::Min),
    (b"NO", Keyword::No),
    (b"NONE", Keyword::None),
    (b"NOT", Keyword::Not),
    (b"NULL", Keyword::Null),
    (b"NUMBER", Keyword::Number),
    (b"OF", Keyword::Of),
    (b"ONLY", Keyword::Only),
    (b"OPEN", Keyword::Open),
    (b"OR", Keyword::Or),
    (b"ORDER", Keyword::Order),
    (b"PRIORITY", Keyword::Priority),
    (b"PURGE", Keyword::Purge),
    (b"QUERY", Keyword::Query),
    (b"READ", Keyword::Read),
    (b"ROLLBACK", Keyword::Rollback),
    (b"RUN", Keyword::Run),
    (b"SCN", Keyword::Scn),
    (b"SELECT", Keyword::Select),
    (b"SERIALIZABLE", Keyword::Serializable),
    (b"SET", Keyword::Set),
    (b"STEP", Keyword::Step),
    (b"SUM", Keyword::Sum),
    (b"SWITCH", Keyword::Switch),
    (b"TABLE", Keyword::Table),
    (b"TRANSACTION", Keyword::Transaction),
    (b"TRICKLE", Keyword::Trickle),
    (b"UPDATE", Keyword::Update),
    (b"VALUES", Keyword::Values),
    (b"VARCHAR2", Keyword::Varchar2),
    (b"WHERE", Keyword::Where),
];

/// Where in [`KEYWORDS`] the keyword of each slot stands: 255 where no keyword has the slot.
static PLACES: [u8; 256] = [
    255, 255, 255, 255, 255, 255, 30, 255, 255, 255, 40, 255, 255, 255, 255, 22, 255, 255, 12, 255,
    255, 255, 255, 255, 255, 27, 255, 255, 17, 60, 255, 255, 56, 255, 255, 255, 255, 255, 68, 37,
    255, 255, 255, 63, 19, 42, 255, 58, 10, 255, 255, 255, 255, 255, 255, 255, 255, 255, 255, 255,
    255, 21, 255, 51, 255, 255, 255, 255, 255, 255, 255, 255, 33, 255, 255, 3, 255, 255, 255, 255,
    255, 255, 255, 255, 255, 31, 255, 255, 255, 255, 255, 255, 255, 255, 255, 255, 255, 14, 255,
    32, 255, 255, 255, 62, 255, 7, 25, 46, 255, 255, 0, 9, 255, 255, 255, 255, 26, 255, 61, 255,
    255, 29, 255, 255, 255, 255, 39, 255, 255, 255, 36, 16, 255, 255, 255, 255, 38, 255, 255, 255,
    59, 55, 43, 57, 255, 255, 255, 255, 255, 35, 255, 255, 24, 255, 255, 255, 255, 28, 67, 255,
    255, 23, 255, 255, 255, 255, 18, 255, 255, 255, 255, 255, 4, 255, 13, 11, 255, 255, 50, 255,
    54, 65, 255, 255, 255, 255, 255, 255, 255, 255, 2, 255, 255, 255, 255, 64, 255, 255, 255, 66,
    41, 34, 53, 255, 69, 255, 255, 255, 255, 255, 255, 255, 255, 255, 255, 255, 255, 255, 255, 45,
    1, 255, 255, 5, 255, 6, 20, 255, 255, 255, 255, 255, 255, 255, 52, 255, 44, 255, 255, 255, 255,
    255, 255, 48, 255, 255, 49, 255, 255, 15, 8, 255, 255, 47, 255, 255,
];

/// The byte at a place, or 0 past the end.
fn byte_at(bytes: &[u8], i: usize) -> u8
    ensures { result ≡ slice_index bytes.now i }
{
    if i < bytes.len() { bytes[i] } else { 0 }
}

/// The slot of a word, by its first byte, its second, its last one and its length. No two keywords have the same.
fn slot_of(word: &[u8]) -> usize
    ensures within { result < 256 }
    ensures exact { result ≡ slots.slot_of word.now }
{
    let first = usize::from(byte_at(word, 0));
    let second = usize::from(byte_at(word, 1));
    let last = usize::from(byte_at(word, word.len().saturating_sub(1)));
    (first * 35 + second * 8 + last * 58 + word.len()) % 256
}

/// Whether a word has these letters. The letters are few, so a plain loop is the fastest.
fn is_spelled(letters: &[u8], word: &[u8]) -> bool
    ensures { result ≡ bytes_eq letters.now word.now }
{
    if letters.len() != word.len() {
        return false;
    }
    for (i, letter) in letters.iter().enumerate() {
        if *letter != word[i] {
            return false;
        }
    }
    true
}

/// The keyword at a place of a table, where the word has its letters.
fn keyword_at(table: &[(&[u8], Keyword)], place: usize, word: &[u8]) -> Option<Keyword>
    ensures { result ≡ slots.keyword_at (map (λ entry. (entry.0.now, entry.1)) table.entry.now) place word.now }
{
    match table.get(place) {
        Some((letters, keyword)) if is_spelled(letters, word) => Some(*keyword),
        _ => None,
    }
}

impl Keyword {
    /// The keyword of these letters.
    #[tactic(auto, using(crate::proofs::Slots::keyword_of_slot))]
    pub fn of(word: &[u8]) -> Option<Keyword>
        ensures { result ≡ keywords.keyword_of word.now }
    {
        let place = PLACES[slot_of(word)];
        keyword_at(&KEYWORDS, usize::from(place), word)
    }
}

/// The keywords by their letters: the table that the code looks them up in is said here once in the language's own words, and
/// nothing is done.
pub fn keywords_are()
    ensures found { (keyword : Keyword) → keywords.keyword_of (keywords.letters keyword) ≡ Some keyword }
    ensures only { (word : List ℕ) (keyword : Keyword) → keywords.keyword_of word ≡ Some keyword → word ≡ keywords.letters keyword }
{}
