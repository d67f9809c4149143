//! The kinds of tokens, the reserved words and the marks.

/// What a token is. A kind has no fields: what a number or a name says is a function of its bytes.
#[derive(Clone, Copy, Debug, PartialEq, Eq)]
pub enum Kind {
    /// What a reader sees past the last token. No token has it.
    End,
    /// What is left of a text from a bad token on.
    Bad,
    /// A word that is not reserved.
    Name,
    /// Digits, of a value of at most 10^15.
    Number,
    /// Printable bytes in quotes.
    Text,
    // The marks.
    Open,
    Close,
    Comma,
    Semicolon,
    Colon,
    Dot,
    Star,
    Plus,
    Minus,
    Equal,
    NotEqual,
    AtMost,
    AtLeast,
    Less,
    Greater,
    // The reserved words, each named as it is spelled.
    All,
    And,
    As,
    Assertion,
    Begin,
    Between,
    By,
    Check,
    Commit,
    Constraint,
    Constraints,
    Count,
    Create,
    Deferrable,
    Deferred,
    Delete,
    Distinct,
    Exists,
    False,
    Foreign,
    From,
    Group,
    Having,
    Immediate,
    In,
    Initially,
    Insert,
    Int,
    Integer,
    Into,
    Is,
    Key,
    Max,
    Min,
    Not,
    Null,
    On,
    Only,
    Or,
    Primary,
    Read,
    References,
    Rollback,
    Select,
    Set,
    Sum,
    Table,
    True,
    Unique,
    Unknown,
    Update,
    Values,
    Varchar,
    Verdict,
    Where,
    Work,
}

// The reserved words in upper case, by their length. The list is this project's choice: SQL-92 reserves more.

pub(crate) const WORDS_OF_2: [(&[u8], Kind); 6] = [
    (b"AS", Kind::As),
    (b"BY", Kind::By),
    (b"IN", Kind::In),
    (b"IS", Kind::Is),
    (b"ON", Kind::On),
    (b"OR", Kind::Or),
];

pub(crate) const WORDS_OF_3: [(&[u8], Kind); 9] = [
    (b"ALL", Kind::All),
    (b"AND", Kind::And),
    (b"INT", Kind::Int),
    (b"KEY", Kind::Key),
    (b"MAX", Kind::Max),
    (b"MIN", Kind::Min),
    (b"NOT", Kind::Not),
    (b"SET", Kind::Set),
    (b"SUM", Kind::Sum),
];

pub(crate) const WORDS_OF_4: [(&[u8], Kind); 7] = [
    (b"FROM", Kind::From),
    (b"INTO", Kind::Into),
    (b"NULL", Kind::Null),
    (b"ONLY", Kind::Only),
    (b"READ", Kind::Read),
    (b"TRUE", Kind::True),
    (b"WORK", Kind::Work),
];

pub(crate) const WORDS_OF_5: [(&[u8], Kind); 7] = [
    (b"BEGIN", Kind::Begin),
    (b"CHECK", Kind::Check),
    (b"COUNT", Kind::Count),
    (b"FALSE", Kind::False),
    (b"GROUP", Kind::Group),
    (b"TABLE", Kind::Table),
    (b"WHERE", Kind::Where),
];

pub(crate) const WORDS_OF_6: [(&[u8], Kind); 10] = [
    (b"COMMIT", Kind::Commit),
    (b"CREATE", Kind::Create),
    (b"DELETE", Kind::Delete),
    (b"EXISTS", Kind::Exists),
    (b"HAVING", Kind::Having),
    (b"INSERT", Kind::Insert),
    (b"SELECT", Kind::Select),
    (b"UNIQUE", Kind::Unique),
    (b"UPDATE", Kind::Update),
    (b"VALUES", Kind::Values),
];

pub(crate) const WORDS_OF_7: [(&[u8], Kind); 7] = [
    (b"BETWEEN", Kind::Between),
    (b"FOREIGN", Kind::Foreign),
    (b"INTEGER", Kind::Integer),
    (b"PRIMARY", Kind::Primary),
    (b"UNKNOWN", Kind::Unknown),
    (b"VARCHAR", Kind::Varchar),
    (b"VERDICT", Kind::Verdict),
];

pub(crate) const WORDS_OF_8: [(&[u8], Kind); 3] = [
    (b"DEFERRED", Kind::Deferred),
    (b"DISTINCT", Kind::Distinct),
    (b"ROLLBACK", Kind::Rollback),
];

pub(crate) const WORDS_OF_9: [(&[u8], Kind); 3] = [
    (b"ASSERTION", Kind::Assertion),
    (b"IMMEDIATE", Kind::Immediate),
    (b"INITIALLY", Kind::Initially),
];

pub(crate) const WORDS_OF_10: [(&[u8], Kind); 3] = [
    (b"CONSTRAINT", Kind::Constraint),
    (b"DEFERRABLE", Kind::Deferrable),
    (b"REFERENCES", Kind::References),
];

pub(crate) const WORDS_OF_11: [(&[u8], Kind); 1] = [(b"CONSTRAINTS", Kind::Constraints)];

/// The marks, the longest first, and then the frequent ones.
pub(crate) const MARKS: [(&[u8], Kind); 15] = [
    (b"<>", Kind::NotEqual),
    (b"<=", Kind::AtMost),
    (b">=", Kind::AtLeast),
    (b",", Kind::Comma),
    (b"=", Kind::Equal),
    (b"(", Kind::Open),
    (b")", Kind::Close),
    (b".", Kind::Dot),
    (b";", Kind::Semicolon),
    (b":", Kind::Colon),
    (b"*", Kind::Star),
    (b"+", Kind::Plus),
    (b"-", Kind::Minus),
    (b"<", Kind::Less),
    (b">", Kind::Greater),
];
