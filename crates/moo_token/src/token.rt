//! Tokens.

/// A word that stands for itself, whatever its case.
#[derive(Clone, Copy, Debug, PartialEq, Eq)]
pub enum Keyword {
    If,
    Else,
    ElseIf,
    EndIf,
    For,
    In,
    EndFor,
    While,
    EndWhile,
    Break,
    Continue,
    Return,
    Fork,
    EndFork,
    Try,
    Except,
    Finally,
    EndTry,
    Any,
}

/// An error's name, as `E_NONE`, in any case.
#[derive(Clone, Copy, Debug, PartialEq, Eq)]
pub enum ErrorName {
    NoError,
    TypeMismatch,
    ZeroDivision,
    PermissionDenied,
    PropertyNotFound,
    VerbNotFound,
    VariableNotFound,
    InvalidIndirection,
    RecursiveMove,
    TooManyCalls,
    RangeError,
    WrongArgumentCount,
    MoveRefused,
    InvalidArgument,
    LimitExceeded,
    FloatError,
}

/// A sign of one or two bytes.
#[derive(Clone, Copy, Debug, PartialEq, Eq)]
pub enum Sign {
    OpenParenthesis,
    CloseParenthesis,
    OpenBracket,
    CloseBracket,
    OpenBrace,
    CloseBrace,
    Semicolon,
    Comma,
    Colon,
    Dot,
    /// `=`
    Assign,
    /// `!`
    Not,
    Plus,
    Minus,
    Times,
    Slash,
    Percent,
    Caret,
    Less,
    Greater,
    /// `|`
    Bar,
    Question,
    Dollar,
    At,
    Backquote,
    Quote,
    /// `..`
    DoubleDot,
    /// `==`
    Equal,
    /// `=>`
    Arrow,
    /// `!=`
    Differs,
    LessOrEqual,
    GreaterOrEqual,
    /// `&&`
    And,
    /// `||`
    Or,
}

/// A token.
#[derive(Debug, Drop)]
pub enum Token {
    /// As it is written.
    Identifier(Vec<u8>),
    Keyword(Keyword),
    Error(ErrorName),
    /// At most 2147483648, which is read as the least integer.
    Integer(u32),
    /// An object's number: whether it has a `-`, and its digits.
    Object(bool, u32),
    /// The characters of a string, without quotes and backslashes.
    Text(Vec<u8>),
    Sign(Sign),
}

/// A token and its line. The first line is 1.
#[derive(Debug, Drop)]
pub struct Placed {
    pub token: Token,
    pub line: u64,
}
