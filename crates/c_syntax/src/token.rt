//! Tokens (C89, 3.1).

use crate::text::Text;
use c_base::place::Pos;

/// The marks: operators and punctuators (C89, 3.1.5 and 3.1.6).
#[derive(Clone, Copy, Debug, PartialEq, Eq)]
pub enum Mark {
    LeftBracket,
    RightBracket,
    LeftParen,
    RightParen,
    LeftBrace,
    RightBrace,
    Dot,
    Arrow,
    PlusPlus,
    MinusMinus,
    Ampersand,
    Star,
    Plus,
    Minus,
    Tilde,
    Bang,
    Slash,
    Percent,
    ShiftLeft,
    ShiftRight,
    Less,
    Greater,
    LessEqual,
    GreaterEqual,
    EqualEqual,
    NotEqual,
    Caret,
    Bar,
    AndAnd,
    OrOr,
    Question,
    Colon,
    Semicolon,
    Equal,
    StarEqual,
    SlashEqual,
    PercentEqual,
    PlusEqual,
    MinusEqual,
    LeftEqual,
    RightEqual,
    AndEqual,
    CaretEqual,
    BarEqual,
    Comma,
}

/// The keywords of the language (C89, 3.1.1).
#[derive(Clone, Copy, Debug, PartialEq, Eq)]
pub enum Key {
    Break,
    Case,
    Char,
    Const,
    Continue,
    Default,
    Do,
    Else,
    Enum,
    For,
    If,
    Int,
    Long,
    Return,
    Short,
    Signed,
    Sizeof,
    Static,
    Struct,
    Switch,
    Unsigned,
    Void,
    While,
}

/// The words of probes: `__atac_program`, `__atac_block` and so on.
#[derive(Clone, Copy, Debug, PartialEq, Eq)]
pub enum ProbeWord {
    Program,
    Block,
    Test,
    Select,
    Use,
    Def,
}

/// What a token is: a word or a number as spelled, a character by its byte, a string by its bytes, a mark, a keyword
/// or a probe word.
#[derive(Drop)]
pub enum TokenKind {
    Word(Text),
    Number(Text),
    Char(u8),
    Str(Text),
    Mark(Mark),
    Key(Key),
    Probe(ProbeWord),
}

/// A token, with the place of its first byte; a token from a macro has the place of the macro's use.
#[derive(Drop)]
pub struct Token {
    pub kind: TokenKind,
    pub pos: Pos,
}
