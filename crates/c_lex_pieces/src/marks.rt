//! The longest mark at the front (C89, 3.1.5 and 3.1.6).

ghost use Rattle.std.specs.Prelude.{◌≡◌, ◌≤◌, [], ◌∷◌, length};
ghost use Rattle.c_lex_pieces.specs.Marks.{mark_bytes, mark_front};

use c_syntax::token::Mark;

/// The longest mark that begins with these bytes; a byte behind the text's end is 0.
pub(crate) fn longest_mark(first: u8, second: u8, third: u8) -> Option<Mark>
    ensures { result ≡ mark_front (first ∷ second ∷ third ∷ []) }
{
    let mark = match (first, second) {
        (b'<', b'<') => if third == b'=' {
            Mark::LeftEqual
        } else {
            Mark::ShiftLeft
        },
        (b'>', b'>') => if third == b'=' {
            Mark::RightEqual
        } else {
            Mark::ShiftRight
        },
        (b'-', b'>') => Mark::Arrow,
        (b'+', b'+') => Mark::PlusPlus,
        (b'-', b'-') => Mark::MinusMinus,
        (b'<', b'=') => Mark::LessEqual,
        (b'>', b'=') => Mark::GreaterEqual,
        (b'=', b'=') => Mark::EqualEqual,
        (b'!', b'=') => Mark::NotEqual,
        (b'&', b'&') => Mark::AndAnd,
        (b'|', b'|') => Mark::OrOr,
        (b'*', b'=') => Mark::StarEqual,
        (b'/', b'=') => Mark::SlashEqual,
        (b'%', b'=') => Mark::PercentEqual,
        (b'+', b'=') => Mark::PlusEqual,
        (b'-', b'=') => Mark::MinusEqual,
        (b'&', b'=') => Mark::AndEqual,
        (b'^', b'=') => Mark::CaretEqual,
        (b'|', b'=') => Mark::BarEqual,
        (b'[', _) => Mark::LeftBracket,
        (b']', _) => Mark::RightBracket,
        (b'(', _) => Mark::LeftParen,
        (b')', _) => Mark::RightParen,
        (b'{', _) => Mark::LeftBrace,
        (b'}', _) => Mark::RightBrace,
        (b'.', _) => Mark::Dot,
        (b'&', _) => Mark::Ampersand,
        (b'*', _) => Mark::Star,
        (b'+', _) => Mark::Plus,
        (b'-', _) => Mark::Minus,
        (b'~', _) => Mark::Tilde,
        (b'!', _) => Mark::Bang,
        (b'/', _) => Mark::Slash,
        (b'%', _) => Mark::Percent,
        (b'<', _) => Mark::Less,
        (b'>', _) => Mark::Greater,
        (b'^', _) => Mark::Caret,
        (b'|', _) => Mark::Bar,
        (b'?', _) => Mark::Question,
        (b':', _) => Mark::Colon,
        (b';', _) => Mark::Semicolon,
        (b'=', _) => Mark::Equal,
        (b',', _) => Mark::Comma,
        _ => return None,
    };
    Some(mark)
}

/// How many bytes a mark has.
pub(crate) fn size_of(mark: Mark) -> usize
    ensures size { result ≡ length (mark_bytes mark) }
    ensures some { 1 ≤ result }
{
    match mark {
        Mark::LeftEqual | Mark::RightEqual => 3,
        Mark::Arrow | Mark::PlusPlus | Mark::MinusMinus | Mark::ShiftLeft | Mark::ShiftRight => 2,
        Mark::LessEqual | Mark::GreaterEqual | Mark::EqualEqual | Mark::NotEqual => 2,
        Mark::AndAnd | Mark::OrOr | Mark::StarEqual | Mark::SlashEqual | Mark::PercentEqual => 2,
        Mark::PlusEqual | Mark::MinusEqual | Mark::AndEqual | Mark::CaretEqual | Mark::BarEqual =>
            2,
        _ => 1,
    }
}
