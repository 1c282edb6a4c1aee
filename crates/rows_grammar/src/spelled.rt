// Operators, keywords and texts as they are spelled.

use c_syntax::text::Text;
use c_syntax::token::Key;
use c_syntax::tree::{BinaryOp, UnaryOp};
use std::alloc::AllocError;

pub fn put_text(out: &mut String, text: &Text) -> Result<(), AllocError> {
    for byte in text.bytes() {
        put_byte(out, *byte)?;
    }
    Ok(())
}

/// A byte, or `\` and its number where it is no printing one.
pub fn put_byte(out: &mut String, byte: u8) -> Result<(), AllocError> {
    if byte >= 32 && byte < 127 {
        out.push(byte as char)
    } else {
        out.push('\\')?;
        out.push((b'0' + byte / 64) as char)?;
        out.push((b'0' + byte / 8 % 8) as char)?;
        out.push((b'0' + byte % 8) as char)
    }
}

pub fn unary_mark(op: UnaryOp) -> &'static str {
    match op {
        UnaryOp::AddressOf => "&",
        UnaryOp::Deref => "*",
        UnaryOp::Plus => "+",
        UnaryOp::Minus => "-",
        UnaryOp::Flip => "~",
        UnaryOp::Not => "!",
    }
}

pub fn binary_mark(op: BinaryOp) -> &'static str {
    match op {
        BinaryOp::Mul => "*",
        BinaryOp::Div => "/",
        BinaryOp::Rem => "%",
        BinaryOp::Add => "+",
        BinaryOp::Sub => "-",
        BinaryOp::Shl => "<<",
        BinaryOp::Shr => ">>",
        BinaryOp::Lt => "<",
        BinaryOp::Gt => ">",
        BinaryOp::Le => "<=",
        BinaryOp::Ge => ">=",
        BinaryOp::Eq => "==",
        BinaryOp::Ne => "!=",
        BinaryOp::BitAnd => "&",
        BinaryOp::BitXor => "^",
        BinaryOp::BitOr => "|",
    }
}

/// The keywords that can be specifiers.
pub fn key_word(key: Key) -> &'static str {
    match key {
        Key::Char => "char",
        Key::Const => "const",
        Key::Int => "int",
        Key::Long => "long",
        Key::Short => "short",
        Key::Signed => "signed",
        Key::Static => "static",
        Key::Unsigned => "unsigned",
        Key::Void => "void",
        _ => "?",
    }
}
