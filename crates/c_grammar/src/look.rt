//! What stands at the front of the tokens.

ghost use Rattle.std.specs.Prelude.{◌≡◌, ◌<◌, length, Some, None, Bool, IfSome, MatchOption};
ghost use Rattle.c_base.specs.declared.place.Pos.{Pos};
ghost use Rattle.c_syntax.specs.Forms.{place};
ghost use Rattle.c_syntax.specs.Shape.{InitShapes, listed};
ghost use Rattle.c_grammar.specs.Look.{after, after_key, after_probe, a_number, a_string, a_word, got};
ghost use Rattle.c_grammar.specs.Starts.{mark_oper, an_oper, no_oper, sign, a_sign, no_sign, start, no_start, spec_head, no_spec, is_spec, type_ahead};
ghost use Rattle.c_grammar.specs.Reader.{further, void_ahead, listed_end};
ghost use Rattle.c_grammar.specs.ExprReader.{numbered, type_behind};
ghost use Rattle.c_grammar.specs.CodeView.{oper_of, start_of, spec_start_of, prefix_of};

use c_base::place::Pos;
use c_syntax::text::Text;
use c_syntax::token::{Key, Mark, ProbeWord, Token, TokenKind};
use c_syntax::tree::{BinaryOp, UnaryOp};

/// Why reading stops.
#[derive(Clone, Copy, Debug, PartialEq, Eq)]
pub enum Stop {
    Syntax,
    NoMemory,
}

/// The most levels of a tree.
pub const MOST_LEVELS: u32 = 400;

/// The most probes round a part of a tree: four at each level.
pub const MOST_PROBES: u32 = 1600;

/// Where a declarator stands: among the fields of a member list, among other names, or in a parameter list.
#[derive(Clone, Copy, Debug, PartialEq, Eq)]
pub enum Standing {
    Members,
    Names,
    Params,
}

/// `++` or `--`.
#[derive(Clone, Copy, Debug, PartialEq, Eq)]
pub enum Step {
    Up,
    Down,
}

/// An operator in front of its operand.
#[derive(Clone, Copy, Debug, PartialEq, Eq)]
pub enum Prefix {
    Unary(UnaryOp),
    Before(Step),
    SizeOf,
}

/// An operator between two operands.
#[derive(Clone, Copy, Debug, PartialEq, Eq)]
pub enum Infix {
    Plain(BinaryOp),
    And,
    Or,
    Assign(Option<BinaryOp>),
    Comma,
}

/// `.` or `->`.
#[derive(Clone, Copy, Debug, PartialEq, Eq)]
pub enum Access {
    Dot,
    Arrow,
}

/// An operator behind its first operand, and the parenthesis that would make a call of a name.
#[derive(Clone, Copy, Debug, PartialEq, Eq)]
pub enum Operator {
    Infix(Infix),
    Question,
    Bracket,
    Field(Access),
    Step(Step),
    Paren,
}

/// A probe with no case constants.
#[derive(Clone, Copy, Debug, PartialEq, Eq)]
pub enum Probing {
    Block,
    Test,
    Use,
    Def,
}

/// How an expression begins.
#[derive(Clone, Copy)]
pub enum Start<'a> {
    Number(&'a Text),
    Char(u8),
    Str(&'a Text),
    Name(&'a Text),
    Prefix(Prefix),
    Paren,
    Simple(Probing),
    Select,
}

/// The place of the first token; 1:1 where there is none.
pub fn first_place(input: &[Token]) -> Pos
    ensures { result ≡ place input.now }
{
    match input.split_first() {
        Some((first, _)) => first.pos,
        None => Pos { line: 1, col: 1 },
    }
}

/// What follows this mark, where the tokens begin with it.
#[tactic(auto, using(crate::proofs::Looking::after_yes, crate::proofs::Looking::after_no))]
pub fn past(input: &[Token], mark: Mark) -> Option<&[Token]>
    ensures found { MatchOption result (after mark input.now ≡ None) (λ r. after mark input.now ≡ Some r.now) }
    ensures shorter { IfSome result (λ r. length r.now < length input.now) }
{
    if let Some((first, rest)) = input.split_first() {
        if let TokenKind::Mark(found) = &first.kind {
            if *found == mark {
                return Some(rest);
            }
        }
    }
    None
}

/// What follows this keyword, where the tokens begin with it.
#[tactic(auto, using(crate::proofs::Looking::after_key_yes, crate::proofs::Looking::after_key_no))]
pub fn past_key(input: &[Token], key: Key) -> Option<&[Token]>
    ensures found { MatchOption result (after_key key input.now ≡ None) (λ r. after_key key input.now ≡ Some r.now) }
    ensures shorter { IfSome result (λ r. length r.now < length input.now) }
{
    if let Some((first, rest)) = input.split_first() {
        if let TokenKind::Key(found) = &first.kind {
            if *found == key {
                return Some(rest);
            }
        }
    }
    None
}

/// What follows this probe word, where the tokens begin with it.
#[tactic(auto, using(crate::proofs::Looking::after_probe_yes, crate::proofs::Looking::after_probe_no))]
pub fn past_probe(input: &[Token], word: ProbeWord) -> Option<&[Token]>
    ensures found { MatchOption result (after_probe word input.now ≡ None) (λ r. after_probe word input.now ≡ Some r.now) }
    ensures shorter { IfSome result (λ r. length r.now < length input.now) }
{
    if let Some((first, rest)) = input.split_first() {
        if let TokenKind::Probe(found) = &first.kind {
            if *found == word {
                return Some(rest);
            }
        }
    }
    None
}

/// A number at the front, and what follows it.
pub fn find_number(input: &[Token]) -> Option<(&Text, &[Token])>
    ensures found { MatchOption result (a_number input.now ≡ None) (λ p. a_number input.now ≡ got p.0.now p.1.now) }
    ensures shorter { IfSome result (λ p. length p.1.now < length input.now) }
{
    let (first, rest) = input.split_first()?;
    match &first.kind {
        TokenKind::Number(text) => Some((text, rest)),
        _ => None,
    }
}

/// A string at the front, and what follows it.
pub fn find_string(input: &[Token]) -> Option<(&Text, &[Token])>
    ensures found { MatchOption result (a_string input.now ≡ None) (λ p. a_string input.now ≡ got p.0.now p.1.now) }
    ensures shorter { IfSome result (λ p. length p.1.now < length input.now) }
{
    let (first, rest) = input.split_first()?;
    match &first.kind {
        TokenKind::Str(text) => Some((text, rest)),
        _ => None,
    }
}

/// A word at the front, and what follows it.
pub fn find_word(input: &[Token]) -> Option<(&Text, &[Token])>
    ensures found { MatchOption result (a_word input.now ≡ None) (λ p. a_word input.now ≡ got p.0.now p.1.now) }
    ensures shorter { IfSome result (λ p. length p.1.now < length input.now) }
{
    let (first, rest) = input.split_first()?;
    match &first.kind {
        TokenKind::Word(text) => Some((text, rest)),
        _ => None,
    }
}

// The operator that a mark is behind an operand.
fn operator_of(mark: Mark) -> Option<Operator>
    ensures { MatchOption result (mark_oper mark ≡ no_oper) (λ o. mark_oper mark ≡ an_oper (oper_of o)) }
{
    let infix = match mark {
        Mark::Question => return Some(Operator::Question),
        Mark::LeftBracket => return Some(Operator::Bracket),
        Mark::Dot => return Some(Operator::Field(Access::Dot)),
        Mark::Arrow => return Some(Operator::Field(Access::Arrow)),
        Mark::PlusPlus => return Some(Operator::Step(Step::Up)),
        Mark::MinusMinus => return Some(Operator::Step(Step::Down)),
        Mark::LeftParen => return Some(Operator::Paren),
        Mark::Ampersand => Infix::Plain(BinaryOp::BitAnd),
        Mark::Star => Infix::Plain(BinaryOp::Mul),
        Mark::Plus => Infix::Plain(BinaryOp::Add),
        Mark::Minus => Infix::Plain(BinaryOp::Sub),
        Mark::Slash => Infix::Plain(BinaryOp::Div),
        Mark::Percent => Infix::Plain(BinaryOp::Rem),
        Mark::ShiftLeft => Infix::Plain(BinaryOp::Shl),
        Mark::ShiftRight => Infix::Plain(BinaryOp::Shr),
        Mark::Less => Infix::Plain(BinaryOp::Lt),
        Mark::Greater => Infix::Plain(BinaryOp::Gt),
        Mark::LessEqual => Infix::Plain(BinaryOp::Le),
        Mark::GreaterEqual => Infix::Plain(BinaryOp::Ge),
        Mark::EqualEqual => Infix::Plain(BinaryOp::Eq),
        Mark::NotEqual => Infix::Plain(BinaryOp::Ne),
        Mark::Caret => Infix::Plain(BinaryOp::BitXor),
        Mark::Bar => Infix::Plain(BinaryOp::BitOr),
        Mark::AndAnd => Infix::And,
        Mark::OrOr => Infix::Or,
        Mark::Equal => Infix::Assign(None),
        Mark::StarEqual => Infix::Assign(Some(BinaryOp::Mul)),
        Mark::SlashEqual => Infix::Assign(Some(BinaryOp::Div)),
        Mark::PercentEqual => Infix::Assign(Some(BinaryOp::Rem)),
        Mark::PlusEqual => Infix::Assign(Some(BinaryOp::Add)),
        Mark::MinusEqual => Infix::Assign(Some(BinaryOp::Sub)),
        Mark::LeftEqual => Infix::Assign(Some(BinaryOp::Shl)),
        Mark::RightEqual => Infix::Assign(Some(BinaryOp::Shr)),
        Mark::AndEqual => Infix::Assign(Some(BinaryOp::BitAnd)),
        Mark::CaretEqual => Infix::Assign(Some(BinaryOp::BitXor)),
        Mark::BarEqual => Infix::Assign(Some(BinaryOp::BitOr)),
        Mark::Comma => Infix::Comma,
        _ => return None,
    };
    Some(Operator::Infix(infix))
}

/// An operator at the front, and what follows it.
pub fn find_operator(input: &[Token]) -> Option<(Operator, &[Token])>
    ensures found { MatchOption result (sign input.now ≡ no_sign) (λ p. sign input.now ≡ a_sign (oper_of p.0) p.1.now) }
    ensures shorter { IfSome result (λ p. length p.1.now < length input.now) }
{
    let (first, rest) = input.split_first()?;
    match &first.kind {
        TokenKind::Mark(mark) => Some((operator_of(*mark)?, rest)),
        _ => None,
    }
}

/// How an expression begins at the front, and what follows its first token.
pub fn find_start(input: &[Token]) -> Option<(Start, &[Token])>
    ensures found { MatchOption result (start input.now ≡ no_start) (λ p. start input.now ≡ start_of p.0 p.1.now) }
    ensures shorter { IfSome result (λ p. length p.1.now < length input.now) }
{
    let (first, rest) = input.split_first()?;
    let begin = match &first.kind {
        TokenKind::Word(text) => Start::Name(text),
        TokenKind::Number(text) => Start::Number(text),
        TokenKind::Char(byte) => Start::Char(*byte),
        TokenKind::Str(text) => Start::Str(text),
        TokenKind::Mark(Mark::LeftParen) => Start::Paren,
        TokenKind::Mark(Mark::Ampersand) => Start::Prefix(Prefix::Unary(UnaryOp::AddressOf)),
        TokenKind::Mark(Mark::Star) => Start::Prefix(Prefix::Unary(UnaryOp::Deref)),
        TokenKind::Mark(Mark::Plus) => Start::Prefix(Prefix::Unary(UnaryOp::Plus)),
        TokenKind::Mark(Mark::Minus) => Start::Prefix(Prefix::Unary(UnaryOp::Minus)),
        TokenKind::Mark(Mark::Tilde) => Start::Prefix(Prefix::Unary(UnaryOp::Flip)),
        TokenKind::Mark(Mark::Bang) => Start::Prefix(Prefix::Unary(UnaryOp::Not)),
        TokenKind::Mark(Mark::PlusPlus) => Start::Prefix(Prefix::Before(Step::Up)),
        TokenKind::Mark(Mark::MinusMinus) => Start::Prefix(Prefix::Before(Step::Down)),
        TokenKind::Mark(_) => return None,
        TokenKind::Key(Key::Sizeof) => Start::Prefix(Prefix::SizeOf),
        TokenKind::Key(_) => return None,
        TokenKind::Probe(ProbeWord::Program) => return None,
        TokenKind::Probe(ProbeWord::Block) => Start::Simple(Probing::Block),
        TokenKind::Probe(ProbeWord::Test) => Start::Simple(Probing::Test),
        TokenKind::Probe(ProbeWord::Select) => Start::Select,
        TokenKind::Probe(ProbeWord::Use) => Start::Simple(Probing::Use),
        TokenKind::Probe(ProbeWord::Def) => Start::Simple(Probing::Def),
    };
    Some((begin, rest))
}

/// How a specifier begins.
#[derive(Clone, Copy, Debug, PartialEq, Eq)]
pub enum SpecStart {
    Word(Key),
    Struct,
    Enum,
}

/// How a specifier begins at the front, and what follows its first token.
pub fn find_spec(input: &[Token]) -> Option<(SpecStart, &[Token])>
    ensures found { MatchOption result (spec_head input.now ≡ no_spec) (λ p. spec_head input.now ≡ spec_start_of p.0 p.1.now) }
    ensures shorter { IfSome result (λ p. length p.1.now < length input.now) }
{
    let (first, rest) = input.split_first()?;
    match &first.kind {
        TokenKind::Key(key) => match key {
            Key::Struct => Some((SpecStart::Struct, rest)),
            Key::Enum => Some((SpecStart::Enum, rest)),
            Key::Char
            | Key::Const
            | Key::Int
            | Key::Long
            | Key::Short
            | Key::Signed
            | Key::Static
            | Key::Unsigned
            | Key::Void => Some((SpecStart::Word(*key), rest)),
            _ => None,
        },
        _ => None,
    }
}

/// A specifier stands at the front.
pub fn at_spec(input: &[Token]) -> bool
    ensures { result ≡ is_spec (spec_head input.now) }
{
    find_spec(input).is_some()
}

/// What follows `(`, where a type name follows it.
pub fn past_type(input: &[Token]) -> Option<&[Token]>
    ensures found { MatchOption result (type_ahead input.now ≡ None) (λ r. type_ahead input.now ≡ Some r.now) }
    ensures shorter { IfSome result (λ r. length r.now < length input.now) }
{
    let inside = past(input, Mark::LeftParen)?;
    if at_spec(inside) { Some(inside) } else { None }
}

/// A number behind `(`, and what follows it.
pub fn find_numbered(input: &[Token]) -> Option<(&Text, &[Token])>
    ensures found { MatchOption result (numbered input.now ≡ None) (λ p. numbered input.now ≡ got p.0.now p.1.now) }
    ensures shorter { IfSome result (λ p. length p.1.now < length input.now) }
{
    find_number(past(input, Mark::LeftParen)?)
}

/// What follows a comma, where no closing brace follows it.
pub fn past_further(input: &[Token]) -> Option<&[Token]>
    ensures found { MatchOption result (further input.now ≡ None) (λ r. further input.now ≡ Some r.now) }
    ensures shorter { IfSome result (λ r. length r.now < length input.now) }
{
    let inside = past(input, Mark::Comma)?;
    match past(inside, Mark::RightBrace) {
        Some(_) => None,
        None => Some(inside),
    }
}

/// What follows `void )`.
pub fn past_void(input: &[Token]) -> Option<&[Token]>
    ensures found { MatchOption result (void_ahead input.now ≡ None) (λ r. void_ahead input.now ≡ Some r.now) }
    ensures shorter { IfSome result (λ r. length r.now < length input.now) }
{
    past(past_key(input, Key::Void)?, Mark::RightParen)
}

/// What stands behind an operator in front of its operand, where this is `sizeof` and a type name in parentheses.
pub fn past_size(op: Prefix, behind: &[Token]) -> Option<&[Token]>
    ensures found { MatchOption result (type_behind (prefix_of op) behind.now ≡ None) (λ r. type_behind (prefix_of op) behind.now ≡ Some r.now) }
    ensures shorter { IfSome result (λ r. length r.now < length behind.now) }
{
    match op {
        Prefix::SizeOf => past_type(behind),
        Prefix::Unary(_) | Prefix::Before(_) => None,
    }
}

/// What follows the closing brace of a list, and whether a comma stands before it.
#[tactic(auto, using(crate::proofs::DeclSteps::end_comma, crate::proofs::DeclSteps::end_comma_open, crate::proofs::DeclSteps::end_plain, crate::proofs::DeclSteps::end_open))]
pub fn past_list(input: &[Token]) -> Option<(bool, &[Token])>
    ensures found { MatchOption result ((p : Pos) (l : InitShapes) → listed_end p l input.now ≡ None) (λ r. (p : Pos) (l : InitShapes) → listed_end p l input.now ≡ Some (listed p l r.0, r.1.now)) }
    ensures shorter { IfSome result (λ r. length r.1.now < length input.now) }
{
    match past(input, Mark::Comma) {
        Some(behind) => Some((true, past(behind, Mark::RightBrace)?)),
        None => Some((false, past(input, Mark::RightBrace)?)),
    }
}
