//! Syntax trees.

use crate::text::Text;
use crate::token::Key;
use c_base::place::{IntKind, Pos};

/// A type (C89, 3.1.2.5): an array with its length, a structure by its number.
#[derive(Drop)]
pub enum CType {
    Int(IntKind),
    Pointer(Box<CType>),
    Array(Box<CType>, u32),
    Struct(u32),
    Void,
}

/// What is known of an expression: nothing yet; its type, and the number of the variable, function or literal that it
/// names, where it names one; or its type and its value.
#[derive(Drop)]
pub enum Note {
    Bare,
    Typed(CType, Option<u32>),
    Known(CType, i128),
}

/// The operators in front of one operand (C89, 3.3.3), but for the steps.
#[derive(Clone, Copy, Debug, PartialEq, Eq)]
pub enum UnaryOp {
    AddressOf,
    Deref,
    Plus,
    Minus,
    Flip,
    Not,
}

/// The steps `++` and `--`, before and behind their operand (C89, 3.3.2.4 and 3.3.3.1).
#[derive(Clone, Copy, Debug, PartialEq, Eq)]
pub enum StepOp {
    PreInc,
    PreDec,
    PostInc,
    PostDec,
}

/// The operators between two operands that are both evaluated (C89, 3.3.5 to 3.3.12).
#[derive(Clone, Copy, Debug, PartialEq, Eq)]
pub enum BinaryOp {
    Mul,
    Div,
    Rem,
    Add,
    Sub,
    Shl,
    Shr,
    Lt,
    Gt,
    Le,
    Ge,
    Eq,
    Ne,
    BitAnd,
    BitXor,
    BitOr,
}

/// A block probe before a statement or a function's body, or the probe round a declared name, with the probe's number
/// as spelled and the place of the probe word.
#[derive(Drop)]
pub struct ProbeMark {
    pub pos: Pos,
    pub number: Text,
}

/// A name where it is declared, with its own place, and the probe round it, where there is one.
#[derive(Drop)]
pub struct Named {
    pub pos: Pos,
    pub text: Text,
    pub probe: Option<ProbeMark>,
}

/// A `*` of a declarator or type name, and how many keys `const` stand behind it (C89, 3.5.4.1).
#[derive(Drop)]
pub struct Star {
    pub pos: Pos,
    pub consts: u32,
}

/// An expression, with the places of its first token and of its operator; where it has no operator, twice its first
/// token's.
#[derive(Drop)]
#[cycle(tree)]
pub struct Node {
    pub pos: Pos,
    pub op: Pos,
    pub note: Note,
    pub form: Expr,
}

/// The forms of expressions (C89, 3.3). A field has its name's place with it.
#[derive(Drop)]
#[cycle(tree)]
pub enum Expr {
    Number(Text),
    Char(u8),
    Str(Text),
    Name(Text),
    Paren(Box<Node>),
    Index(Box<Node>, Box<Node>),
    Member(Box<Node>, Text, Pos),
    Arrow(Box<Node>, Text, Pos),
    Call(Text, Vec<Node>),
    Unary(UnaryOp, Box<Node>),
    Step(StepOp, Box<Node>),
    SizeOf(Box<Node>),
    SizeOfType(TypeName),
    Cast(TypeName, Box<Node>),
    Binary(BinaryOp, Box<Node>, Box<Node>),
    And(Box<Node>, Box<Node>),
    Or(Box<Node>, Box<Node>),
    Cond(Box<Node>, Box<Node>, Box<Node>),
    Assign(Option<BinaryOp>, Box<Node>, Box<Node>),
    Comma(Box<Node>, Box<Node>),
    Probe(ExprProbe, Box<Node>),
}

/// A probe round an expression, with its number as spelled; a select's case constants.
#[derive(Drop)]
#[cycle(tree)]
pub enum ExprProbe {
    Block(Text),
    Test(Text),
    Select(Text, Vec<Node>),
    Use(Text),
    Def(Text),
}

/// A type name (C89, 3.5.5).
#[derive(Drop)]
#[cycle(tree)]
pub struct TypeName {
    pub pos: Pos,
    pub specs: Vec<Spec>,
    pub stars: Vec<Star>,
    pub lengths: Vec<Node>,
}

/// One of the specifiers of a declaration (C89, 3.5).
#[derive(Drop)]
#[cycle(tree)]
pub struct Spec {
    pub pos: Pos,
    pub form: SpecForm,
}

/// The forms of specifiers: a keyword; a structure with its tag and member list, an enumeration with its tag and
/// enumerators, each with one of the two at least (C89, 3.5.2).
#[derive(Drop)]
#[cycle(tree)]
pub enum SpecForm {
    Plain(Key),
    Struct(Option<Named>, Option<Vec<Decl>>),
    Enum(Option<Named>, Option<Vec<Enumer>>),
}

/// An enumeration constant (C89, 3.5.2.2).
#[derive(Drop)]
#[cycle(tree)]
pub struct Enumer {
    pub name: Named,
    pub value: Option<Node>,
}

/// A declaration, or a line of a member list (C89, 3.5 and 3.5.2.1).
#[derive(Drop)]
#[cycle(tree)]
pub struct Decl {
    pub pos: Pos,
    pub specs: Vec<Spec>,
    pub names: Vec<Declarator>,
}

/// A declarator with its initialiser (C89, 3.5.4).
#[derive(Drop)]
#[cycle(tree)]
pub struct Declarator {
    pub stars: Vec<Star>,
    pub name: Option<Named>,
    pub form: DeclForm,
    pub init: Option<Init>,
}

/// What stands behind a declared name: array lengths, none for a plain variable, or parameters.
#[derive(Drop)]
#[cycle(tree)]
pub enum DeclForm {
    Arrays(Vec<Option<Node>>),
    Function(Params),
}

/// The parameters of a function: `( )`, `( void )`, or a list.
#[derive(Drop)]
#[cycle(tree)]
pub enum Params {
    Empty,
    Void,
    List(Vec<Param>),
}

/// A parameter.
#[derive(Drop)]
#[cycle(tree)]
pub struct Param {
    pub pos: Pos,
    pub specs: Vec<Spec>,
    pub name: Declarator,
}

/// An initialiser: an expression, or a list in braces, which says whether a comma stands before the closing brace
/// (C89, 3.5.7).
#[derive(Drop)]
#[cycle(tree)]
pub enum Init {
    One(Node),
    List(Pos, Vec<Init>, bool),
}

/// A compound statement (C89, 3.6.2).
#[derive(Drop)]
#[cycle(statements)]
pub struct Compound {
    pub pos: Pos,
    pub decls: Vec<Decl>,
    pub items: Vec<Item>,
}

/// A statement in a list, with its labels.
#[derive(Drop)]
#[cycle(statements)]
pub struct Item {
    pub labels: Vec<Label>,
    pub stmt: Stmt,
}

/// A label of a `switch`, with its key's place (C89, 3.6.1).
#[derive(Drop)]
pub enum Label {
    Case(Pos, Node),
    Default(Pos),
}

/// A statement with the block probes in front of it: the place of its first token, and that of the first behind its
/// probes.
#[derive(Drop)]
#[cycle(statements)]
pub struct Stmt {
    pub pos: Pos,
    pub probes: Vec<ProbeMark>,
    pub at: Pos,
    pub form: StmtForm,
}

/// The forms of statements (C89, 3.6).
#[derive(Drop)]
#[cycle(statements)]
pub enum StmtForm {
    Compound(Compound),
    Plain(Option<Node>),
    If(Node, Box<Stmt>, Option<Box<Stmt>>),
    While(Node, Box<Stmt>),
    Do(Box<Stmt>, Node),
    For(Option<Node>, Option<Node>, Option<Node>, Box<Stmt>),
    Switch(Node, Vec<Item>),
    Break,
    Continue,
    Return(Option<Node>),
}

/// The first line of a text with probes: the digest of the program without them.
#[derive(Drop)]
pub struct ProgramLine {
    pub pos: Pos,
    pub digest: Text,
}

/// An external declaration (C89, 3.7): a function with the block probes before its body, or a declaration.
#[derive(Drop)]
pub enum External {
    Function(Vec<Spec>, Declarator, Vec<ProbeMark>, Compound),
    Plain(Decl),
}

/// A translation unit, with the places of its first and last token (C89, 3.7).
#[derive(Drop)]
pub struct Unit {
    pub pos: Pos,
    pub line: Option<ProgramLine>,
    pub externals: Vec<External>,
    pub last: Pos,
}
