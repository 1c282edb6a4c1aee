// Expressions, types and declarations written back as tokens.

ghost use Rattle.std.specs.Prelude.{◌≡◌, ◌++◌, OnOk};
ghost use Rattle.c_syntax.specs.declared.token.TokenKind.{TokenKind};
ghost use Rattle.c_syntax.specs.declared.token.Mark.{Mark};
ghost use Rattle.c_syntax.specs.declared.tree.Enumer.{out-Enumer};
ghost use Rattle.c_syntax.specs.Forms.{kinds, is, mark, ◌▷◌};
ghost use Rattle.c_syntax.specs.Shape.{members, rows};
ghost use Rattle.c_syntax.specs.View.{node_shape, probe_shape, node_list, maybe_node, type_shape, type_lengths_list, spec_shape, spec_list, decl_shape, decl_list, enumer_list, declarator_shape, declarator_list, decl_form_shape, lengths_list, params_shape, param_shape, param_list, init_shape, init_list};
ghost use Rattle.c_syntax.specs.Grammar.{in_parens, named_form, comma_form, node_form, nodes_form, led_nodes_form, lengths_form, type_form, specs_form, spec_form, members_form, rows_form, enumers_form, value_form, decls_form, decl_form, declarators_form, declarator_form, behind_form, params_form, param_list_form, param_form, init_form, inits_form};
ghost use Rattle.c_syntax.specs.Fronts.{front_form};

use crate::text::Text;
use crate::token::{Key, Mark, ProbeWord, TokenKind};
use crate::tree::{
    Decl, DeclForm, Declarator, Enumer, Expr, ExprProbe, Init, Node, Param, Params, Spec, SpecForm,
    StepOp, TypeName,
};
use crate::words::{
    assign_mark_of, mark_of, put_comma, put_maybe_named, put_named, put_stars, unary_mark_of,
};
use crate::writer::Writer;
use c_base::place::NoMemory;

/// Writes an expression (C89, 3.3).
#[cycle(phrase)]
pub fn put_node(out: &mut Writer, node: &Node) -> Result<(), NoMemory>
    ensures { OnOk result (out.new ≡ out.old ++ kinds (node_form (node_shape node.now))) }
{
    match &node.form {
        Expr::Number(text) => out.number(text),
        Expr::Char(byte) => out.put(TokenKind::Char(*byte)),
        Expr::Str(text) => out.string(text),
        Expr::Name(text) => out.word(text),
        Expr::Paren(a) => put_parens(out, a),
        Expr::Index(a, b) => {
            put_before(out, a, Mark::LeftBracket)?;
            put_before(out, b, Mark::RightBracket)
        }
        Expr::Member(a, name, _) => {
            put_before(out, a, Mark::Dot)?;
            out.word(name)
        }
        Expr::Arrow(a, name, _) => {
            put_before(out, a, Mark::Arrow)?;
            out.word(name)
        }
        Expr::Call(name, args) => put_call(out, name, args),
        Expr::Unary(op, a) => put_behind(out, unary_mark_of(*op), a),
        Expr::Step(op, a) => match op {
            StepOp::PreInc => put_behind(out, Mark::PlusPlus, a),
            StepOp::PreDec => put_behind(out, Mark::MinusMinus, a),
            StepOp::PostInc => put_before(out, a, Mark::PlusPlus),
            StepOp::PostDec => put_before(out, a, Mark::MinusMinus),
        },
        Expr::SizeOf(a) => {
            out.key(Key::Sizeof)?;
            put_node(out, a)
        }
        Expr::SizeOfType(name) => {
            out.key(Key::Sizeof)?;
            put_type_parens(out, name)
        }
        Expr::Cast(name, a) => {
            put_type_parens(out, name)?;
            put_node(out, a)
        }
        Expr::Binary(op, a, b) => {
            put_before(out, a, mark_of(*op))?;
            put_node(out, b)
        }
        Expr::And(a, b) => {
            put_before(out, a, Mark::AndAnd)?;
            put_node(out, b)
        }
        Expr::Or(a, b) => {
            put_before(out, a, Mark::OrOr)?;
            put_node(out, b)
        }
        Expr::Cond(a, b, c) => {
            put_before(out, a, Mark::Question)?;
            put_before(out, b, Mark::Colon)?;
            put_node(out, c)
        }
        Expr::Assign(op, a, b) => {
            put_before(out, a, assign_mark_of(*op))?;
            put_node(out, b)
        }
        Expr::Comma(a, b) => {
            put_before(out, a, Mark::Comma)?;
            put_node(out, b)
        }
        Expr::Probe(probe, a) => {
            put_front(out, probe)?;
            put_before(out, a, Mark::RightParen)
        }
    }
}

// An expression, and a mark behind it.
#[cycle(phrase)]
fn put_before(out: &mut Writer, node: &Node, sign: Mark) -> Result<(), NoMemory>
    ensures { OnOk result (out.new ≡ out.old ++ kinds (node_form (node_shape node.now) ▷ mark sign)) }
{
    put_node(out, node)?;
    out.mark(sign)
}

// A mark, and an expression behind it.
#[cycle(phrase)]
fn put_behind(out: &mut Writer, sign: Mark, node: &Node) -> Result<(), NoMemory>
    ensures { OnOk result (out.new ≡ out.old ++ kinds (mark sign ▷ node_form (node_shape node.now))) }
{
    out.mark(sign)?;
    put_node(out, node)
}

/// Writes an expression in parentheses.
#[cycle(phrase)]
pub fn put_parens(out: &mut Writer, node: &Node) -> Result<(), NoMemory>
    ensures { OnOk result (out.new ≡ out.old ++ kinds (in_parens (node_form (node_shape node.now)))) }
{
    out.mark(Mark::LeftParen)?;
    put_before(out, node, Mark::RightParen)
}

#[cycle(phrase)]
fn put_call(out: &mut Writer, name: &Text, args: &[Node]) -> Result<(), NoMemory>
    ensures { OnOk result (out.new ≡ out.old ++ kinds (is (TokenKind.Word name.now) ▷ in_parens (nodes_form (node_list args.now)))) }
{
    out.word(name)?;
    out.mark(Mark::LeftParen)?;
    put_nodes(out, args)?;
    out.mark(Mark::RightParen)
}

#[cycle(phrase)]
fn put_nodes(out: &mut Writer, nodes: &[Node]) -> Result<(), NoMemory>
    ensures { OnOk result (out.new ≡ out.old ++ kinds (nodes_form (node_list nodes.now))) }
{
    match nodes {
        [] => Ok(()),
        [first, rest @ ..] => {
            put_node(out, first)?;
            for node in rest {
                put_behind(out, Mark::Comma, node)?;
            }
            Ok(())
        }
    }
}

// What stands in front of a probe's expression.
#[cycle(phrase)]
fn put_front(out: &mut Writer, probe: &ExprProbe) -> Result<(), NoMemory>
    ensures { OnOk result (out.new ≡ out.old ++ kinds (front_form (probe_shape probe.now))) }
{
    match probe {
        ExprProbe::Block(number) => put_numbered(out, ProbeWord::Block, number),
        ExprProbe::Test(number) => put_numbered(out, ProbeWord::Test, number),
        ExprProbe::Select(number, cases) => put_select(out, number, cases),
        ExprProbe::Use(number) => put_numbered(out, ProbeWord::Use, number),
        ExprProbe::Def(number) => put_numbered(out, ProbeWord::Def, number),
    }
}

fn put_numbered(out: &mut Writer, word: ProbeWord, number: &Text) -> Result<(), NoMemory>
    ensures { OnOk result (out.new ≡ out.old ++ kinds (is (TokenKind.Probe word) ▷ mark Mark.LeftParen ▷ is (TokenKind.Number number.now) ▷ mark Mark.Comma)) }
{
    out.probe(word)?;
    out.mark(Mark::LeftParen)?;
    out.number(number)?;
    out.mark(Mark::Comma)
}

#[cycle(phrase)]
fn put_select(out: &mut Writer, number: &Text, cases: &[Node]) -> Result<(), NoMemory>
    ensures { OnOk result (out.new ≡ out.old ++ kinds (is (TokenKind.Probe ProbeWord.Select) ▷ mark Mark.LeftParen ▷ is (TokenKind.Number number.now) ▷ led_nodes_form (node_list cases.now) ▷ mark Mark.Semicolon)) }
{
    out.probe(ProbeWord::Select)?;
    out.mark(Mark::LeftParen)?;
    out.number(number)?;
    for node in cases {
        put_behind(out, Mark::Comma, node)?;
    }
    out.mark(Mark::Semicolon)
}

// A type name in parentheses.
#[cycle(phrase)]
fn put_type_parens(out: &mut Writer, name: &TypeName) -> Result<(), NoMemory>
    ensures { OnOk result (out.new ≡ out.old ++ kinds (in_parens (type_form (type_shape name.now)))) }
{
    out.mark(Mark::LeftParen)?;
    put_type(out, name)?;
    out.mark(Mark::RightParen)
}

#[cycle(phrase)]
#[tactic(auto, using(std::proofs::lemmas::Grind::common_steps, crate::proofs::Open::type_open))]
fn put_type(out: &mut Writer, name: &TypeName) -> Result<(), NoMemory>
    ensures { OnOk result (out.new ≡ out.old ++ kinds (type_form (type_shape name.now))) }
{
    put_specs(out, &name.specs)?;
    put_stars(out, &name.stars)?;
    put_type_lengths(out, &name.lengths)
}

#[cycle(phrase)]
fn put_type_lengths(out: &mut Writer, nodes: &[Node]) -> Result<(), NoMemory>
    ensures { OnOk result (out.new ≡ out.old ++ kinds (lengths_form (type_lengths_list nodes.now))) }
{
    for node in nodes {
        out.mark(Mark::LeftBracket)?;
        put_before(out, node, Mark::RightBracket)?;
    }
    Ok(())
}

/// Writes the specifiers of a declaration (C89, 3.5).
#[cycle(phrase)]
pub fn put_specs(out: &mut Writer, specs: &[Spec]) -> Result<(), NoMemory>
    ensures { OnOk result (out.new ≡ out.old ++ kinds (specs_form (spec_list specs.now))) }
{
    for spec in specs {
        put_spec(out, &spec.form)?;
    }
    Ok(())
}

#[cycle(phrase)]
fn put_spec(out: &mut Writer, form: &SpecForm) -> Result<(), NoMemory>
    ensures { OnOk result (out.new ≡ out.old ++ kinds (spec_form (spec_shape form.now))) }
{
    match form {
        SpecForm::Plain(key) => out.key(*key),
        SpecForm::Struct(name, decls) => {
            out.key(Key::Struct)?;
            put_maybe_named(out, name)?;
            match decls {
                None => Ok(()),
                Some(decls) => put_members(out, decls),
            }
        }
        SpecForm::Enum(name, enumers) => {
            out.key(Key::Enum)?;
            put_maybe_named(out, name)?;
            match enumers {
                None => Ok(()),
                Some(enumers) => put_rows(out, enumers),
            }
        }
    }
}

#[cycle(phrase)]
fn put_members(out: &mut Writer, decls: &[Decl]) -> Result<(), NoMemory>
    ensures { OnOk result (out.new ≡ out.old ++ kinds (members_form (members (decl_list decls.now)))) }
{
    out.mark(Mark::LeftBrace)?;
    put_decls(out, decls)?;
    out.mark(Mark::RightBrace)
}

#[cycle(phrase)]
fn put_rows(out: &mut Writer, enumers: &[Enumer]) -> Result<(), NoMemory>
    ensures { OnOk result (out.new ≡ out.old ++ kinds (rows_form (rows (enumer_list enumers.now)))) }
{
    out.mark(Mark::LeftBrace)?;
    put_enumers(out, enumers)?;
    out.mark(Mark::RightBrace)
}

#[cycle(phrase)]
fn put_enumers(out: &mut Writer, enumers: &[Enumer]) -> Result<(), NoMemory>
    ensures { OnOk result (out.new ≡ out.old ++ kinds (enumers_form (enumer_list enumers.now))) }
{
    match enumers {
        [] => Ok(()),
        [first, rest @ ..] => {
            put_enumer(out, first)?;
            for row in rest {
                out.mark(Mark::Comma)?;
                put_enumer(out, row)?;
            }
            Ok(())
        }
    }
}

#[cycle(phrase)]
fn put_enumer(out: &mut Writer, row: &Enumer) -> Result<(), NoMemory>
    ensures { OnOk result (out.new ≡ out.old ++ kinds (named_form (out-Enumer row.now).name ▷ value_form (maybe_node (out-Enumer row.now).value))) }
{
    put_named(out, &row.name)?;
    match &row.value {
        None => Ok(()),
        Some(node) => put_behind(out, Mark::Equal, node),
    }
}

/// Writes the declarations of a body or a member list.
#[cycle(phrase)]
pub fn put_decls(out: &mut Writer, decls: &[Decl]) -> Result<(), NoMemory>
    ensures { OnOk result (out.new ≡ out.old ++ kinds (decls_form (decl_list decls.now))) }
{
    for decl in decls {
        put_decl(out, decl)?;
    }
    Ok(())
}

/// Writes a declaration (C89, 3.5).
#[cycle(phrase)]
#[tactic(auto, using(std::proofs::lemmas::Grind::common_steps, crate::proofs::Open::decl_open))]
pub fn put_decl(out: &mut Writer, decl: &Decl) -> Result<(), NoMemory>
    ensures { OnOk result (out.new ≡ out.old ++ kinds (decl_form (decl_shape decl.now))) }
{
    put_specs(out, &decl.specs)?;
    put_declarators(out, &decl.names)?;
    out.mark(Mark::Semicolon)
}

#[cycle(phrase)]
fn put_declarators(out: &mut Writer, names: &[Declarator]) -> Result<(), NoMemory>
    ensures { OnOk result (out.new ≡ out.old ++ kinds (declarators_form (declarator_list names.now))) }
{
    match names {
        [] => Ok(()),
        [first, rest @ ..] => {
            put_declarator(out, first)?;
            for name in rest {
                out.mark(Mark::Comma)?;
                put_declarator(out, name)?;
            }
            Ok(())
        }
    }
}

/// Writes a declarator and its initialiser (C89, 3.5.4).
#[cycle(phrase)]
pub fn put_declarator(out: &mut Writer, name: &Declarator) -> Result<(), NoMemory>
    ensures { OnOk result (out.new ≡ out.old ++ kinds (declarator_form (declarator_shape name.now))) }
{
    put_stars(out, &name.stars)?;
    put_maybe_named(out, &name.name)?;
    put_decl_form(out, &name.form)?;
    match &name.init {
        None => Ok(()),
        Some(init) => {
            out.mark(Mark::Equal)?;
            put_init(out, init)
        }
    }
}

// What stands behind a declared name.
#[cycle(phrase)]
#[tactic(auto, using(crate::proofs::Made::lengths_made))]
fn put_decl_form(out: &mut Writer, form: &DeclForm) -> Result<(), NoMemory>
    ensures { OnOk result (out.new ≡ out.old ++ kinds (behind_form (decl_form_shape form.now))) }
{
    match form {
        DeclForm::Arrays(lengths) => put_lengths(out, lengths),
        DeclForm::Function(list) => {
            out.mark(Mark::LeftParen)?;
            put_params(out, list)?;
            out.mark(Mark::RightParen)
        }
    }
}

#[cycle(phrase)]
fn put_lengths(out: &mut Writer, lengths: &[Option<Node>]) -> Result<(), NoMemory>
    ensures { OnOk result (out.new ≡ out.old ++ kinds (lengths_form (lengths_list lengths.now))) }
{
    for length in lengths {
        out.mark(Mark::LeftBracket)?;
        if let Some(node) = length {
            put_node(out, node)?;
        }
        out.mark(Mark::RightBracket)?;
    }
    Ok(())
}

#[cycle(phrase)]
#[tactic(auto, using(crate::proofs::Made::params_made))]
fn put_params(out: &mut Writer, list: &Params) -> Result<(), NoMemory>
    ensures { OnOk result (out.new ≡ out.old ++ kinds (params_form (params_shape list.now))) }
{
    match list {
        Params::Empty => Ok(()),
        Params::Void => out.key(Key::Void),
        Params::List(list) => put_param_list(out, list),
    }
}

#[cycle(phrase)]
fn put_param_list(out: &mut Writer, list: &[Param]) -> Result<(), NoMemory>
    ensures { OnOk result (out.new ≡ out.old ++ kinds (param_list_form (param_list list.now))) }
{
    match list {
        [] => Ok(()),
        [first, rest @ ..] => {
            put_param(out, first)?;
            for param in rest {
                out.mark(Mark::Comma)?;
                put_param(out, param)?;
            }
            Ok(())
        }
    }
}

#[cycle(phrase)]
#[tactic(auto, using(std::proofs::lemmas::Grind::common_steps, crate::proofs::Open::param_open))]
fn put_param(out: &mut Writer, param: &Param) -> Result<(), NoMemory>
    ensures { OnOk result (out.new ≡ out.old ++ kinds (param_form (param_shape param.now))) }
{
    put_specs(out, &param.specs)?;
    put_declarator(out, &param.name)
}

#[cycle(phrase)]
fn put_init(out: &mut Writer, init: &Init) -> Result<(), NoMemory>
    ensures { OnOk result (out.new ≡ out.old ++ kinds (init_form (init_shape init.now))) }
{
    match init {
        Init::One(node) => put_node(out, node),
        Init::List(_, list, last) => put_init_list(out, list, *last),
    }
}

#[cycle(phrase)]
fn put_init_list(out: &mut Writer, list: &[Init], last: bool) -> Result<(), NoMemory>
    ensures { OnOk result (out.new ≡ out.old ++ kinds (mark Mark.LeftBrace ▷ inits_form (init_list list.now) ▷ comma_form last ▷ mark Mark.RightBrace)) }
{
    out.mark(Mark::LeftBrace)?;
    put_inits(out, list)?;
    put_comma(out, last)?;
    out.mark(Mark::RightBrace)
}

#[cycle(phrase)]
fn put_inits(out: &mut Writer, list: &[Init]) -> Result<(), NoMemory>
    ensures { OnOk result (out.new ≡ out.old ++ kinds (inits_form (init_list list.now))) }
{
    match list {
        [] => Ok(()),
        [first, rest @ ..] => {
            put_init(out, first)?;
            for init in rest {
                out.mark(Mark::Comma)?;
                put_init(out, init)?;
            }
            Ok(())
        }
    }
}
