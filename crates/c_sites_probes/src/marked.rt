// The first probe of a program.

ghost use Rattle.std.specs.Prelude.{◌≡◌, map};
ghost use Rattle.c_syntax.specs.View.{node_shape, expr_shape, node_list, maybe_node, type_shape, type_lengths_list, spec_shape, spec_list, decl_shape, decl_list, enumer_list, declarator_shape, declarator_list, decl_form_shape, lengths_list, params_shape, param_shape, param_list, maybe_init, init_shape, init_list, label_shape, stmt_shape, form_shape, item_list, compound_shape, external_shape, unit_shape};
ghost use Rattle.c_syntax.specs.declared.tree.Enumer.{out-Enumer};
ghost use Rattle.c_sites_probes.specs.Marked.{first, mark_in, name_mark, mark_among, node_mark, form_mark, nodes_mark, maybe_mark, lengths_mark, type_mark, specs_mark, spec_mark, enumers_mark, decls_mark, decl_mark, declarators_mark, declarator_mark, behind_mark, params_mark, maybe_init_mark, init_mark, inits_mark, label_mark, labels_mark, stmt_mark, body_mark, compound_mark, items_mark, external_mark, line_mark, unit_mark};

use c_base::place::Pos;
use c_syntax::tree::{
    Compound, Decl, DeclForm, Declarator, Enumer, Expr, External, Init, Item, Label, Named, Node,
    Param, Params, ProbeMark, ProgramLine, Spec, SpecForm, Stmt, StmtForm, TypeName, Unit,
};

fn mark_in(mark: &Option<ProbeMark>) -> Option<Pos>
    ensures { result ≡ mark_in mark.now }
{
    match mark {
        None => None,
        Some(mark) => Some(mark.pos),
    }
}

fn name_mark(name: &Option<Named>) -> Option<Pos>
    ensures { result ≡ name_mark name.now }
{
    match name {
        None => None,
        Some(name) => mark_in(&name.probe),
    }
}

fn mark_among(marks: &[ProbeMark]) -> Option<Pos>
    ensures { result ≡ mark_among marks.now }
{
    match marks {
        [] => None,
        [mark, ..] => Some(mark.pos),
    }
}

#[cycle(phrase)]
fn node_mark(node: &Node) -> Option<Pos>
    ensures { result ≡ node_mark (node_shape node.now) }
{
    form_mark(&node.form, node.pos)
}

#[cycle(phrase)]
#[tactic(auto, using(crate::proofs::Marks::step_mark, crate::proofs::Marks::none_behind))]
fn form_mark(form: &Expr, pos: Pos) -> Option<Pos>
    ensures { result ≡ form_mark pos (expr_shape form.now) }
{
    match form {
        Expr::Number(_) | Expr::Char(_) | Expr::Str(_) | Expr::Name(_) => None,
        Expr::Call(_, args) => nodes_mark(args),
        Expr::SizeOfType(name) => type_mark(name),
        Expr::Cast(name, a) => first(type_mark(name), node_mark(a)),
        Expr::Paren(a)
        | Expr::Member(a, _, _)
        | Expr::Arrow(a, _, _)
        | Expr::Unary(_, a)
        | Expr::Step(_, a)
        | Expr::SizeOf(a) => node_mark(a),
        Expr::Index(a, b)
        | Expr::Binary(_, a, b)
        | Expr::And(a, b)
        | Expr::Or(a, b)
        | Expr::Assign(_, a, b)
        | Expr::Comma(a, b) => first(node_mark(a), node_mark(b)),
        Expr::Cond(a, b, c) => first(node_mark(a), first(node_mark(b), node_mark(c))),
        Expr::Probe(_, _) => Some(pos),
    }
}

// The first of the two that is there.
fn first(found: Option<Pos>, other: Option<Pos>) -> Option<Pos>
    ensures { result ≡ first found other }
{
    match found {
        Some(pos) => Some(pos),
        None => other,
    }
}

#[cycle(phrase)]
fn nodes_mark(nodes: &[Node]) -> Option<Pos>
    ensures { result ≡ nodes_mark (node_list nodes.now) }
{
    for node in nodes {
        if let Some(pos) = node_mark(node) {
            return Some(pos);
        }
    }
    None
}

#[cycle(phrase)]
fn maybe_mark(node: &Option<Node>) -> Option<Pos>
    ensures { result ≡ maybe_mark (maybe_node node.now) }
{
    match node {
        None => None,
        Some(node) => node_mark(node),
    }
}

#[cycle(phrase)]
fn lengths_mark(lengths: &[Option<Node>]) -> Option<Pos>
    ensures { result ≡ lengths_mark (lengths_list lengths.now) }
{
    for length in lengths {
        if let Some(node) = length {
            if let Some(pos) = node_mark(node) {
                return Some(pos);
            }
        }
    }
    None
}

#[cycle(phrase)]
fn type_lengths_mark(nodes: &[Node]) -> Option<Pos>
    ensures { result ≡ lengths_mark (type_lengths_list nodes.now) }
{
    for node in nodes {
        if let Some(pos) = node_mark(node) {
            return Some(pos);
        }
    }
    None
}

#[cycle(phrase)]
#[tactic(auto, using(c_syntax::proofs::Open::type_open))]
fn type_mark(name: &TypeName) -> Option<Pos>
    ensures { result ≡ type_mark (type_shape name.now) }
{
    first(specs_mark(&name.specs), type_lengths_mark(&name.lengths))
}

#[cycle(phrase)]
fn specs_mark(specs: &[Spec]) -> Option<Pos>
    ensures { result ≡ specs_mark (spec_list specs.now) }
{
    for spec in specs {
        if let Some(pos) = spec_mark(&spec.form) {
            return Some(pos);
        }
    }
    None
}

#[cycle(phrase)]
#[tactic(auto, using(crate::proofs::Marks::none_behind))]
fn spec_mark(form: &SpecForm) -> Option<Pos>
    ensures { result ≡ spec_mark (spec_shape form.now) }
{
    match form {
        SpecForm::Plain(_) => None,
        SpecForm::Struct(name, decls) => match decls {
            None => name_mark(name),
            Some(decls) => struct_mark(decls, name),
        },
        SpecForm::Enum(name, enumers) => match enumers {
            None => name_mark(name),
            Some(enumers) => enum_mark(enumers, name),
        },
    }
}

#[cycle(phrase)]
fn struct_mark(decls: &[Decl], name: &Option<Named>) -> Option<Pos>
    ensures { result ≡ first (name_mark name.now) (decls_mark (decl_list decls.now)) }
{
    first(name_mark(name), decls_mark(decls))
}

#[cycle(phrase)]
fn enum_mark(rows: &[Enumer], name: &Option<Named>) -> Option<Pos>
    ensures { result ≡ first (name_mark name.now) (enumers_mark (enumer_list rows.now)) }
{
    first(name_mark(name), enumers_mark(rows))
}

#[cycle(phrase)]
fn enumers_mark(rows: &[Enumer]) -> Option<Pos>
    ensures { result ≡ enumers_mark (enumer_list rows.now) }
{
    for row in rows {
        if let Some(pos) = enumer_mark(row) {
            return Some(pos);
        }
    }
    None
}

#[cycle(phrase)]
fn enumer_mark(row: &Enumer) -> Option<Pos>
    ensures { result ≡ first (mark_in (out-Enumer row.now).name.probe) (maybe_mark (maybe_node (out-Enumer row.now).value)) }
{
    first(mark_in(&row.name.probe), maybe_mark(&row.value))
}

#[cycle(phrase)]
fn decls_mark(decls: &[Decl]) -> Option<Pos>
    ensures { result ≡ decls_mark (decl_list decls.now) }
{
    for decl in decls {
        if let Some(pos) = decl_mark(decl) {
            return Some(pos);
        }
    }
    None
}

#[cycle(phrase)]
#[tactic(auto, using(c_syntax::proofs::Open::decl_open))]
fn decl_mark(decl: &Decl) -> Option<Pos>
    ensures { result ≡ decl_mark (decl_shape decl.now) }
{
    first(specs_mark(&decl.specs), declarators_mark(&decl.names))
}

#[cycle(phrase)]
fn declarators_mark(names: &[Declarator]) -> Option<Pos>
    ensures { result ≡ declarators_mark (declarator_list names.now) }
{
    for name in names {
        if let Some(pos) = declarator_mark(name) {
            return Some(pos);
        }
    }
    None
}

#[cycle(phrase)]
fn declarator_mark(name: &Declarator) -> Option<Pos>
    ensures { result ≡ declarator_mark (declarator_shape name.now) }
{
    let behind = first(behind_mark(&name.form), maybe_init_mark(&name.init));
    first(name_mark(&name.name), behind)
}

#[cycle(phrase)]
#[tactic(auto, using(c_syntax::proofs::Open::arrays_open))]
fn behind_mark(form: &DeclForm) -> Option<Pos>
    ensures { result ≡ behind_mark (decl_form_shape form.now) }
{
    match form {
        DeclForm::Arrays(lengths) => lengths_mark(lengths),
        DeclForm::Function(list) => params_mark(list),
    }
}

#[cycle(phrase)]
#[tactic(auto, using(c_syntax::proofs::Open::params_open))]
fn params_mark(list: &Params) -> Option<Pos>
    ensures { result ≡ params_mark (params_shape list.now) }
{
    match list {
        Params::List(list) => param_list_mark(list),
        _ => None,
    }
}

#[cycle(phrase)]
fn param_list_mark(list: &[Param]) -> Option<Pos>
    ensures { result ≡ decls_mark (param_list list.now) }
{
    for param in list {
        if let Some(pos) = param_mark(param) {
            return Some(pos);
        }
    }
    None
}

#[cycle(phrase)]
#[tactic(auto, using(c_syntax::proofs::Open::param_open, crate::proofs::Marks::none_behind))]
fn param_mark(param: &Param) -> Option<Pos>
    ensures { result ≡ decl_mark (param_shape param.now) }
{
    first(specs_mark(&param.specs), declarator_mark(&param.name))
}

#[cycle(phrase)]
fn maybe_init_mark(init: &Option<Init>) -> Option<Pos>
    ensures { result ≡ maybe_init_mark (maybe_init init.now) }
{
    match init {
        None => None,
        Some(init) => init_mark(init),
    }
}

#[cycle(phrase)]
fn init_mark(init: &Init) -> Option<Pos>
    ensures { result ≡ init_mark (init_shape init.now) }
{
    match init {
        Init::One(node) => node_mark(node),
        Init::List(_, list, _) => inits_mark(list),
    }
}

#[cycle(phrase)]
fn inits_mark(list: &[Init]) -> Option<Pos>
    ensures { result ≡ inits_mark (init_list list.now) }
{
    for init in list {
        if let Some(pos) = init_mark(init) {
            return Some(pos);
        }
    }
    None
}

// ---- statements and units

fn labels_mark(labels: &[Label]) -> Option<Pos>
    ensures { result ≡ labels_mark (map label_shape labels.now) }
{
    for label in labels {
        if let Some(pos) = label_mark(label) {
            return Some(pos);
        }
    }
    None
}

fn label_mark(label: &Label) -> Option<Pos>
    ensures { result ≡ label_mark (label_shape label.now) }
{
    match label {
        Label::Case(_, node) => node_mark(node),
        Label::Default(_) => None,
    }
}

#[cycle(statement)]
fn stmt_mark(stmt: &Stmt) -> Option<Pos>
    ensures { result ≡ stmt_mark (stmt_shape stmt.now) }
{
    first(mark_among(&stmt.probes), body_mark(&stmt.form))
}

#[cycle(statement)]
fn body_mark(form: &StmtForm) -> Option<Pos>
    ensures { result ≡ body_mark (form_shape form.now) }
{
    match form {
        StmtForm::Compound(body) => compound_mark(body),
        StmtForm::Plain(node) | StmtForm::Return(node) => maybe_mark(node),
        StmtForm::If(test, body, other) => match other {
            None => first(node_mark(test), stmt_mark(body)),
            Some(other) => first(node_mark(test), first(stmt_mark(body), stmt_mark(other))),
        },
        StmtForm::While(test, body) => first(node_mark(test), stmt_mark(body)),
        StmtForm::Do(body, test) => first(stmt_mark(body), node_mark(test)),
        StmtForm::For(begin, test, step, body) => {
            let behind = first(maybe_mark(step), stmt_mark(body));
            first(maybe_mark(begin), first(maybe_mark(test), behind))
        }
        StmtForm::Switch(test, items) => switch_mark(items, test),
        StmtForm::Break | StmtForm::Continue => None,
    }
}

#[cycle(statement)]
fn switch_mark(items: &[Item], test: &Node) -> Option<Pos>
    ensures { result ≡ first (node_mark (node_shape test.now)) (items_mark (item_list items.now)) }
{
    first(node_mark(test), items_mark(items))
}

#[cycle(statement)]
#[tactic(auto, using(c_syntax::proofs::Open::compound_open))]
fn compound_mark(body: &Compound) -> Option<Pos>
    ensures { result ≡ compound_mark (compound_shape body.now) }
{
    first(decls_mark(&body.decls), items_mark(&body.items))
}

#[cycle(statement)]
fn items_mark(items: &[Item]) -> Option<Pos>
    ensures { result ≡ items_mark (item_list items.now) }
{
    for item in items {
        if let Some(pos) = item_mark(item) {
            return Some(pos);
        }
    }
    None
}

#[cycle(statement)]
fn item_mark(item: &Item) -> Option<Pos>
    ensures { result ≡ first (labels_mark (map label_shape item.now.labels.items)) (stmt_mark (stmt_shape item.now.stmt)) }
{
    first(labels_mark(&item.labels), stmt_mark(&item.stmt))
}

fn external_mark(external: &External) -> Option<Pos>
    ensures { result ≡ external_mark (external_shape external.now) }
{
    match external {
        External::Function(specs, name, marks, body) => {
            let behind = first(mark_among(marks), compound_mark(body));
            first(specs_mark(specs), first(declarator_mark(name), behind))
        }
        External::Plain(decl) => decl_mark(decl),
    }
}

fn line_mark(line: &Option<ProgramLine>) -> Option<Pos>
    ensures { result ≡ line_mark line.now }
{
    match line {
        None => None,
        Some(line) => Some(line.pos),
    }
}

/// The place of the first probe or of the program line, whichever comes first; None where there is none.
pub fn unit_mark(unit: &Unit) -> Option<Pos>
    ensures { result ≡ unit_mark (unit_shape unit.now) }
{
    if let Some(pos) = line_mark(&unit.line) {
        return Some(pos);
    }
    for external in &unit.externals {
        if let Some(pos) = external_mark(external) {
            return Some(pos);
        }
    }
    None
}
