// How many levels a program has.

ghost use Rattle.std.specs.Prelude.{◌≡◌, ◌≤◌, map};
ghost use Rattle.c_syntax.specs.View.{node_shape, probe_shape, node_list, maybe_node, type_shape, type_lengths_list, spec_shape, spec_list, decl_shape, decl_list, enumer_list, declarator_shape, declarator_list, decl_form_shape, lengths_list, params_shape, param_shape, param_list, init_shape, init_list, label_shape, stmt_shape, form_shape, item_list, compound_shape, external_shape, unit_shape};
ghost use Rattle.c_syntax.specs.Levels.{height, cases_height, nodes_height, maybe_height, lengths_height, type_height, specs_height, spec_height, enumers_height, decls_height, decl_height, declarators_height, declarator_height, behind_height, params_height, init_height, inits_height, labels_height, item_height, stmt_height, form_height, compound_height, items_height, external_height, unit_height};

use crate::tree::{
    Compound, Decl, DeclForm, Declarator, Enumer, Expr, ExprProbe, External, Init, Item, Label,
    Node, Param, Params, Spec, SpecForm, Star, Stmt, StmtForm, TypeName, Unit,
};

#[cycle(phrase)]
#[tactic(auto, using(crate::proofs::Levels::step_height, crate::proofs::Levels::call_levels))]
fn node_height(node: &Node) -> u32
    requires bounded { height (node_shape node.now) ≤ 4294967295 }
    ensures { result ≡ height (node_shape node.now) }
{
    match &node.form {
        Expr::Number(_) | Expr::Char(_) | Expr::Str(_) | Expr::Name(_) => 1,
        Expr::Call(_, args) => 1 + nodes_height(args),
        Expr::SizeOfType(name) => 1 + type_height(name),
        Expr::Cast(name, a) => 1 + type_height(name).max(node_height(a)),
        Expr::Paren(a)
        | Expr::Member(a, _, _)
        | Expr::Arrow(a, _, _)
        | Expr::Unary(_, a)
        | Expr::Step(_, a)
        | Expr::SizeOf(a) => 1 + node_height(a),
        Expr::Index(a, b)
        | Expr::Binary(_, a, b)
        | Expr::And(a, b)
        | Expr::Or(a, b)
        | Expr::Assign(_, a, b)
        | Expr::Comma(a, b) => 1 + node_height(a).max(node_height(b)),
        Expr::Cond(a, b, c) => 1 + node_height(a).max(node_height(b)).max(node_height(c)),
        Expr::Probe(probe, a) => cases_height(probe).max(node_height(a)),
    }
}

#[cycle(phrase)]
#[tactic(auto, using(crate::proofs::Levels::select_levels))]
fn cases_height(probe: &ExprProbe) -> u32
    requires bounded { cases_height (probe_shape probe.now) ≤ 4294967295 }
    ensures { result ≡ cases_height (probe_shape probe.now) }
{
    match probe {
        ExprProbe::Select(_, cases) => nodes_height(cases),
        _ => 0,
    }
}

#[cycle(phrase)]
fn nodes_height(nodes: &[Node]) -> u32
    requires bounded { nodes_height (node_list nodes.now) ≤ 4294967295 }
    ensures { result ≡ nodes_height (node_list nodes.now) }
{
    let mut most = 0;
    for node in nodes {
        most = node_height(node).max(most);
    }
    most
}

#[cycle(phrase)]
#[tactic(auto, using(crate::proofs::Open::type_open))]
fn type_height(name: &TypeName) -> u32
    requires bounded { type_height (type_shape name.now) ≤ 4294967295 }
    ensures { result ≡ type_height (type_shape name.now) }
{
    let lengths = name.stars.len() as u32 + type_lengths_height(&name.lengths);
    specs_height(&name.specs).max(lengths)
}

// Each length is one level below the one before it.
#[cycle(phrase)]
fn type_lengths_height(nodes: &[Node]) -> u32
    requires bounded { lengths_height (type_lengths_list nodes.now) ≤ 4294967295 }
    ensures { result ≡ lengths_height (type_lengths_list nodes.now) }
{
    let mut most = 0;
    let mut depth = 0;
    for node in nodes {
        depth += 1;
        most = (depth + node_height(node)).max(most);
    }
    most
}

#[cycle(phrase)]
fn specs_height(specs: &[Spec]) -> u32
    requires bounded { specs_height (spec_list specs.now) ≤ 4294967295 }
    ensures { result ≡ specs_height (spec_list specs.now) }
{
    let mut most = 0;
    for spec in specs {
        most = spec_height(&spec.form).max(most);
    }
    most
}

#[cycle(phrase)]
#[tactic(auto, using(crate::proofs::Levels::struct_levels, crate::proofs::Levels::enum_levels))]
fn spec_height(form: &SpecForm) -> u32
    requires bounded { spec_height (spec_shape form.now) ≤ 4294967295 }
    ensures { result ≡ spec_height (spec_shape form.now) }
{
    match form {
        SpecForm::Plain(_) => 0,
        SpecForm::Struct(_, members) => match members {
            None => 0,
            Some(decls) => 1 + decls_height(decls),
        },
        SpecForm::Enum(_, enumers) => match enumers {
            None => 0,
            Some(rows) => enumers_height(rows),
        },
    }
}

#[cycle(phrase)]
fn enumers_height(rows: &[Enumer]) -> u32
    requires bounded { enumers_height (enumer_list rows.now) ≤ 4294967295 }
    ensures { result ≡ enumers_height (enumer_list rows.now) }
{
    let mut most = 0;
    for row in rows {
        if let Some(node) = &row.value {
            most = node_height(node).max(most);
        }
    }
    most
}

#[cycle(phrase)]
fn decls_height(decls: &[Decl]) -> u32
    requires bounded { decls_height (decl_list decls.now) ≤ 4294967295 }
    ensures { result ≡ decls_height (decl_list decls.now) }
{
    let mut most = 0;
    for decl in decls {
        most = decl_height(decl).max(most);
    }
    most
}

#[cycle(phrase)]
#[tactic(auto, using(crate::proofs::Open::decl_open))]
fn decl_height(decl: &Decl) -> u32
    requires bounded { decl_height (decl_shape decl.now) ≤ 4294967295 }
    ensures { result ≡ decl_height (decl_shape decl.now) }
{
    specs_height(&decl.specs).max(declarators_height(&decl.names))
}

#[cycle(phrase)]
fn declarators_height(names: &[Declarator]) -> u32
    requires bounded { declarators_height (declarator_list names.now) ≤ 4294967295 }
    ensures { result ≡ declarators_height (declarator_list names.now) }
{
    let mut most = 0;
    for name in names {
        most = declarator_height(name).max(most);
    }
    most
}

#[cycle(phrase)]
fn declarator_height(name: &Declarator) -> u32
    requires bounded { declarator_height (declarator_shape name.now) ≤ 4294967295 }
    ensures { result ≡ declarator_height (declarator_shape name.now) }
{
    let behind = behind_height(&name.form, &name.stars);
    match &name.init {
        None => 1 + behind,
        Some(init) => 1 + behind.max(init_height(init)),
    }
}

// The stars of a declarator, and what stands behind its name.
#[cycle(phrase)]
#[tactic(auto, using(crate::proofs::Levels::arrays_levels))]
fn behind_height(form: &DeclForm, stars: &[Star]) -> u32
    requires bounded { behind_height stars.now (decl_form_shape form.now) ≤ 4294967295 }
    ensures { result ≡ behind_height stars.now (decl_form_shape form.now) }
{
    match form {
        DeclForm::Arrays(lengths) => stars.len() as u32 + lengths_height(lengths),
        DeclForm::Function(list) => params_height(list).max(stars.len() as u32),
    }
}

// Each length is one level below the one before it.
#[cycle(phrase)]
fn lengths_height(lengths: &[Option<Node>]) -> u32
    requires bounded { lengths_height (lengths_list lengths.now) ≤ 4294967295 }
    ensures { result ≡ lengths_height (lengths_list lengths.now) }
{
    let mut most = 0;
    let mut depth = 0;
    for length in lengths {
        depth += 1;
        most = match length {
            None => most.max(depth),
            Some(node) => (depth + node_height(node)).max(most),
        };
    }
    most
}

#[cycle(phrase)]
#[tactic(auto, using(crate::proofs::Levels::params_levels))]
fn params_height(list: &Params) -> u32
    requires bounded { params_height (params_shape list.now) ≤ 4294967295 }
    ensures { result ≡ params_height (params_shape list.now) }
{
    match list {
        Params::List(list) => param_list_height(list),
        _ => 0,
    }
}

#[cycle(phrase)]
fn param_list_height(list: &[Param]) -> u32
    requires bounded { decls_height (param_list list.now) ≤ 4294967295 }
    ensures { result ≡ decls_height (param_list list.now) }
{
    let mut most = 0;
    for param in list {
        most = param_height(param).max(most);
    }
    most
}

#[cycle(phrase)]
#[tactic(auto, using(crate::proofs::Open::param_open))]
fn param_height(param: &Param) -> u32
    requires bounded { decl_height (param_shape param.now) ≤ 4294967295 }
    ensures { result ≡ decl_height (param_shape param.now) }
{
    specs_height(&param.specs).max(declarator_height(&param.name))
}

#[cycle(phrase)]
#[tactic(auto, using(crate::proofs::Levels::inits_levels))]
fn init_height(init: &Init) -> u32
    requires bounded { init_height (init_shape init.now) ≤ 4294967295 }
    ensures { result ≡ init_height (init_shape init.now) }
{
    match init {
        Init::One(node) => 1 + node_height(node),
        Init::List(_, list, _) => 1 + inits_height(list),
    }
}

#[cycle(phrase)]
fn inits_height(list: &[Init]) -> u32
    requires bounded { inits_height (init_list list.now) ≤ 4294967295 }
    ensures { result ≡ inits_height (init_list list.now) }
{
    let mut most = 0;
    for init in list {
        most = init_height(init).max(most);
    }
    most
}

fn maybe_height(node: &Option<Node>) -> u32
    requires bounded { maybe_height (maybe_node node.now) ≤ 4294967295 }
    ensures { result ≡ maybe_height (maybe_node node.now) }
{
    match node {
        None => 0,
        Some(node) => node_height(node),
    }
}

fn labels_height(labels: &[Label]) -> u32
    requires bounded { labels_height (map label_shape labels.now) ≤ 4294967295 }
    ensures { result ≡ labels_height (map label_shape labels.now) }
{
    let mut most = 0;
    for label in labels {
        if let Label::Case(_, node) = label {
            most = node_height(node).max(most);
        }
    }
    most
}

#[cycle(statement)]
fn stmt_height(stmt: &Stmt) -> u32
    requires bounded { stmt_height (stmt_shape stmt.now) ≤ 4294967295 }
    ensures { result ≡ stmt_height (stmt_shape stmt.now) }
{
    1 + form_height(&stmt.form)
}

#[cycle(statement)]
#[tactic(auto, using(crate::proofs::Levels::switch_levels))]
fn form_height(form: &StmtForm) -> u32
    requires bounded { form_height (form_shape form.now) ≤ 4294967295 }
    ensures { result ≡ form_height (form_shape form.now) }
{
    match form {
        StmtForm::Compound(body) => compound_height(body),
        StmtForm::Plain(node) | StmtForm::Return(node) => maybe_height(node),
        StmtForm::If(test, first, other) => match other {
            None => node_height(test).max(stmt_height(first)),
            Some(other) => node_height(test)
                .max(stmt_height(first))
                .max(stmt_height(other)),
        },
        StmtForm::While(test, body) | StmtForm::Do(body, test) => {
            node_height(test).max(stmt_height(body))
        }
        StmtForm::For(first, test, step, body) => maybe_height(first)
            .max(maybe_height(test))
            .max(maybe_height(step))
            .max(stmt_height(body)),
        StmtForm::Switch(test, items) => node_height(test).max(items_height(items)),
        StmtForm::Break | StmtForm::Continue => 0,
    }
}

#[cycle(statement)]
#[tactic(auto, using(crate::proofs::Open::compound_open))]
fn compound_height(body: &Compound) -> u32
    requires bounded { compound_height (compound_shape body.now) ≤ 4294967295 }
    ensures { result ≡ compound_height (compound_shape body.now) }
{
    1 + decls_height(&body.decls).max(items_height(&body.items))
}

#[cycle(statement)]
fn items_height(items: &[Item]) -> u32
    requires bounded { items_height (item_list items.now) ≤ 4294967295 }
    ensures { result ≡ items_height (item_list items.now) }
{
    let mut most = 0;
    for item in items {
        most = item_height(item).max(most);
    }
    most
}

#[cycle(statement)]
fn item_height(item: &Item) -> u32
    requires bounded { item_height (map label_shape item.now.labels.items) (stmt_height (stmt_shape item.now.stmt)) ≤ 4294967295 }
    ensures { result ≡ item_height (map label_shape item.now.labels.items) (stmt_height (stmt_shape item.now.stmt)) }
{
    match item.labels.as_slice() {
        [] => stmt_height(&item.stmt),
        labels => 1 + labels_height(labels).max(stmt_height(&item.stmt)),
    }
}

fn external_height(external: &External) -> u32
    requires bounded { external_height (external_shape external.now) ≤ 4294967295 }
    ensures { result ≡ external_height (external_shape external.now) }
{
    match external {
        External::Function(specs, name, _, body) => {
            1 + specs_height(specs)
                .max(declarator_height(name))
                .max(compound_height(body))
        }
        External::Plain(decl) => 1 + decl_height(decl),
    }
}

/// How many levels a unit has: how deep its parts lie one within another, from an external declaration, at level 1, on.
pub fn height(unit: &Unit) -> u32
    requires bounded { unit_height (unit_shape unit.now) ≤ 4294967295 }
    ensures { result ≡ unit_height (unit_shape unit.now) }
{
    let mut most = 0;
    for external in &unit.externals {
        most = external_height(external).max(most);
    }
    most
}
