// The use probes of a program, each with the innermost test or select probe around it.

ghost use Rattle.std.specs.Prelude.{◌≡◌, [], map, OnOk, IfOk, None};
ghost use Rattle.c_syntax.specs.View.{node_shape, expr_shape, probe_shape, node_list, maybe_node, type_shape, type_lengths_list, spec_shape, spec_list, decl_shape, decl_list, enumer_list, declarator_shape, declarator_list, decl_form_shape, lengths_list, params_shape, param_shape, param_list, maybe_init, init_shape, init_list, label_shape, stmt_shape, form_shape, item_list, compound_shape, external_shape, unit_shape};
ghost use Rattle.c_syntax.specs.declared.tree.Enumer.{out-Enumer};
ghost use Rattle.c_sites_probes.specs.Owned.{within, with_owner, own_probe, own_node, own_form, own_constants, own_nodes, own_maybe, own_lengths, own_type, own_specs, own_spec, own_enumers, own_decls, own_decl, own_declarators, own_declarator, own_behind, own_params, own_maybe_init, own_init, own_inits, own_labels, own_stmt, own_body, own_compound, own_items, own_external, owned_in};
ghost use Rattle.c_constants.specs.Probes.{probe_number_of};

use c_base::place::NoMemory;
use c_constants::probes::probe_number;
use c_syntax::tree::{
    Compound, Decl, DeclForm, Declarator, Enumer, Expr, ExprProbe, External, Init, Item, Label,
    Node, Param, Params, Spec, SpecForm, Stmt, StmtForm, TypeName, Unit,
};
use std::alloc::Global;

/// The number of a use probe, and that of its owner.
pub type Owned = (u16, u16);

// ---- one probe

// The innermost test or select probe in such a probe, where this one is it around the probe.
fn within(owner: Option<u16>, probe: &ExprProbe) -> Option<u16>
    ensures { result ≡ within owner (probe_shape probe.now) }
{
    match probe {
        ExprProbe::Test(text) => probe_number(text.bytes()),
        ExprProbe::Select(text, _) => probe_number(text.bytes()),
        ExprProbe::Block(_) | ExprProbe::Use(_) | ExprProbe::Def(_) => owner,
    }
}

fn own_probe(out: &mut Vec<Owned>, owner: Option<u16>, probe: &ExprProbe) -> Result<(), NoMemory>
    ensures { OnOk result (out.new.items ≡ own_probe owner (probe_shape probe.now) out.old.items) }
{
    match probe {
        ExprProbe::Use(text) => put(out, probe_number(text.bytes()), owner),
        ExprProbe::Block(_) | ExprProbe::Test(_) | ExprProbe::Def(_) => Ok(()),
        ExprProbe::Select(_, _) => Ok(()),
    }
}

fn put(out: &mut Vec<Owned>, number: Option<u16>, owner: Option<u16>) -> Result<(), NoMemory>
    ensures { OnOk result (out.new.items ≡ with_owner number owner out.old.items) }
{
    match (number, owner) {
        (Some(number), Some(owner)) => match out.push((number, owner)) {
            Ok(()) => Ok(()),
            Err(_) => Err(NoMemory),
        },
        _ => Ok(()),
    }
}

// ---- expressions and the types in them

#[cycle(owned)]
fn own_node(out: &mut Vec<Owned>, owner: Option<u16>, node: &Node) -> Result<(), NoMemory>
    ensures { OnOk result (out.new.items ≡ own_node owner (node_shape node.now) out.old.items) }
{
    own_form(out, owner, &node.form)
}

#[cycle(owned)]
#[tactic(auto, using(crate::proofs::Marks::step_owned))]
fn own_form(out: &mut Vec<Owned>, owner: Option<u16>, form: &Expr) -> Result<(), NoMemory>
    ensures { OnOk result (out.new.items ≡ own_form owner (expr_shape form.now) out.old.items) }
{
    match form {
        Expr::Number(_) | Expr::Char(_) | Expr::Str(_) | Expr::Name(_) => Ok(()),
        Expr::Call(_, args) => own_nodes(out, owner, args),
        Expr::SizeOfType(name) => own_type(out, owner, name),
        Expr::Cast(name, a) => {
            own_type(out, owner, name)?;
            own_node(out, owner, a)
        }
        Expr::Paren(a)
        | Expr::Member(a, _, _)
        | Expr::Arrow(a, _, _)
        | Expr::Unary(_, a)
        | Expr::Step(_, a)
        | Expr::SizeOf(a) => own_node(out, owner, a),
        Expr::Index(a, b)
        | Expr::Binary(_, a, b)
        | Expr::And(a, b)
        | Expr::Or(a, b)
        | Expr::Assign(_, a, b)
        | Expr::Comma(a, b) => {
            own_node(out, owner, a)?;
            own_node(out, owner, b)
        }
        Expr::Cond(a, b, c) => {
            own_node(out, owner, a)?;
            own_node(out, owner, b)?;
            own_node(out, owner, c)
        }
        Expr::Probe(probe, a) => {
            own_probe(out, owner, probe)?;
            let inner = within(owner, probe);
            own_constants(out, inner, probe)?;
            own_node(out, inner, a)
        }
    }
}

#[cycle(owned)]
fn own_constants(
    out: &mut Vec<Owned>,
    owner: Option<u16>,
    probe: &ExprProbe,
) -> Result<(), NoMemory>
    ensures { OnOk result (out.new.items ≡ own_constants owner (probe_shape probe.now) out.old.items) }
{
    match probe {
        ExprProbe::Select(_, cases) => own_nodes(out, owner, cases),
        ExprProbe::Block(_) | ExprProbe::Test(_) | ExprProbe::Use(_) | ExprProbe::Def(_) => Ok(()),
    }
}

#[cycle(owned)]
fn own_nodes(out: &mut Vec<Owned>, owner: Option<u16>, nodes: &[Node]) -> Result<(), NoMemory>
    ensures { OnOk result (out.new.items ≡ own_nodes owner (node_list nodes.now) out.old.items) }
{
    for node in nodes {
        own_node(out, owner, node)?;
    }
    Ok(())
}

#[cycle(owned)]
fn own_maybe(out: &mut Vec<Owned>, owner: Option<u16>, node: &Option<Node>) -> Result<(), NoMemory>
    ensures { OnOk result (out.new.items ≡ own_maybe owner (maybe_node node.now) out.old.items) }
{
    match node {
        None => Ok(()),
        Some(node) => own_node(out, owner, node),
    }
}

#[cycle(owned)]
fn own_lengths(
    out: &mut Vec<Owned>,
    owner: Option<u16>,
    lengths: &[Option<Node>],
) -> Result<(), NoMemory>
    ensures { OnOk result (out.new.items ≡ own_lengths owner (lengths_list lengths.now) out.old.items) }
{
    for length in lengths {
        if let Some(node) = length {
            own_node(out, owner, node)?;
        }
    }
    Ok(())
}

#[cycle(owned)]
fn own_type_lengths(
    out: &mut Vec<Owned>,
    owner: Option<u16>,
    nodes: &[Node],
) -> Result<(), NoMemory>
    ensures { OnOk result (out.new.items ≡ own_lengths owner (type_lengths_list nodes.now) out.old.items) }
{
    for node in nodes {
        own_node(out, owner, node)?;
    }
    Ok(())
}

#[cycle(owned)]
#[tactic(auto, using(c_syntax::proofs::Open::type_open))]
fn own_type(out: &mut Vec<Owned>, owner: Option<u16>, name: &TypeName) -> Result<(), NoMemory>
    ensures { OnOk result (out.new.items ≡ own_type owner (type_shape name.now) out.old.items) }
{
    own_specs(out, owner, &name.specs)?;
    own_type_lengths(out, owner, &name.lengths)
}

#[cycle(owned)]
fn own_specs(out: &mut Vec<Owned>, owner: Option<u16>, specs: &[Spec]) -> Result<(), NoMemory>
    ensures { OnOk result (out.new.items ≡ own_specs owner (spec_list specs.now) out.old.items) }
{
    for spec in specs {
        own_spec(out, owner, &spec.form)?;
    }
    Ok(())
}

#[cycle(owned)]
fn own_spec(out: &mut Vec<Owned>, owner: Option<u16>, form: &SpecForm) -> Result<(), NoMemory>
    ensures { OnOk result (out.new.items ≡ own_spec owner (spec_shape form.now) out.old.items) }
{
    match form {
        SpecForm::Plain(_) => Ok(()),
        SpecForm::Struct(_, decls) => match decls {
            None => Ok(()),
            Some(decls) => own_decls(out, owner, decls),
        },
        SpecForm::Enum(_, enumers) => match enumers {
            None => Ok(()),
            Some(enumers) => own_enumers(out, owner, enumers),
        },
    }
}

#[cycle(owned)]
fn own_enumers(out: &mut Vec<Owned>, owner: Option<u16>, rows: &[Enumer]) -> Result<(), NoMemory>
    ensures { OnOk result (out.new.items ≡ own_enumers owner (enumer_list rows.now) out.old.items) }
{
    for row in rows {
        own_enumer(out, owner, row)?;
    }
    Ok(())
}

#[cycle(owned)]
fn own_enumer(out: &mut Vec<Owned>, owner: Option<u16>, row: &Enumer) -> Result<(), NoMemory>
    ensures { OnOk result (out.new.items ≡ own_maybe owner (maybe_node (out-Enumer row.now).value) out.old.items) }
{
    own_maybe(out, owner, &row.value)
}

#[cycle(owned)]
fn own_decls(out: &mut Vec<Owned>, owner: Option<u16>, decls: &[Decl]) -> Result<(), NoMemory>
    ensures { OnOk result (out.new.items ≡ own_decls owner (decl_list decls.now) out.old.items) }
{
    for decl in decls {
        own_decl(out, owner, decl)?;
    }
    Ok(())
}

#[cycle(owned)]
#[tactic(auto, using(c_syntax::proofs::Open::decl_open))]
fn own_decl(out: &mut Vec<Owned>, owner: Option<u16>, decl: &Decl) -> Result<(), NoMemory>
    ensures { OnOk result (out.new.items ≡ own_decl owner (decl_shape decl.now) out.old.items) }
{
    own_specs(out, owner, &decl.specs)?;
    own_declarators(out, owner, &decl.names)
}

#[cycle(owned)]
fn own_declarators(
    out: &mut Vec<Owned>,
    owner: Option<u16>,
    names: &[Declarator],
) -> Result<(), NoMemory>
    ensures { OnOk result (out.new.items ≡ own_declarators owner (declarator_list names.now) out.old.items) }
{
    for name in names {
        own_declarator(out, owner, name)?;
    }
    Ok(())
}

#[cycle(owned)]
fn own_declarator(
    out: &mut Vec<Owned>,
    owner: Option<u16>,
    name: &Declarator,
) -> Result<(), NoMemory>
    ensures { OnOk result (out.new.items ≡ own_declarator owner (declarator_shape name.now) out.old.items) }
{
    own_behind(out, owner, &name.form)?;
    own_maybe_init(out, owner, &name.init)
}

#[cycle(owned)]
#[tactic(auto, using(c_syntax::proofs::Open::arrays_open))]
fn own_behind(out: &mut Vec<Owned>, owner: Option<u16>, form: &DeclForm) -> Result<(), NoMemory>
    ensures { OnOk result (out.new.items ≡ own_behind owner (decl_form_shape form.now) out.old.items) }
{
    match form {
        DeclForm::Arrays(lengths) => own_lengths(out, owner, lengths),
        DeclForm::Function(list) => own_params(out, owner, list),
    }
}

#[cycle(owned)]
#[tactic(auto, using(c_syntax::proofs::Open::params_open))]
fn own_params(out: &mut Vec<Owned>, owner: Option<u16>, list: &Params) -> Result<(), NoMemory>
    ensures { OnOk result (out.new.items ≡ own_params owner (params_shape list.now) out.old.items) }
{
    match list {
        Params::List(list) => own_param_list(out, owner, list),
        Params::Empty | Params::Void => Ok(()),
    }
}

#[cycle(owned)]
fn own_param_list(out: &mut Vec<Owned>, owner: Option<u16>, list: &[Param]) -> Result<(), NoMemory>
    ensures { OnOk result (out.new.items ≡ own_decls owner (param_list list.now) out.old.items) }
{
    for param in list {
        own_param(out, owner, param)?;
    }
    Ok(())
}

#[cycle(owned)]
#[tactic(auto, using(c_syntax::proofs::Open::param_open))]
fn own_param(out: &mut Vec<Owned>, owner: Option<u16>, param: &Param) -> Result<(), NoMemory>
    ensures { OnOk result (out.new.items ≡ own_decl owner (param_shape param.now) out.old.items) }
{
    own_specs(out, owner, &param.specs)?;
    own_declarator(out, owner, &param.name)
}

#[cycle(owned)]
fn own_maybe_init(
    out: &mut Vec<Owned>,
    owner: Option<u16>,
    init: &Option<Init>,
) -> Result<(), NoMemory>
    ensures { OnOk result (out.new.items ≡ own_maybe_init owner (maybe_init init.now) out.old.items) }
{
    match init {
        None => Ok(()),
        Some(init) => own_init(out, owner, init),
    }
}

#[cycle(owned)]
fn own_init(out: &mut Vec<Owned>, owner: Option<u16>, init: &Init) -> Result<(), NoMemory>
    ensures { OnOk result (out.new.items ≡ own_init owner (init_shape init.now) out.old.items) }
{
    match init {
        Init::One(node) => own_node(out, owner, node),
        Init::List(_, list, _) => own_inits(out, owner, list),
    }
}

#[cycle(owned)]
fn own_inits(out: &mut Vec<Owned>, owner: Option<u16>, list: &[Init]) -> Result<(), NoMemory>
    ensures { OnOk result (out.new.items ≡ own_inits owner (init_list list.now) out.old.items) }
{
    for init in list {
        own_init(out, owner, init)?;
    }
    Ok(())
}

// ---- statements and units

fn own_labels(out: &mut Vec<Owned>, labels: &[Label]) -> Result<(), NoMemory>
    ensures { OnOk result (out.new.items ≡ own_labels (map label_shape labels.now) out.old.items) }
{
    for label in labels {
        if let Label::Case(_, node) = label {
            own_node(out, None, node)?;
        }
    }
    Ok(())
}

#[cycle(owning)]
fn own_stmt(out: &mut Vec<Owned>, stmt: &Stmt) -> Result<(), NoMemory>
    ensures { OnOk result (out.new.items ≡ own_stmt (stmt_shape stmt.now) out.old.items) }
{
    own_body(out, &stmt.form)
}

#[cycle(owning)]
fn own_body(out: &mut Vec<Owned>, form: &StmtForm) -> Result<(), NoMemory>
    ensures { OnOk result (out.new.items ≡ own_body (form_shape form.now) out.old.items) }
{
    match form {
        StmtForm::Compound(body) => own_compound(out, body),
        StmtForm::Plain(node) | StmtForm::Return(node) => own_maybe(out, None, node),
        StmtForm::If(test, body, other) => {
            own_node(out, None, test)?;
            own_stmt(out, body)?;
            match other {
                None => Ok(()),
                Some(other) => own_stmt(out, other),
            }
        }
        StmtForm::While(test, body) => {
            own_node(out, None, test)?;
            own_stmt(out, body)
        }
        StmtForm::Do(body, test) => {
            own_stmt(out, body)?;
            own_node(out, None, test)
        }
        StmtForm::For(begin, test, step, body) => {
            own_maybe(out, None, begin)?;
            own_maybe(out, None, test)?;
            own_maybe(out, None, step)?;
            own_stmt(out, body)
        }
        StmtForm::Switch(test, items) => own_switch(out, items, test),
        StmtForm::Break | StmtForm::Continue => Ok(()),
    }
}

#[cycle(owning)]
fn own_switch(out: &mut Vec<Owned>, items: &[Item], test: &Node) -> Result<(), NoMemory>
    ensures { OnOk result (out.new.items ≡ own_items (item_list items.now) (own_node None (node_shape test.now) out.old.items)) }
{
    own_node(out, None, test)?;
    own_items(out, items)
}

#[cycle(owning)]
#[tactic(auto, using(c_syntax::proofs::Open::compound_open))]
fn own_compound(out: &mut Vec<Owned>, body: &Compound) -> Result<(), NoMemory>
    ensures { OnOk result (out.new.items ≡ own_compound (compound_shape body.now) out.old.items) }
{
    own_decls(out, None, &body.decls)?;
    own_items(out, &body.items)
}

#[cycle(owning)]
fn own_items(out: &mut Vec<Owned>, items: &[Item]) -> Result<(), NoMemory>
    ensures { OnOk result (out.new.items ≡ own_items (item_list items.now) out.old.items) }
{
    for item in items {
        own_labels(out, &item.labels)?;
        own_stmt(out, &item.stmt)?;
    }
    Ok(())
}

fn own_external(out: &mut Vec<Owned>, external: &External) -> Result<(), NoMemory>
    ensures { OnOk result (out.new.items ≡ own_external (external_shape external.now) out.old.items) }
{
    match external {
        External::Function(specs, name, _, body) => {
            own_specs(out, None, specs)?;
            own_declarator(out, None, name)?;
            own_compound(out, body)
        }
        External::Plain(decl) => own_decl(out, None, decl),
    }
}

/// The use probes of a unit that stand inside a test or select probe, each with the innermost one, in the order of tokens.
pub fn owned_in(alloc: Global, unit: &Unit) -> Result<Vec<Owned>, NoMemory>
    ensures { IfOk result (λ found. found.items ≡ owned_in (unit_shape unit.now)) }
{
    let mut out = Vec::new(alloc);
    for external in &unit.externals {
        own_external(&mut out, external)?;
    }
    Ok(out)
}
