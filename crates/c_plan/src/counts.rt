//! How many variables are declared; 4,294,967,295 where there are more.

ghost use Rattle.std.specs.Prelude.{◌≡◌, ◌+◌, ℕ, IfOk};
ghost use Rattle.c_syntax.specs.View.{declarator_shape, declarator_list, decl_shape, decl_list, param_shape, param_list, params_shape, decl_form_shape, stmt_shape, form_shape, compound_shape, item_list, external_shape};
ghost use Rattle.c_meaning.specs.Counts.{variables_of, variables_among, decl_variables, decls_variables, stmt_variables, form_variables, compound_variables, items_variables, params_variables, signature_variables, external_variables};
ghost use Rattle.c_base.specs.Kept.{kept};

use c_base::place::NoMemory;
use c_syntax::tree::{
    Compound, Decl, DeclForm, Declarator, External, Item, Param, Params, Stmt, StmtForm,
};

// ---- declarations

/// A declarator declares one, but for that of a function (C89, 3.5.4).
#[inline(always)]
pub fn variables_of(name: &Declarator) -> u32
    ensures { result ≡ variables_of (declarator_shape name.now) }
{
    match &name.form {
        DeclForm::Arrays(_) => 1,
        DeclForm::Function(_) => 0,
    }
}

fn variables_among(names: &[Declarator]) -> u32
    ensures { result ≡ kept (variables_among (declarator_list names.now)) }
{
    let mut count: u32 = 0;
    for name in names {
        count = count.saturating_add(variables_of(name));
    }
    count
}

/// Those of a declaration (C89, 3.5).
#[tactic(auto, using(c_syntax::proofs::Open::decl_open))]
pub fn decl_variables(decl: &Decl) -> u32
    ensures { result ≡ kept (decl_variables (decl_shape decl.now)) }
{
    variables_among(&decl.names)
}

/// Those of declarations.
pub fn decls_variables(decls: &[Decl]) -> u32
    ensures { result ≡ kept (decls_variables (decl_list decls.now)) }
{
    let mut count: u32 = 0;
    for decl in decls {
        count = count.saturating_add(decl_variables(decl));
    }
    count
}

// ---- parameters

#[tactic(auto, using(c_syntax::proofs::Open::param_open))]
fn param_variables(param: &Param) -> u32
    ensures { result ≡ decl_variables (param_shape param.now) }
{
    variables_of(&param.name)
}

fn param_list_variables(list: &[Param]) -> u32
    ensures { result ≡ kept (decls_variables (param_list list.now)) }
{
    let mut count: u32 = 0;
    for param in list {
        count = count.saturating_add(param_variables(param));
    }
    count
}

#[tactic(auto, using(c_syntax::proofs::Open::params_open))]
fn params_variables(list: &Params) -> u32
    ensures { result ≡ kept (params_variables (params_shape list.now)) }
{
    match list {
        Params::List(list) => param_list_variables(list),
        Params::Empty | Params::Void => 0,
    }
}

/// Those of a declarator's parameters (C89, 3.7.1).
pub fn signature_variables(form: &DeclForm) -> u32
    ensures { result ≡ kept (signature_variables (decl_form_shape form.now)) }
{
    match form {
        DeclForm::Function(list) => params_variables(list),
        DeclForm::Arrays(_) => 0,
    }
}

// ---- statements

/// Those of a statement (C89, 3.6).
#[cycle(counts)]
pub fn stmt_variables(stmt: &Stmt) -> u32
    ensures { result ≡ kept (stmt_variables (stmt_shape stmt.now)) }
{
    form_variables(&stmt.form)
}

#[cycle(counts)]
#[tactic(auto, using(c_syntax::proofs::Open::switch_open))]
fn form_variables(form: &StmtForm) -> u32
    ensures { result ≡ kept (form_variables (form_shape form.now)) }
{
    match form {
        StmtForm::Compound(body) => compound_variables(body),
        StmtForm::If(_, first, None) => stmt_variables(first),
        StmtForm::If(_, first, Some(other)) => {
            stmt_variables(first).saturating_add(stmt_variables(other))
        }
        StmtForm::While(_, body) | StmtForm::Do(body, _) | StmtForm::For(_, _, _, body) => {
            stmt_variables(body)
        }
        StmtForm::Switch(_, items) => items_variables(items),
        StmtForm::Plain(_) | StmtForm::Break | StmtForm::Continue | StmtForm::Return(_) => 0,
    }
}

/// Those of a compound statement (C89, 3.6.2).
#[cycle(counts)]
#[tactic(auto, using(c_syntax::proofs::Open::compound_open))]
pub fn compound_variables(body: &Compound) -> u32
    ensures { result ≡ kept (compound_variables (compound_shape body.now)) }
{
    decls_variables(&body.decls).saturating_add(items_variables(&body.items))
}

/// Those of a list of statements.
#[cycle(counts)]
pub fn items_variables(items: &[Item]) -> u32
    ensures { result ≡ kept (items_variables (item_list items.now)) }
{
    let mut count: u32 = 0;
    for item in items {
        count = count.saturating_add(stmt_variables(&item.stmt));
    }
    count
}

// ---- external declarations

/// Those of an external declaration (C89, 3.7).
pub fn external_variables(external: &External) -> u32
    ensures { result ≡ kept (external_variables (external_shape external.now)) }
{
    match external {
        External::Plain(decl) => decl_variables(decl),
        External::Function(_, name, _, body) => {
            signature_variables(&name.form).saturating_add(compound_variables(body))
        }
    }
}

/// How many variables are declared behind an external declaration, where so many are before it. There is no memory for
/// 4,294,967,295 or more.
pub fn behind_external(external: &External, before: u32) -> Result<u32, NoMemory>
    ensures { IfOk result (λ n. n ≡ before + external_variables (external_shape external.now)) }
{
    sum(before, external_variables(external))
}

/// The same of a declarator.
pub fn behind_name(name: &Declarator, before: u32) -> Result<u32, NoMemory>
    ensures { IfOk result (λ n. n ≡ before + variables_of (declarator_shape name.now)) }
{
    let after = sum(before, variables_of(name))?;
    Ok(after)
}

// A sum that is exact.
fn sum(before: u32, more: u32) -> Result<u32, NoMemory>
    ensures { IfOk result (λ n. (m : ℕ) → more ≡ kept m → n ≡ before + m) }
{
    let after = before.saturating_add(more);
    if after == u32::MAX {
        return Err(NoMemory);
    }
    Ok(after)
}
