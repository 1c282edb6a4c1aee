// The extents of statements, one behind the other.
ghost use Rattle.std.specs.Prelude.{◌≡◌, ◌+◌, ◌++◌, ◌<◌, List, ◌∷◌, [], length, IfOk, OnOk};
ghost use Rattle.c_syntax.specs.View.{stmt_shape, form_shape, compound_shape, item_list};
ghost use Rattle.c_plan.specs.declared.extent.Extent.{Extent};
ghost use Rattle.c_meaning.specs.Counts.{stmt_variables, form_variables, compound_variables, items_variables};
ghost use Rattle.c_plan.specs.Extents.{around, stmt_extents, form_extents, compound_extents, items_extents, body_extents};

use crate::counts::decls_variables;
use crate::extent::Extent;
use c_base::place::NoMemory;
use c_syntax::tree::{Compound, Item, Stmt, StmtForm};

/// The sum; there is no memory for 4,294,967,295 variables or more.
pub fn sum(a: u32, b: u32) -> Result<u32, NoMemory>
    ensures sum { IfOk result (λ n. n ≡ a + b) }
    ensures fits { IfOk result (λ n. n < 4294967295) }
{
    let n = a.saturating_add(b);
    if n == u32::MAX {
        return Err(NoMemory);
    }
    Ok(n)
}

// A place for the extent of a statement, whose statements follow.
fn begin(out: &mut Vec<Extent>) -> Result<(), NoMemory>
    ensures { OnOk result (out.new.items ≡ out.old.items ++ record { statements = 0; variables = 0 } ∷ []) }
{
    let extent = Extent {
        statements: 0,
        variables: 0,
    };
    match out.push(extent) {
        Ok(()) => Ok(()),
        Err(_) => Err(NoMemory),
    }
}

// It has so many variables, and all statements behind its place in it.
fn end(out: &mut Vec<Extent>, place: usize, variables: u32) -> Result<(), NoMemory>
    requires { place < length out.old.items }
    ensures { OnOk result ((front inner : List Extent) (e : Extent) → out.old.items ≡ front ++ e ∷ inner → place ≡ length front → out.new.items ≡ front ++ around inner variables) }
{
    let statements = out.len() - place;
    if statements > u32::MAX as usize {
        return Err(NoMemory);
    }
    out[place] = Extent {
        statements: statements as u32,
        variables,
    };
    Ok(())
}

// Adds those of a statement, and gives how many variables it declares.
#[cycle(statement)]
fn put_stmt(out: &mut Vec<Extent>, stmt: &Stmt) -> Result<u32, NoMemory>
    ensures extents { OnOk result (out.new.items ≡ out.old.items ++ stmt_extents (stmt_shape stmt.now)) }
    ensures variables { IfOk result (λ n. n ≡ stmt_variables (stmt_shape stmt.now)) }
{
    let place = out.len();
    begin(out)?;
    let variables = put_form(out, &stmt.form)?;
    end(out, place, variables)?;
    Ok(variables)
}

#[cycle(statement)]
fn put_form(out: &mut Vec<Extent>, form: &StmtForm) -> Result<u32, NoMemory>
    ensures extents { OnOk result (out.new.items ≡ out.old.items ++ form_extents (form_shape form.now)) }
    ensures variables { IfOk result (λ n. n ≡ form_variables (form_shape form.now)) }
{
    match form {
        StmtForm::Compound(body) => {
            let variables = put_compound(out, body)?;
            Ok(variables)
        }
        StmtForm::If(_, first, other) => {
            let variables = put_stmt(out, first)?;
            match other {
                None => Ok(variables),
                Some(other) => {
                    let more = put_stmt(out, other)?;
                    let variables = sum(variables, more)?;
                    Ok(variables)
                }
            }
        }
        StmtForm::While(_, body) | StmtForm::Do(body, _) | StmtForm::For(_, _, _, body) => {
            let variables = put_stmt(out, body)?;
            Ok(variables)
        }
        StmtForm::Switch(_, items) => {
            let variables = put_items(out, items)?;
            Ok(variables)
        }
        StmtForm::Plain(_) | StmtForm::Break | StmtForm::Continue | StmtForm::Return(_) => Ok(0),
    }
}

#[cycle(statement)]
#[tactic(auto, using(c_syntax::proofs::Open::compound_open))]
fn put_compound(out: &mut Vec<Extent>, body: &Compound) -> Result<u32, NoMemory>
    ensures extents { OnOk result (out.new.items ≡ out.old.items ++ compound_extents (compound_shape body.now)) }
    ensures variables { IfOk result (λ n. n ≡ compound_variables (compound_shape body.now)) }
{
    let declared = decls_variables(&body.decls);
    let inner = put_items(out, &body.items)?;
    let variables = sum(declared, inner)?;
    Ok(variables)
}

#[cycle(statement)]
fn put_items(out: &mut Vec<Extent>, items: &[Item]) -> Result<u32, NoMemory>
    ensures extents { OnOk result (out.new.items ≡ out.old.items ++ items_extents (item_list items.now)) }
    ensures variables { IfOk result (λ n. n ≡ items_variables (item_list items.now)) }
{
    let mut count = 0;
    for item in items {
        let variables = put_stmt(out, &item.stmt)?;
        count = sum(count, variables)?;
    }
    Ok(count)
}

/// Adds those of a function's body, and gives how many variables it declares.
pub fn put_body(out: &mut Vec<Extent>, body: &Compound) -> Result<u32, NoMemory>
    ensures extents { OnOk result (out.new.items ≡ out.old.items ++ body_extents (compound_shape body.now)) }
    ensures variables { IfOk result (λ n. n ≡ compound_variables (compound_shape body.now)) }
{
    let place = out.len();
    begin(out)?;
    let variables = put_compound(out, body)?;
    end(out, place, variables)?;
    Ok(variables)
}
