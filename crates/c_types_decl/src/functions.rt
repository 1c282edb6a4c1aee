// Functions (C89, 3.5.4.3 and 3.7.1).

ghost use Rattle.std.specs.Prelude.{◌≡◌, map, OnOk, IfOk};
ghost use Rattle.c_type_rules.specs.Kinds.{type_in};
ghost use Rattle.c_syntax.specs.Shape.{declarator, function, no_init};
ghost use Rattle.c_syntax.specs.View.{params_shape};
ghost use Rattle.c_tree.specs.Parts.{pointed};
ghost use Rattle.c_tables.specs.Rows.{text_of};
ghost use Rattle.c_tree.specs.Declaring.{signature_of, declare_function, type_function};
ghost use Rattle.c_checker.specs.CheckerView.{state_of};
ghost use Rattle.c_types_decl.specs.GivenView.{parameter_of};
ghost use Rattle.c_types_decl.specs.Steps.{place_of};
ghost use Rattle.c_types_decl.specs.Entities.{types_in, type_enclosed, settled_function};

use crate::entities::declare_function;
use crate::names::{claim_name, place_of, token_of_name};
use crate::scopes::{close_params, open_scope};
use crate::signatures::{all_kinds, type_params};
use c_base::place::NoMemory;
use c_checker::checker::Checker;
use c_checker::ruling::by;
use c_checker_parts::lengths::{pointed, step_stars};
use c_syntax::text::Text;
use c_syntax::tree::{CType, Named, Params, Star};
use c_tree::complaints::WRONG_TYPE;
use c_type_rules::storing::result_kind;

/// A parameter: its name, which is empty where it has none, and its type, where no complaint stands inside.
#[derive(Drop)]
pub struct Parameter {
    pub name: Text,
    pub kind: Option<CType>,
}

/// A declared function: the number of its row, and its parameters.
#[derive(Drop)]
pub struct Declared {
    pub number: u32,
    pub given: Vec<Parameter>,
}

/// Declares a function in front of whose stars stands that type; its parameters are typed in place. `defining` says that
/// a body follows, before which the scope of the parameters' tags stays open.
pub fn type_function(
    checker: &mut Checker,
    defining: bool,
    kind: Option<CType>,
    stars: &[Star],
    name: &Option<Named>,
    params: &mut Params,
) -> Result<Declared, NoMemory>
    ensures tree { OnOk result (declarator stars.now name.now (function (params_shape params.new)) no_init ≡ (type_function defining (type_in kind) stars.now name.now (params_shape params.old) no_init (state_of checker.old)).name) }
    ensures number { IfOk result (λ f. f.number ≡ (type_function defining (type_in kind) stars.now name.now (params_shape params.old) no_init (state_of checker.old)).number) }
    ensures given { IfOk result (λ f. map parameter_of f.given.items ≡ (type_function defining (type_in kind) stars.now name.now (params_shape params.old) no_init (state_of checker.old)).given) }
    ensures state { OnOk result (state_of checker.new ≡ (type_function defining (type_in kind) stars.now name.now (params_shape params.old) no_init (state_of checker.old)).state) }
{
    let file = checker.file;
    let kind = pointed(stars, kind, checker.alloc)?;
    step_stars(checker, stars);
    let token = token_of_name(checker, checker.at, name);
    let given = type_enclosed(checker, defining, name, params)?;
    let number = settled_function(checker, defining, file, token, name, kind, &given)?;
    Ok(Declared { number, given })
}

// Claims a function's name and types its parameters in place, in a scope of their own.
fn type_enclosed(
    checker: &mut Checker,
    defining: bool,
    name: &Option<Named>,
    params: &mut Params,
) -> Result<Vec<Parameter>, NoMemory>
    ensures tree { OnOk result (params_shape params.new ≡ (type_enclosed defining name.now (params_shape params.old) (state_of checker.old)).params) }
    ensures given { IfOk result (λ g. map parameter_of g.items ≡ (type_enclosed defining name.now (params_shape params.old) (state_of checker.old)).given) }
    ensures state { OnOk result (state_of checker.new ≡ (type_enclosed defining name.now (params_shape params.old) (state_of checker.old)).state) }
{
    claim_name(checker, false, name)?;
    open_scope(checker)?;
    checker.within();
    let given = type_params(checker, defining, params)?;
    close_params(checker, defining);
    Ok(given)
}

// Declares a function at that token, which gives that type and takes those parameters: the number of its row.
fn settled_function(
    checker: &mut Checker,
    defining: bool,
    file: bool,
    token: u32,
    name: &Option<Named>,
    kind: Option<CType>,
    given: &[Parameter],
) -> Result<u32, NoMemory>
    ensures number { IfOk result (λ n. n ≡ (settled_function defining file token name.now (type_in kind) (map parameter_of given.now) (state_of checker.old)).number) }
    ensures state { OnOk result (state_of checker.new ≡ (settled_function defining file token name.now (type_in kind) (map parameter_of given.now) (state_of checker.old)).state) }
{
    let gives = checker.rule(by(WRONG_TYPE, result_kind(kind)), token, place_of(name))?;
    checker.outside(file);
    let params = all_kinds(given, checker.alloc)?;
    declare_named(checker, defining, token, name, gives, params)
}

// Declares a function of a declarator's name, which is empty where there is none.
fn declare_named(
    checker: &mut Checker,
    defining: bool,
    token: u32,
    name: &Option<Named>,
    gives: Option<CType>,
    params: Option<Vec<CType>>,
) -> Result<u32, NoMemory>
    ensures number { IfOk result (λ n. n ≡ (declare_function defining token (place_of name.now) (text_of name.now) (signature_of (type_in gives) (types_in params)) (state_of checker.old)).number) }
    ensures state { OnOk result (state_of checker.new ≡ (declare_function defining token (place_of name.now) (text_of name.now) (signature_of (type_in gives) (types_in params)) (state_of checker.old)).state) }
{
    match name {
        None => {
            let text = Text::new(checker.alloc);
            let number = declare_function(
                checker,
                defining,
                token,
                place_of(name),
                &text,
                gives,
                params,
            )?;
            Ok(number)
        }
        Some(name) => declare_function(
            checker, defining, token, name.pos, &name.text, gives, params,
        ),
    }
}
