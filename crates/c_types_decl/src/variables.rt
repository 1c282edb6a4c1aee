// Variables (C89, 3.5.4 and 3.5.7).

ghost use Rattle.std.specs.Prelude.{◌≡◌, ◌||◌, None, map, OnOk, IfOk};
ghost use Rattle.c_type_rules.specs.Kinds.{type_in};
ghost use Rattle.c_scopes.specs.Scoping.{find_here};
ghost use Rattle.c_syntax.specs.Shape.{declarator, arrays};
ghost use Rattle.c_syntax.specs.View.{type_of, lengths_list, maybe_init};
ghost use Rattle.c_tree.specs.Rulings.{kind_at};
ghost use Rattle.c_tables.specs.Rows.{text_of};
ghost use Rattle.c_tree.specs.Declaring.{with_variable, declare_variable, next_variable, with_row, has_init, type_maybe_init, type_variable};
ghost use Rattle.c_checker.specs.CheckerView.{state_of};
ghost use Rattle.c_checker.specs.RulingView.{ruled_of};
ghost use Rattle.c_checker_parts.specs.LengthView.{length_shape};
ghost use Rattle.c_types_decl.specs.Steps.{place_of, ruled_variable, settled_variable};

use crate::initialisers::type_init;
use crate::lengths::lengths_with;
use crate::names::{claim_name, place_of, token_of_name};
use crate::rules::variable_rule;
use c_base::place::{NoMemory, Pos};
use c_checker::checker::Checker;
use c_checker::ruling::Ruling;
use c_checker::sort::copied;
use c_checker_parts::lengths::{Length, pointed, step_stars};
use c_syntax::text::Text;
use c_syntax::tree::{CType, Init, Named, Node, Star};
use c_tables::tables::VariableRow;
use c_tree::complaints::DECLARED_TWICE;
use c_tree::meaning::Entity;
use c_types_expr::lengths::type_lengths;

/// Declares a variable of that type in the present scope, which doesn't have its name; where it has no type, the name
/// stands for nothing.
pub fn add_variable(checker: &mut Checker, name: &Text, kind: Option<CType>) -> Result<(), NoMemory>
    requires { find_here name.now (state_of checker.old).names ≡ None }
    ensures { OnOk result (state_of checker.new ≡ with_variable name.now (type_in kind) (state_of checker.old)) }
{
    match kind {
        None => checker.names.declare(name.bytes(), Entity::Unknown),
        Some(kind) => {
            let number = add_row(checker, name, kind)?;
            checker
                .names
                .declare(name.bytes(), Entity::Variable(number))
        }
    }
}

// A row for the variable: its number.
fn add_row(checker: &mut Checker, name: &Text, kind: CType) -> Result<u32, NoMemory>
    ensures number { IfOk result (λ n. n ≡ next_variable (state_of checker.old)) }
    ensures state { OnOk result (state_of checker.new ≡ with_row name.now (type_of kind) (state_of checker.old)) }
    ensures names { checker.new.names ≡ checker.old.names }
{
    let before = checker.tables.variables();
    if before == u32::MAX {
        return Err(NoMemory);
    }
    let name = name.copy(checker.alloc)?;
    let function = checker.function;
    checker.tables.push_variable(VariableRow {
        name,
        kind,
        function,
    })?;
    Ok(before + 1)
}

/// Declares a variable at that token, whose name is new in its scope (C89, 3.1.2.1).
pub fn declare_variable(
    checker: &mut Checker,
    token: u32,
    pos: Pos,
    name: &Text,
    kind: Option<CType>,
) -> Result<(), NoMemory>
    ensures { OnOk result (state_of checker.new ≡ declare_variable token pos name.now (type_in kind) (state_of checker.old)) }
{
    match checker.names.find_here(name.bytes()) {
        None => add_variable(checker, name, kind),
        Some(_) => checker.complain(DECLARED_TWICE, token, pos),
    }
}

// The same of a declarator's name, which is empty where there is none.
fn declare_named(
    checker: &mut Checker,
    token: u32,
    name: &Option<Named>,
    kind: Option<CType>,
) -> Result<(), NoMemory>
    ensures { OnOk result (state_of checker.new ≡ declare_variable token (place_of name.now) (text_of name.now) (type_in kind) (state_of checker.old)) }
{
    match name {
        None => {
            let text = Text::new(checker.alloc);
            declare_variable(checker, token, place_of(name), &text, kind)
        }
        Some(name) => declare_variable(checker, token, name.pos, &name.text, kind),
    }
}

// The type of a variable: behind its stars, with its lengths, the first of which its initialiser may give.
fn ruled_variable(
    checker: &Checker,
    stars: &[Star],
    init: &Option<Init>,
    lengths: Vec<Length>,
    kind: &Option<CType>,
) -> Result<Ruling, NoMemory>
    ensures { IfOk result (λ r. ruled_of r ≡ ruled_variable stars.now (maybe_init init.now) (map length_shape lengths.items) (type_in kind.now) (state_of checker.now)) }
{
    let mut lengths = lengths;
    lengths_with(init, &mut lengths);
    let kind = copied(kind, checker.alloc)?;
    let kind = pointed(stars, kind, checker.alloc)?;
    variable_rule(&checker.rooms, &lengths, kind, checker.alloc)
}

// Declares the variable of a declarator as it was ruled, and answers its type.
fn settled_variable(
    checker: &mut Checker,
    token: u32,
    name: &Option<Named>,
    ruling: Ruling,
) -> Result<Option<CType>, NoMemory>
    ensures kind { IfOk result (λ k. type_in k ≡ kind_at (ruled_of ruling)) }
    ensures state { OnOk result (state_of checker.new ≡ settled_variable token name.now (ruled_of ruling) (state_of checker.old)) }
{
    let kind = checker.rule(ruling, token, place_of(name))?;
    let row = copied(&kind, checker.alloc)?;
    declare_named(checker, token, name, row)?;
    Ok(kind)
}

// Types the initialiser behind an equal sign in place, if there is one.
fn type_maybe_init(
    checker: &mut Checker,
    constant: bool,
    kind: &Option<CType>,
    init: &mut Option<Init>,
) -> Result<(), NoMemory>
    ensures tree { OnOk result (maybe_init init.new ≡ (type_maybe_init constant (type_in kind.now) (maybe_init init.old) (state_of checker.old)).init) }
    ensures state { OnOk result (state_of checker.new ≡ (type_maybe_init constant (type_in kind.now) (maybe_init init.old) (state_of checker.old)).state) }
{
    match init {
        None => Ok(()),
        Some(init) => {
            checker.step();
            type_init(checker, constant, kind, init)?;
            Ok(())
        }
    }
}

// Whether a probe may stand round the name: outside of functions, or where there is an initialiser.
fn probe_fits(outside: bool, init: &Option<Init>) -> bool
    ensures { result ≡ (outside || has_init (maybe_init init.now)) }
{
    outside || init.is_some()
}

/// Declares a variable in front of whose stars stands that type; its lengths and its initialiser are typed in place.
pub fn type_variable(
    checker: &mut Checker,
    kind: &Option<CType>,
    stars: &[Star],
    name: &Option<Named>,
    lengths: &mut Vec<Option<Node>>,
    init: &mut Option<Init>,
) -> Result<(), NoMemory>
    ensures tree { OnOk result (declarator stars.now name.now (arrays (lengths_list lengths.new.items)) (maybe_init init.new) ≡ (type_variable (type_in kind.now) stars.now name.now (lengths_list lengths.old.items) (maybe_init init.old) (state_of checker.old)).name) }
    ensures state { OnOk result (state_of checker.new ≡ (type_variable (type_in kind.now) stars.now name.now (lengths_list lengths.old.items) (maybe_init init.old) (state_of checker.old)).state) }
{
    let outside = checker.function == 0;
    step_stars(checker, stars);
    let token = token_of_name(checker, checker.at, name);
    claim_name(checker, probe_fits(outside, init), name)?;
    let counts = type_lengths(checker, lengths)?;
    let ruling = ruled_variable(checker, stars, init, counts, kind)?;
    let kind = settled_variable(checker, token, name, ruling)?;
    type_maybe_init(checker, outside, &kind, init)?;
    Ok(())
}
