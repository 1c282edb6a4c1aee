// Lists of expressions: arguments (C89, 3.3.2.2), and the constants of a select.

ghost use Rattle.std.specs.Prelude.{◌≡◌, ◌++◌, [], ◌∷◌, map, OnOk, IfOk};
ghost use Rattle.c_syntax.specs.Shape.{call};
ghost use Rattle.c_syntax.specs.View.{node_shape, node_list};
ghost use Rattle.c_tree.specs.State.{step};
ghost use Rattle.c_tree.specs.Operators.{given_at};
ghost use Rattle.c_tree.specs.Parts.{judged_constant};
ghost use Rattle.c_tree.specs.Typing.{opening, type_node, type_call, type_arguments, type_cases};
ghost use Rattle.c_constants.specs.Constants as constants;
ghost use Rattle.c_checker.specs.CallView.{given_of};
ghost use Rattle.c_checker.specs.CheckerView.{state_of};
ghost use Rattle.c_checker.specs.SortView.{typing_of};

use crate::nodes::type_node;
use c_base::place::{NoMemory, Pos};
use c_checker::calls::Given;
use c_checker::checker::Checker;
use c_checker::sort::Typing;
use c_syntax::text::Text;
use c_syntax::tree::Node;

/// A call of the function with that name.
#[cycle(typing)]
pub fn type_call(
    checker: &mut Checker,
    pos: Pos,
    name: &Text,
    args: &mut Vec<Node>,
) -> Result<Typing, NoMemory>
    ensures tree { OnOk result (call name.now (node_list args.new.items) ≡ (type_call pos name.now (node_list args.old.items) (state_of checker.old)).form) }
    ensures typing { IfOk result (λ t. typing_of t ≡ (type_call pos name.now (node_list args.old.items) (state_of checker.old)).typing) }
    ensures state { OnOk result (state_of checker.new ≡ (type_call pos name.now (node_list args.old.items) (state_of checker.old)).state) }
{
    let token = checker.at;
    let function = checker.called(pos, name.bytes())?;
    let before = checker.complained();
    checker.steps(opening(args));
    let given = type_arguments(checker, args)?;
    let clean = before == checker.complained();
    let typing = checker.typed_call(pos, token, clean, function, &given)?;
    Ok(typing)
}

// The tokens before the arguments, where the parenthesis before the first one is that one's own.
#[tactic(auto, using(crate::proofs::Rows::none_before, crate::proofs::Rows::some_before))]
fn opening(args: &[Node]) -> u32
    ensures { result ≡ opening (node_list args.now) }
{
    if args.is_empty() { 2 } else { 1 }
}

// Arguments, each with the comma or the parenthesis before it.
#[cycle(typing)]
fn type_arguments(checker: &mut Checker, args: &mut Vec<Node>) -> Result<Vec<Given>, NoMemory>
    ensures tree { OnOk result (node_list args.new.items ≡ (type_arguments [] (node_list args.old.items) (state_of checker.old)).nodes) }
    ensures given { IfOk result (λ g. map given_of g.items ≡ (type_arguments [] (node_list args.old.items) (state_of checker.old)).given) }
    ensures state { OnOk result (state_of checker.new ≡ (type_arguments [] (node_list args.old.items) (state_of checker.old)).state) }
{
    let mut given = Vec::new(checker.alloc);
    for i in 0..args.len() {
        type_argument(checker, &mut args[i], &mut given)?;
    }
    Ok(given)
}

// An argument.
#[cycle(typing)]
fn type_argument(
    checker: &mut Checker,
    a: &mut Node,
    given: &mut Vec<Given>,
) -> Result<(), NoMemory>
    ensures tree { OnOk result (node_shape a.new ≡ (type_node (node_shape a.old) (step (state_of checker.old))).node) }
    ensures given { OnOk result (map given_of given.new.items ≡ map given_of given.old.items ++ given_at (step (state_of checker.old)).at a.old.pos (type_node (node_shape a.old) (step (state_of checker.old))).sort ∷ []) }
    ensures state { OnOk result (state_of checker.new ≡ (type_node (node_shape a.old) (step (state_of checker.old))).state) }
{
    checker.step();
    let token = checker.at;
    let pos = a.pos;
    let sort = type_node(checker, a)?;
    match given.push(Given::new(token, pos, sort)) {
        Ok(()) => Ok(()),
        Err(_) => Err(NoMemory),
    }
}

/// The constants of a select, each with the comma before it: their values, where no complaint stands inside.
#[cycle(typing)]
pub fn type_cases(
    checker: &mut Checker,
    cases: &mut Vec<Node>,
) -> Result<Vec<Option<i128>>, NoMemory>
    ensures tree { OnOk result (node_list cases.new.items ≡ (type_cases [] (node_list cases.old.items) (state_of checker.old)).nodes) }
    ensures values { IfOk result (λ v. v.items ≡ (type_cases [] (node_list cases.old.items) (state_of checker.old)).values) }
    ensures state { OnOk result (state_of checker.new ≡ (type_cases [] (node_list cases.old.items) (state_of checker.old)).state) }
{
    let mut values = Vec::new(checker.alloc);
    for i in 0..cases.len() {
        type_case(checker, &mut cases[i], &mut values)?;
    }
    Ok(values)
}

// A constant of a select.
#[cycle(typing)]
fn type_case(
    checker: &mut Checker,
    a: &mut Node,
    values: &mut Vec<Option<i128>>,
) -> Result<(), NoMemory>
    ensures tree { OnOk result (node_shape a.new ≡ (type_node (node_shape a.old) (step (state_of checker.old))).node) }
    ensures values { OnOk result (values.new.items ≡ values.old.items ++ constants.value (type_node (node_shape a.old) (step (state_of checker.old))).sort.constant ∷ []) }
    ensures state { OnOk result (state_of checker.new ≡ judged_constant (step (state_of checker.old)).at a.old.pos (type_node (node_shape a.old) (step (state_of checker.old))).sort (type_node (node_shape a.old) (step (state_of checker.old))).state) }
{
    checker.step();
    let token = checker.at;
    let pos = a.pos;
    let sort = type_node(checker, a)?;
    let value = checker.judged_constant(token, pos, sort)?;
    match values.push(value) {
        Ok(()) => Ok(()),
        Err(_) => Err(NoMemory),
    }
}
