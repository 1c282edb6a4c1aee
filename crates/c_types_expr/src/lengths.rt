// Array lengths in brackets (C89, 3.5.4.2).

ghost use Rattle.std.specs.Prelude.{◌≡◌, ◌++◌, [], ◌∷◌, map, OnOk, IfOk};
ghost use Rattle.c_syntax.specs.View.{node_shape, maybe_node, lengths_list, type_lengths_list};
ghost use Rattle.c_tree.specs.Typing.{type_lengths};
ghost use Rattle.c_checker.specs.CheckerView.{state_of};
ghost use Rattle.c_checker_parts.specs.LengthView.{length_shape};
ghost use Rattle.c_syntax.specs.Shape.{one_node};
ghost use Rattle.c_types_expr.specs.Parts.{bracketed};

use crate::nodes::type_node;
use c_base::place::NoMemory;
use c_checker::checker::Checker;
use c_checker_parts::lengths::{Length, judged_length};
use c_syntax::tree::Node;

/// Types the lengths in brackets in place, and answers what stands in each.
#[cycle(typing)]
pub fn type_lengths(
    checker: &mut Checker,
    lengths: &mut Vec<Option<Node>>,
) -> Result<Vec<Length>, NoMemory>
    ensures tree { OnOk result (lengths_list lengths.new.items ≡ (type_lengths [] (lengths_list lengths.old.items) (state_of checker.old)).lengths) }
    ensures counts { IfOk result (λ ls. map length_shape ls.items ≡ (type_lengths [] (lengths_list lengths.old.items) (state_of checker.old)).counts) }
    ensures state { OnOk result (state_of checker.new ≡ (type_lengths [] (lengths_list lengths.old.items) (state_of checker.old)).state) }
{
    let mut counts = Vec::new(checker.alloc);
    for i in 0..lengths.len() {
        type_brackets(checker, &mut lengths[i], &mut counts)?;
    }
    Ok(counts)
}

// Brackets with a length, or without.
#[cycle(typing)]
fn type_brackets(
    checker: &mut Checker,
    length: &mut Option<Node>,
    counts: &mut Vec<Length>,
) -> Result<(), NoMemory>
    ensures tree { OnOk result (maybe_node length.new ≡ (bracketed (maybe_node length.old) (state_of checker.old)).length) }
    ensures counts { OnOk result (map length_shape counts.new.items ≡ map length_shape counts.old.items ++ (bracketed (maybe_node length.old) (state_of checker.old)).count ∷ []) }
    ensures state { OnOk result (state_of checker.new ≡ (bracketed (maybe_node length.old) (state_of checker.old)).state) }
{
    match length {
        None => {
            checker.steps(2);
            add_length(counts, Length::LeftOut)
        }
        Some(a) => {
            type_length(checker, a, counts)?;
            Ok(())
        }
    }
}

// Brackets with a length.
#[cycle(typing)]
fn type_length(
    checker: &mut Checker,
    a: &mut Node,
    counts: &mut Vec<Length>,
) -> Result<(), NoMemory>
    ensures tree { OnOk result (one_node (node_shape a.new) ≡ (bracketed (one_node (node_shape a.old)) (state_of checker.old)).length) }
    ensures counts { OnOk result (map length_shape counts.new.items ≡ map length_shape counts.old.items ++ (bracketed (one_node (node_shape a.old)) (state_of checker.old)).count ∷ []) }
    ensures state { OnOk result (state_of checker.new ≡ (bracketed (one_node (node_shape a.old)) (state_of checker.old)).state) }
{
    checker.step();
    let token = checker.at;
    let pos = a.pos;
    let sort = type_node(checker, a)?;
    let length = judged_length(checker, token, pos, sort)?;
    checker.step();
    add_length(counts, length)
}

// One more length.
fn add_length(counts: &mut Vec<Length>, length: Length) -> Result<(), NoMemory>
    ensures { OnOk result (map length_shape counts.new.items ≡ map length_shape counts.old.items ++ length_shape length ∷ []) }
{
    match counts.push(length) {
        Ok(()) => Ok(()),
        Err(_) => Err(NoMemory),
    }
}

/// The same of a type name, where each length is there (C89, 3.5.5).
#[cycle(typing)]
pub fn type_name_lengths(
    checker: &mut Checker,
    lengths: &mut Vec<Node>,
) -> Result<Vec<Length>, NoMemory>
    ensures tree { OnOk result (type_lengths_list lengths.new.items ≡ (type_lengths [] (type_lengths_list lengths.old.items) (state_of checker.old)).lengths) }
    ensures counts { IfOk result (λ ls. map length_shape ls.items ≡ (type_lengths [] (type_lengths_list lengths.old.items) (state_of checker.old)).counts) }
    ensures state { OnOk result (state_of checker.new ≡ (type_lengths [] (type_lengths_list lengths.old.items) (state_of checker.old)).state) }
{
    let mut counts = Vec::new(checker.alloc);
    for i in 0..lengths.len() {
        type_length(checker, &mut lengths[i], &mut counts)?;
    }
    Ok(counts)
}
