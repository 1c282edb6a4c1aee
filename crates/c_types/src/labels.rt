// The labels of a `switch` (C89, 3.6.1 and 3.6.4.2).

ghost use Rattle.std.specs.Prelude.{◌≡◌, [], map, not, false, OnOk, IfOk};
ghost use Rattle.c_syntax.specs.Shape.{case};
ghost use Rattle.c_syntax.specs.View.{node_shape, label_shape};
ghost use Rattle.c_tree.specs.Operators.{wrapped};
ghost use Rattle.c_tree.specs.Stating.{kind_of_switch, comes_twice, as_kind, with_value, case_state, case_labels, default_state, default_labels, type_labels};
ghost use Rattle.c_checker.specs.CheckerView.{state_of};
ghost use Rattle.c_type_rules.specs.Kinds.{type_in};
ghost use Rattle.c_checker.specs.Among.{is_fresh};
ghost use Rattle.c_types.specs.LabelsView.{with_inserted, labels_of, labels_in, Alike, BothAlike, LabelsAlike, type_label};

use c_arith::convert;
use c_base::place::{IntKind, NoMemory, Pos};
use c_checker::checker::Checker;
use c_syntax::tree::{CType, Label, Node};
use c_tree::complaints::{CASE_TWICE, STRAY};
use c_types_expr::nodes::type_node;
use indexmap::IndexSet;
use std::alloc::Global;

/// The labels of a `switch` so far: the promoted type of its value, where no complaint stands inside; the values of its case
/// labels in that type; and whether one label is `default`.
#[derive(Drop)]
pub struct Labels {
    kind: Option<IntKind>,
    seen: IndexSet<i128>,
    default: bool,
}

impl Labels {
    /// None so far, in a `switch` over a value of that type.
    pub fn new(alloc: Global, kind: Option<CType>) -> Labels
        ensures { labels_of result ≡ record { kind = kind_of_switch (type_in kind); values = []; default = false } }
    {
        let kind = match kind {
            Some(CType::Int(kind)) => Some(kind),
            _ => None,
        };
        Labels {
            kind,
            seen: IndexSet::new(alloc),
            default: false,
        }
    }

    // One more case label: whether its value is new.
    fn see(&mut self, value: Option<i128>) -> Result<bool, NoMemory>
        ensures fresh { IfOk result (λ f. f ≡ not (comes_twice (labels_of self.old).kind (as_kind (labels_of self.old).kind value) (labels_of self.old).values)) }
        ensures seen { OnOk result (Alike (labels_of self.new) (with_value (as_kind (labels_of self.old).kind value) (labels_of self.old))) }
    {
        match self.kind {
            None => Ok(true),
            Some(kind) => {
                let fresh = insert(&mut self.seen, kind, value)?;
                Ok(fresh)
            }
        }
    }
}

// Whether the value, in that type, is none of those that were seen; it is one from now on.
fn insert(seen: &mut IndexSet<i128>, kind: IntKind, value: Option<i128>) -> Result<bool, NoMemory>
    ensures fresh { IfOk result (λ f. f ≡ is_fresh seen.old.keys (wrapped kind value)) }
    ensures keys { OnOk result (seen.new.keys ≡ with_inserted seen.old.keys (wrapped kind value)) }
{
    let Some(value) = value else {
        return Ok(true);
    };
    match seen.insert(convert(value, kind)) {
        Ok(fresh) => Ok(fresh),
        Err(_) => Err(NoMemory),
    }
}

// A case label, at that token, of a constant with that value.
fn see_case(
    checker: &mut Checker,
    token: u32,
    pos: Pos,
    labels: &mut Option<Labels>,
    value: Option<i128>,
) -> Result<(), NoMemory>
    ensures labels { OnOk result (BothAlike (labels_in labels.new) (case_labels (labels_in labels.old) value)) }
    ensures state { OnOk result (state_of checker.new ≡ case_state token pos (labels_in labels.old) value (state_of checker.old)) }
{
    match labels {
        None => {
            checker.complain(STRAY, token, pos)?;
            Ok(())
        }
        Some(labels) => {
            let fresh = labels.see(value)?;
            checker.demand(fresh, CASE_TWICE, token, pos)?;
            Ok(())
        }
    }
}

// A `default`, at that token.
fn see_default(
    checker: &mut Checker,
    token: u32,
    pos: Pos,
    labels: &mut Option<Labels>,
) -> Result<(), NoMemory>
    ensures labels { OnOk result (labels_in labels.new ≡ default_labels (labels_in labels.old)) }
    ensures state { OnOk result (state_of checker.new ≡ default_state token pos (labels_in labels.old) (state_of checker.old)) }
{
    match labels {
        None => checker.complain(STRAY, token, pos),
        Some(labels) => {
            let fresh = !labels.default;
            labels.default = true;
            checker.demand(fresh, CASE_TWICE, token, pos)
        }
    }
}

// Types a label in place, with the colon behind it.
fn type_label(
    checker: &mut Checker,
    labels: &mut Option<Labels>,
    label: &mut Label,
) -> Result<(), NoMemory>
    ensures tree { OnOk result (label_shape label.new ≡ (type_label (labels_in labels.old) (label_shape label.old) (state_of checker.old)).label) }
    ensures labels { OnOk result (BothAlike (labels_in labels.new) (type_label (labels_in labels.old) (label_shape label.old) (state_of checker.old)).so_far) }
    ensures state { OnOk result (state_of checker.new ≡ (type_label (labels_in labels.old) (label_shape label.old) (state_of checker.old)).state) }
{
    match label {
        Label::Case(pos, node) => {
            type_case(checker, labels, *pos, node)?;
            Ok(())
        }
        Label::Default(pos) => {
            let token = checker.at;
            see_default(checker, token, *pos, labels)?;
            checker.steps(2);
            Ok(())
        }
    }
}

// Types the constant of a case label at that place.
fn type_case(
    checker: &mut Checker,
    labels: &mut Option<Labels>,
    pos: Pos,
    node: &mut Node,
) -> Result<(), NoMemory>
    ensures tree { OnOk result (case pos (node_shape node.new) ≡ (type_label (labels_in labels.old) (case pos (node_shape node.old)) (state_of checker.old)).label) }
    ensures labels { OnOk result (BothAlike (labels_in labels.new) (type_label (labels_in labels.old) (case pos (node_shape node.old)) (state_of checker.old)).so_far) }
    ensures state { OnOk result (state_of checker.new ≡ (type_label (labels_in labels.old) (case pos (node_shape node.old)) (state_of checker.old)).state) }
{
    let token = checker.at;
    let first = node.pos;
    checker.step();
    let begun = checker.at;
    let a = type_node(checker, node)?;
    let value = checker.judged_constant(begun, first, a)?;
    see_case(checker, token, pos, labels, value)?;
    checker.step();
    Ok(())
}

/// Types the labels of a statement in place: each is one of its `switch`, if it stands directly in one.
pub fn type_labels(
    checker: &mut Checker,
    so_far: &mut Option<Labels>,
    labels: &mut Vec<Label>,
) -> Result<(), NoMemory>
    ensures { OnOk result (LabelsAlike (record { labels = map label_shape labels.new.items; so_far = labels_in so_far.new; state = state_of checker.new }) (type_labels (labels_in so_far.old) (map label_shape labels.old.items) (state_of checker.old))) }
{
    for i in 0..labels.len() {
        type_label(checker, so_far, &mut labels[i])?;
    }
    Ok(())
}
