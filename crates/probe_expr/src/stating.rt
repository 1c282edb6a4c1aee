//! The expressions in statements, with their probes.

ghost use Rattle.std.specs.Prelude.{◌≡◌, IfOk};
ghost use Rattle.c_syntax.specs.View.{node_shape, maybe_node, item_list};
ghost use Rattle.c_copy.specs.Boxes.{boxed_node};
ghost use Rattle.c_walk.specs.Walking.{walk_maybe, walk_maybe_test, walk_step};
ghost use Rattle.c_walk.specs.Stating.{walk_choice};
ghost use Rattle.probe_rules.specs.ProbedExpressions.{probed_maybe, probed_maybe_test, probed_step, probed_choice};
ghost use Rattle.probe_expr.specs.Numbers.{Numbered};

use crate::nodes::Prober;
use crate::selects::in_select;
use c_base::place::NoMemory;
use c_syntax::tree::{Item, Node};
use c_walk::tests::{case_values, choosing};

impl Prober {
    /// An expression, if there is one.
    pub fn maybe(&mut self, node: &Option<Node>) -> Result<Option<Box<Node>>, NoMemory>
        ensures { IfOk result (λ n. Numbered self.old.numbers self.new.numbers (boxed_node n) (λ c w. probed_maybe c (maybe_node node.now) w) (λ c w. walk_maybe c (maybe_node node.now) w)) }
    {
        match node {
            None => Ok(None),
            Some(node) => Ok(Some(self.read(node)?)),
        }
    }

    /// The test of a loop, if there is one.
    pub fn maybe_test(&mut self, node: &Option<Node>) -> Result<Option<Box<Node>>, NoMemory>
        ensures { IfOk result (λ n. Numbered self.old.numbers self.new.numbers (boxed_node n) (λ c w. probed_maybe_test c (maybe_node node.now) w) (λ c w. walk_maybe_test c (maybe_node node.now) w)) }
    {
        match node {
            None => Ok(None),
            Some(node) => Ok(Some(self.loop_test(node)?)),
        }
    }

    /// The step of a `for`, if there is one.
    pub fn step(&mut self, node: &Option<Node>) -> Result<Option<Box<Node>>, NoMemory>
        ensures { IfOk result (λ n. Numbered self.old.numbers self.new.numbers (boxed_node n) (λ c w. probed_step c (maybe_node node.now) w) (λ c w. walk_step c (maybe_node node.now) w)) }
    {
        match node {
            None => Ok(None),
            Some(node) => Ok(Some(self.arm(node)?)),
        }
    }

    /// What a switch with these statements chooses by (C89, 3.6.4.2).
    pub fn choice(&mut self, node: &Node, items: &[Item]) -> Result<Box<Node>, NoMemory>
        ensures { IfOk result (λ n. Numbered self.old.numbers self.new.numbers (node_shape n.value) (λ c w. probed_choice c (node_shape node.now) (item_list items.now) w) (λ c w. walk_choice c (node_shape node.now) (item_list items.now) w)) }
    {
        let here = self.numbers;
        self.numbers.decision()?;
        let values = case_values(self.alloc, choosing(node), items)?;
        let inner = self.read(node)?;
        let made = in_select(self.alloc, here, &values, inner)?;
        Ok(made)
    }
}
