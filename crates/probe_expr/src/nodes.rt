//! Expressions with their probes.

ghost use Rattle.std.specs.Prelude.{◌≡◌, IfOk};
ghost use Rattle.c_syntax.specs.Shape.{call};
ghost use Rattle.c_syntax.specs.View.{node_shape, expr_shape, node_list};
ghost use Rattle.c_walk.specs.declared.around.Taken.TheVariants.{Read};
ghost use Rattle.c_walk.specs.Walking.{walk_node, walk_form, walk_test, walk_arm, walk_nodes, walk_loop_test};
ghost use Rattle.probe_rules.specs.ProbedExpressions.{probed_node, probed_form, probed_test, probed_arm, probed_nodes, probed_loop_test};
ghost use Rattle.probe_expr.specs.Numbers.{Numbered};

use crate::marks::{in_block, in_test, sited};
use crate::numbers::Numbers;
use c_base::place::NoMemory;
use c_copy::build::new_call;
use c_copy::parts::put_inner;
use c_copy::tree::{copy_node, copy_probe, copy_type};
use c_syntax::text::Text;
use c_syntax::tree::{Expr, Node};
use c_walk::around::Taken;
use c_walk::taken::{left_taken, operand_taken, right_taken};
use c_walk::tests::is_logical;
use std::alloc::Global;

/// Makes trees with their probes: what makes memory, and what is numbered so far.
#[derive(Drop)]
pub struct Prober {
    pub alloc: Global,
    pub numbers: Numbers,
}

impl Prober {
    /// An expression with its probes, of whose value that is done.
    #[cycle(probed)]
    pub fn node(&mut self, taken: Taken, node: &Node) -> Result<Box<Node>, NoMemory>
        ensures { IfOk result (λ n. Numbered self.old.numbers self.new.numbers (node_shape n.value) (λ c w. probed_node c taken (node_shape node.now) w) (λ c w. walk_node c taken (node_shape node.now) w)) }
    {
        let here = self.numbers;
        self.numbers.site(taken, node)?;
        let form = self.form(taken, &node.form)?;
        let made = sited(self.alloc, here, taken, node, form)?;
        Ok(made)
    }

    /// One whose value is read.
    #[cycle(probed)]
    pub fn read(&mut self, node: &Node) -> Result<Box<Node>, NoMemory>
        ensures { IfOk result (λ n. Numbered self.old.numbers self.new.numbers (node_shape n.value) (λ c w. probed_node c Read (node_shape node.now) w) (λ c w. walk_node c Read (node_shape node.now) w)) }
    {
        self.node(Taken::Read, node)
    }

    #[cycle(probed)]
    fn form(&mut self, taken: Taken, form: &Expr) -> Result<Expr, NoMemory>
        ensures { IfOk result (λ f. Numbered self.old.numbers self.new.numbers (expr_shape f) (λ c w. probed_form c taken (expr_shape form.now) w) (λ c w. walk_form c taken (expr_shape form.now) w)) }
    {
        match form {
            Expr::Number(text) => Ok(Expr::Number(text.copy(self.alloc)?)),
            Expr::Char(byte) => Ok(Expr::Char(*byte)),
            Expr::Str(text) => Ok(Expr::Str(text.copy(self.alloc)?)),
            Expr::Name(text) => Ok(Expr::Name(text.copy(self.alloc)?)),
            Expr::Paren(a) => Ok(Expr::Paren(self.node(taken, a)?)),
            Expr::Index(a, b) => Ok(Expr::Index(self.read(a)?, self.read(b)?)),
            Expr::Member(a, name, at) => {
                Ok(Expr::Member(self.read(a)?, name.copy(self.alloc)?, *at))
            }
            Expr::Arrow(a, name, at) => Ok(Expr::Arrow(self.read(a)?, name.copy(self.alloc)?, *at)),
            Expr::Call(name, args) => Ok(self.call(name, args)?),
            Expr::Unary(op, a) => Ok(Expr::Unary(*op, self.node(operand_taken(*op), a)?)),
            Expr::Step(op, a) => Ok(Expr::Step(*op, self.node(Taken::Changed, a)?)),
            Expr::SizeOf(a) => Ok(Expr::SizeOf(copy_node(self.alloc, a)?)),
            Expr::SizeOfType(name) => Ok(Expr::SizeOfType(copy_type(self.alloc, name)?)),
            Expr::Cast(name, a) => Ok(Expr::Cast(copy_type(self.alloc, name)?, self.read(a)?)),
            Expr::Binary(op, a, b) => Ok(Expr::Binary(*op, self.read(a)?, self.read(b)?)),
            Expr::And(a, b) => Ok(Expr::And(self.test(a)?, self.loop_test(b)?)),
            Expr::Or(a, b) => Ok(Expr::Or(self.test(a)?, self.loop_test(b)?)),
            Expr::Cond(a, b, c) => Ok(Expr::Cond(self.test(a)?, self.arm(b)?, self.arm(c)?)),
            Expr::Assign(op, a, b) => Ok(Expr::Assign(
                *op,
                self.node(left_taken(*op), a)?,
                self.node(right_taken(*op, a), b)?,
            )),
            Expr::Comma(a, b) => Ok(Expr::Comma(self.read(a)?, self.read(b)?)),
            // what stands in a probe stays as it is, and is counted
            Expr::Probe(probe, a) => {
                self.node(taken, a)?;
                Ok(Expr::Probe(copy_probe(self.alloc, probe)?, copy_node(self.alloc, a)?))
            }
        }
    }

    /// An expression at a test position.
    #[cycle(probed)]
    pub fn test(&mut self, node: &Node) -> Result<Box<Node>, NoMemory>
        ensures { IfOk result (λ n. Numbered self.old.numbers self.new.numbers (node_shape n.value) (λ c w. probed_test c (node_shape node.now) w) (λ c w. walk_test c (node_shape node.now) w)) }
    {
        let here = self.numbers;
        self.numbers.test(node)?;
        let inner = self.read(node)?;
        let made = in_test(self.alloc, here, is_logical(node), inner)?;
        Ok(made)
    }

    /// An expression that is a block.
    #[cycle(probed)]
    pub fn arm(&mut self, node: &Node) -> Result<Box<Node>, NoMemory>
        ensures { IfOk result (λ n. Numbered self.old.numbers self.new.numbers (node_shape n.value) (λ c w. probed_arm c (node_shape node.now) w) (λ c w. walk_arm c (node_shape node.now) w)) }
    {
        let here = self.numbers;
        self.numbers.block()?;
        let inner = self.read(node)?;
        let made = in_block(self.alloc, here, inner)?;
        Ok(made)
    }

    /// A block at a test position, as the test of a loop.
    #[cycle(probed)]
    pub fn loop_test(&mut self, node: &Node) -> Result<Box<Node>, NoMemory>
        ensures { IfOk result (λ n. Numbered self.old.numbers self.new.numbers (node_shape n.value) (λ c w. probed_loop_test c (node_shape node.now) w) (λ c w. walk_loop_test c (node_shape node.now) w)) }
    {
        let here = self.numbers;
        self.numbers.block()?;
        let inner = self.test(node)?;
        let made = in_block(self.alloc, here, inner)?;
        Ok(made)
    }

    #[cycle(probed)]
    fn call(&mut self, name: &Text, args: &[Node]) -> Result<Expr, NoMemory>
        ensures { IfOk result (λ f. Numbered self.old.numbers self.new.numbers (expr_shape f) (λ c w. call name.now (probed_nodes c (node_list args.now) w)) (λ c w. walk_nodes c (node_list args.now) w)) }
    {
        let name = name.copy(self.alloc)?;
        let args = self.nodes(args)?;
        Ok(new_call(name, args))
    }

    #[cycle(probed)]
    fn nodes(&mut self, nodes: &[Node]) -> Result<Vec<Node>, NoMemory>
        ensures { IfOk result (λ v. Numbered self.old.numbers self.new.numbers (node_list v.items) (λ c w. probed_nodes c (node_list nodes.now) w) (λ c w. walk_nodes c (node_list nodes.now) w)) }
    {
        let mut made = Vec::new(self.alloc);
        for node in nodes {
            let inner = self.read(node)?;
            put_inner(&mut made, inner)?;
        }
        Ok(made)
    }
}
