//! The numbers of probes.

ghost use Rattle.std.specs.Prelude.{◌≡◌, ◌+◌, Option, true, IfOk, OnOk};
ghost use Rattle.std.specs.Fmt.{decimal};
ghost use Rattle.c_base.specs.declared.place.Pos.{Pos};
ghost use Rattle.c_syntax.specs.View.{note_shape, expr_shape};
ghost use Rattle.c_walk.specs.Items.{Outcomes, Direct};
ghost use Rattle.c_walk.specs.Units.{no_items};
ghost use Rattle.c_walk.specs.Walked.{Walked, next_decision, is_used, is_written, with_block, with_block_if, with_decision, with_test, with_def, with_use, with_site};
ghost use Rattle.c_walk.specs.Counted.{next_block, next_def, next_use};
ghost use Rattle.probe_expr.specs.Numbers.{counts, Counted};

use c_base::place::NoMemory;
use c_syntax::text::Text;
use c_syntax::tree::Node;
use c_walk::around::Taken;
use c_walk::places::is_place;
use c_walk::taken::{is_used, is_written};
use c_walk::tests::is_logical;
use std::alloc::Global;

/// How many blocks, decisions, definitions and uses have their numbers.
#[derive(Clone, Copy, Debug, PartialEq, Eq)]
pub struct Numbers {
    pub blocks: u16,
    pub decisions: u16,
    pub defs: u16,
    pub uses: u16,
}

impl Numbers {
    /// Nothing is numbered yet.
    pub fn none() -> Numbers
        ensures { result ≡ counts no_items }
    {
        Numbers {
            blocks: 0,
            decisions: 0,
            defs: 0,
            uses: 0,
        }
    }

    /// A block is numbered.
    pub fn block(&mut self) -> Result<(), NoMemory>
        ensures { OnOk result ((p : Pos) → Counted self.old self.new (λ c w. with_block p w)) }
    {
        let blocks = next(self.blocks)?;
        self.blocks = blocks;
        Ok(())
    }

    /// A block is numbered, if it is one.
    pub fn block_if(&mut self, block: bool) -> Result<(), NoMemory>
        ensures { OnOk result ((p : Pos) → Counted self.old self.new (λ c w. with_block_if block p w)) }
    {
        if block { self.block() } else { Ok(()) }
    }

    /// A decision is numbered.
    pub fn decision(&mut self) -> Result<(), NoMemory>
        ensures { OnOk result ((p : Pos) (o : Outcomes) → Counted self.old self.new (λ c w. with_decision p o w)) }
    {
        let decisions = next(self.decisions)?;
        self.decisions = decisions;
        Ok(())
    }

    /// A definition is numbered.
    pub fn def(&mut self) -> Result<(), NoMemory>
        ensures { OnOk result ((p : Pos) (d : Option Direct) → Counted self.old self.new (λ c w. with_def true c p d w)) }
    {
        let defs = next(self.defs)?;
        self.defs = defs;
        Ok(())
    }

    /// A use is numbered.
    pub fn used(&mut self) -> Result<(), NoMemory>
        ensures { OnOk result ((p : Pos) (d : Option Direct) → Counted self.old self.new (λ c w. with_use true c p d w)) }
    {
        let uses = next(self.uses)?;
        self.uses = uses;
        Ok(())
    }

    fn def_if(&mut self, written: bool) -> Result<(), NoMemory>
        ensures { OnOk result ((p : Pos) (d : Option Direct) → Counted self.old self.new (λ c w. with_def written c p d w)) }
    {
        if written { self.def() } else { Ok(()) }
    }

    fn use_if(&mut self, read: bool) -> Result<(), NoMemory>
        ensures { OnOk result ((p : Pos) (d : Option Direct) → Counted self.old self.new (λ c w. with_use read c p d w)) }
    {
        if read { self.used() } else { Ok(()) }
    }

    /// The sites of an expression by itself, of whose value that is done, are numbered.
    pub fn site(&mut self, taken: Taken, node: &Node) -> Result<(), NoMemory>
        ensures { OnOk result (Counted self.old self.new (λ c w. with_site c taken node.now.pos (note_shape node.now.note) (expr_shape node.now.form) w)) }
    {
        if is_place(&node.form) {
            self.def_if(is_written(taken))?;
            self.use_if(is_used(taken, node))
        } else {
            Ok(())
        }
    }

    /// An expression at a test position is numbered, if it is a decision.
    pub fn test(&mut self, node: &Node) -> Result<(), NoMemory>
        ensures { OnOk result (Counted self.old self.new (λ c w. with_test node.now.pos (expr_shape node.now.form) w)) }
    {
        if is_logical(node) {
            Ok(())
        } else {
            self.decision()
        }
    }

    /// The number of the next block.
    pub fn block_text(&self, alloc: Global) -> Result<Text, NoMemory>
        ensures { IfOk result (λ t. (w : Walked) → counts w ≡ self.now → t ≡ decimal (next_block w)) }
    {
        spelled(alloc, self.blocks)
    }

    /// The number of the next decision.
    pub fn decision_text(&self, alloc: Global) -> Result<Text, NoMemory>
        ensures { IfOk result (λ t. (w : Walked) → counts w ≡ self.now → t ≡ decimal (next_decision w)) }
    {
        spelled(alloc, self.decisions)
    }

    /// The number of the next definition.
    pub fn def_text(&self, alloc: Global) -> Result<Text, NoMemory>
        ensures { IfOk result (λ t. (w : Walked) → counts w ≡ self.now → t ≡ decimal (next_def w)) }
    {
        spelled(alloc, self.defs)
    }

    /// The number of the next use.
    pub fn use_text(&self, alloc: Global) -> Result<Text, NoMemory>
        ensures { IfOk result (λ t. (w : Walked) → counts w ≡ self.now → t ≡ decimal (next_use w)) }
    {
        spelled(alloc, self.uses)
    }
}

fn next(number: u16) -> Result<u16, NoMemory>
    ensures { IfOk result (λ n. n ≡ number + 1) }
{
    match number.checked_add(1) {
        Some(number) => Ok(number),
        None => Err(NoMemory),
    }
}

// The number behind this one, in decimal digits.
fn spelled(alloc: Global, number: u16) -> Result<Text, NoMemory>
    ensures { IfOk result (λ t. t ≡ decimal (number + 1)) }
{
    let number = next(number)?;
    decimal_text(alloc, u128::from(number))
}

/// A number in decimal digits.
pub fn decimal_text(alloc: Global, number: u128) -> Result<Text, NoMemory>
    ensures { IfOk result (λ t. t ≡ decimal number) }
{
    let Ok(digits) = number.to_string(alloc) else {
        return Err(NoMemory);
    };
    Text::from_bytes(alloc, digits.as_bytes())
}
