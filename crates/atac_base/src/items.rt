//! What is listed and reported.

ghost use Rattle.std.specs.Prelude.{◌≡◌, ◌<◌, ◌≤◌, [], ◌∷◌, ◌++◌, length, OnOk, OnErr, slice_get, Some};

use crate::rows::{OutcomeRow, PUseRow, PairRow};
use c_base::place::{NoMemory, Pos};
use std::alloc::Global;
use std::marker::Model;

/// The items of a program, each kind in the order of its numbers: the places of the blocks, the outcomes of the decisions,
/// the c-uses and the p-uses; and the leaf names that the rows of pairs point to.
#[derive(Drop)]
pub struct Items {
    alloc: Global,
    blocks: Vec<Pos>,
    outcomes: Vec<OutcomeRow>,
    c_uses: Vec<PairRow>,
    p_uses: Vec<PUseRow>,
    names: Vec<String>,
}

impl Model for Items {
    ghost use Rattle.std.specs.Prelude.{length, map, string_bytes};
    ghost use Rattle.atac_base.specs.Items.{ItemLists, AreRows};

    ghost Value = { ItemLists };

    ghost view = { λ i. record { blocks = i.blocks.items; outcomes = i.outcomes.items; c_uses = i.c_uses.items; p_uses = i.p_uses.items; names = map string_bytes i.names.items } };

    ghost invariant = { λ i. AreRows i.blocks.items i.outcomes.items i.c_uses.items i.p_uses.items (length i.names.items) };
}

impl Items {
    ghost use Rattle.atac_base.specs.Items.{ItemLists};

    /// No item.
    pub fn new(alloc: Global) -> Items
        ensures blocks { result.blocks ≡ [] }
        ensures whole { result ≡ record { blocks = []; outcomes = []; c_uses = []; p_uses = []; names = [] } }
    {
        Items {
            alloc,
            blocks: Vec::new(alloc),
            outcomes: Vec::new(alloc),
            c_uses: Vec::new(alloc),
            p_uses: Vec::new(alloc),
            names: Vec::new(alloc),
        }
    }

    /// Appends a block.
    pub fn push_block(&mut self, pos: Pos) -> Result<(), NoMemory>
        requires { length self.old.blocks < 65535 }
        ensures ok { OnOk result (self.new ≡ record self.old { blocks = self.old.blocks ++ pos ∷ [] }) }
        ensures err { OnErr result (self.new ≡ self.old) }
    {
        self.blocks.push(pos)?;
        Ok(())
    }

    /// Appends an outcome of a decision.
    pub fn push_outcome(&mut self, row: OutcomeRow) -> Result<(), NoMemory>
        requires { length self.old.outcomes < 4294967295 }
        ensures ok { OnOk result (self.new ≡ record self.old { outcomes = self.old.outcomes ++ row ∷ [] }) }
        ensures err { OnErr result (self.new ≡ self.old) }
    {
        self.outcomes.push(row)?;
        Ok(())
    }

    /// Appends a c-use, whose name is there already.
    pub fn push_c_use(&mut self, row: PairRow) -> Result<(), NoMemory>
        requires few { length self.old.c_uses < 4294967295 }
        requires named { row.name < length self.old.names }
        ensures ok { OnOk result (self.new ≡ record self.old { c_uses = self.old.c_uses ++ row ∷ [] }) }
        ensures err { OnErr result (self.new ≡ self.old) }
    {
        self.c_uses.push(row)?;
        Ok(())
    }

    /// Appends a p-use, whose name is there already.
    pub fn push_p_use(&mut self, row: PUseRow) -> Result<(), NoMemory>
        requires few { length self.old.p_uses < 4294967295 }
        requires named { row.pair.name < length self.old.names }
        ensures ok { OnOk result (self.new ≡ record self.old { p_uses = self.old.p_uses ++ row ∷ [] }) }
        ensures err { OnErr result (self.new ≡ self.old) }
    {
        self.p_uses.push(row)?;
        Ok(())
    }

    /// Appends a leaf name.
    pub fn push_name(&mut self, name: &str) -> Result<(), NoMemory>
        requires { length self.old.names < 4294967295 }
        ensures ok { OnOk result (self.new ≡ record self.old { names = self.old.names ++ name.now ∷ [] }) }
        ensures err { OnErr result (self.new ≡ self.old) }
    {
        let name = String::from_str(self.alloc, name)?;
        self.names.push(name)?;
        Ok(())
    }

    /// The number of blocks, at most 65,535.
    pub fn blocks(&self) -> u32
        ensures count { result ≡ length self.now.blocks }
        ensures few { result ≤ 65535 }
    {
        self.blocks.len() as u32
    }

    /// The place of a block, counted from 0.
    pub fn block(&self, k: u32) -> Pos
        requires { k < length self.now.blocks }
        ensures { slice_get self.now.blocks k ≡ Some result }
    {
        self.blocks[k as usize]
    }

    /// The number of outcomes of all decisions.
    pub fn outcomes(&self) -> u32
        ensures { result ≡ length self.now.outcomes }
    {
        self.outcomes.len() as u32
    }

    /// An outcome, counted from 0.
    pub fn outcome(&self, i: u32) -> OutcomeRow
        requires { i < length self.now.outcomes }
        ensures { slice_get self.now.outcomes i ≡ Some result }
    {
        self.outcomes[i as usize]
    }

    /// The number of c-uses.
    pub fn c_uses(&self) -> u32
        ensures { result ≡ length self.now.c_uses }
    {
        self.c_uses.len() as u32
    }

    /// A c-use, counted from 0.
    pub fn c_use(&self, i: u32) -> PairRow
        requires { i < length self.now.c_uses }
        ensures row { slice_get self.now.c_uses i ≡ Some result }
        ensures named { result.name < length self.now.names }
    {
        self.c_uses[i as usize]
    }

    /// The number of p-uses.
    pub fn p_uses(&self) -> u32
        ensures { result ≡ length self.now.p_uses }
    {
        self.p_uses.len() as u32
    }

    /// A p-use, counted from 0.
    pub fn p_use(&self, i: u32) -> PUseRow
        requires { i < length self.now.p_uses }
        ensures row { slice_get self.now.p_uses i ≡ Some result }
        ensures named { result.pair.name < length self.now.names }
    {
        self.p_uses[i as usize]
    }

    /// The number of leaf names.
    pub fn names(&self) -> u32
        ensures { result ≡ length self.now.names }
    {
        self.names.len() as u32
    }

    /// A leaf name, counted from 0.
    pub fn name(&self, i: u32) -> &str
        requires { i < length self.now.names }
        ensures { slice_get self.now.names i ≡ Some result.now }
    {
        self.names[i as usize].as_str()
    }
}
