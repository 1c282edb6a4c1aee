// The numbered blocks, decisions, definitions and uses of a program.

ghost use Rattle.std.specs.Prelude.{◌≡◌, ◌-◌, ◌≤◌, length, map, slice_get, Some};
ghost use Rattle.std.specs.String.{string_bytes};
ghost use Rattle.c_sites.specs.Few.{AreFew};
ghost use Rattle.c_sites.specs.Leaf.{IsLeaf, HaveTexts};

use crate::lists::{Decision, DefSite, Lists, UseSite};
use c_base::place::Pos;

/// The blocks, decisions, definitions and uses of a program: at most 16,383 of each, numbered from 1 in the order of the
/// tree, and the texts of the leaf names of their sites, numbered from 1 in the order of the sites.
#[derive(Drop)]
pub struct Sites {
    lists: Lists,
    texts: Vec<String>,
    ghost few: { AreFew lists },
    ghost named: { HaveTexts lists (map string_bytes texts.items) },
}

impl Sites {
    /// The sites in these lists, with the texts of their leaf names.
    pub fn new(lists: Lists, texts: Vec<String>) -> Sites
        requires few { AreFew lists }
        requires named { HaveTexts lists (map string_bytes texts.items) }
        ensures lists { result.lists ≡ lists }
        ensures texts { result.texts ≡ texts }
    {
        Sites { lists, texts }
    }

    /// How many blocks there are.
    pub fn blocks(&self) -> u16
        ensures { result ≡ length self.now.lists.blocks.items }
    {
        self.lists.blocks.len() as u16
    }

    /// The place of the block with that number.
    pub fn block(&self, k: u16) -> Pos
        requires { (1 ≤ k) × (k ≤ length self.now.lists.blocks.items) }
        ensures { slice_get self.now.lists.blocks.items (k - 1) ≡ Some result }
    {
        self.lists.blocks[k as usize - 1]
    }

    /// How many decisions there are.
    pub fn decisions(&self) -> u16
        ensures { result ≡ length self.now.lists.decisions.items }
    {
        self.lists.decisions.len() as u16
    }

    /// The decision with that number.
    pub fn decision(&self, k: u16) -> &Decision
        requires { (1 ≤ k) × (k ≤ length self.now.lists.decisions.items) }
        ensures { slice_get self.now.lists.decisions.items (k - 1) ≡ Some result.now }
    {
        &self.lists.decisions[k as usize - 1]
    }

    /// How many definitions there are.
    pub fn defs(&self) -> u16
        ensures { result ≡ length self.now.lists.defs.items }
    {
        self.lists.defs.len() as u16
    }

    /// The definition with that number.
    pub fn def(&self, d: u16) -> &DefSite
        requires { (1 ≤ d) × (d ≤ length self.now.lists.defs.items) }
        ensures { slice_get self.now.lists.defs.items (d - 1) ≡ Some result.now }
    {
        &self.lists.defs[d as usize - 1]
    }

    /// How many uses there are.
    pub fn uses(&self) -> u16
        ensures { result ≡ length self.now.lists.uses.items }
    {
        self.lists.uses.len() as u16
    }

    /// The use with that number.
    pub fn use_site(&self, u: u16) -> &UseSite
        requires { (1 ≤ u) × (u ≤ length self.now.lists.uses.items) }
        ensures { slice_get self.now.lists.uses.items (u - 1) ≡ Some result.now }
    {
        &self.lists.uses[u as usize - 1]
    }

    /// The texts of the leaf names, in the order of their numbers.
    pub fn texts(&self) -> &[String]
        ensures { result.now ≡ self.now.texts.items }
    {
        self.texts.as_slice()
    }

    /// The text of the leaf name with that number, which some direct site has: the variable's name with each field as `.f`
    /// and each index as `[]`. Two direct sites with one such number have the same variable and the same text there, and no
    /// others have.
    pub fn leaf(&self, name: u32) -> &str
        requires { IsLeaf self.now.lists name }
        ensures { slice_get (map string_bytes self.now.texts.items) (name - 1) ≡ Some result.now }
    {
        self.texts[name as usize - 1].as_str()
    }
}
