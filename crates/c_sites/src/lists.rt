// The four kinds of items, each in a list of its own.

ghost use Rattle.std.specs.Prelude.{◌≡◌, [], ◌∷◌, ◌++◌, map, option_map, OnOk, IfOk};
ghost use Rattle.std.specs.List.{AllByRecursion};
ghost use Rattle.c_tables.specs.Tables.{tables_shape};
ghost use Rattle.c_walk.specs.ItemView.{item_shape, place_shape};
ghost use Rattle.c_sites.specs.Added.{IsAdded, IsDef, IsUse};
ghost use Rattle.c_sites.specs.Few.{IsShort, HasShortOwner};
ghost use Rattle.c_sites.specs.Kinds.{variable_of};
ghost use Rattle.c_sites.specs.Lists.{lists_of};
ghost use Rattle.c_sites.specs.ListsView.{lists_shape, def_shape, use_shape};
ghost use Rattle.c_sites.specs.Numbers.{names_of, first_number};

use crate::names::Names;
use crate::naming::{own_numbers, site_numbers};
use c_base::labels::Labels;
use c_base::numbers::NumberList;
use c_base::place::{NoMemory, Pos};
use c_tables::tables::Tables;
use c_walk::items::{Direct, Item};
use c_walk::outcomes::labels_of;
use std::alloc::Global;

/// A decision: the place of its expression's first token, and its outcomes.
#[derive(Drop)]
pub struct Decision {
    pub pos: Pos,
    pub labels: Labels,
}

/// A definition: its place, the number of the function that it stands in, or 0 at file scope, the variable that it is of,
/// if it is direct, and the numbers of its leaf names; an indirect one has none.
#[derive(Drop)]
pub struct DefSite {
    pub pos: Pos,
    pub function: u32,
    pub variable: Option<u32>,
    pub names: NumberList,
}

/// A use: its place, its function, its variable, if it is direct, the number of its own name, and those of its leaf names, of
/// which an integer or a pointer has its own one alone; an indirect one has none, and its name is 0. And the number of the decision whose expression holds it, the innermost
/// one, if there is one.
#[derive(Drop)]
pub struct UseSite {
    pub pos: Pos,
    pub function: u32,
    pub variable: Option<u32>,
    pub name: u32,
    pub names: NumberList,
    pub owner: Option<u16>,
}

/// The blocks, decisions, definitions and uses of a program, each kind numbered from 1 in the order of its list.
#[derive(Drop)]
pub struct Lists {
    pub blocks: Vec<Pos>,
    pub decisions: Vec<Decision>,
    pub defs: Vec<DefSite>,
    pub uses: Vec<UseSite>,
}

impl Lists {
    /// No item.
    pub fn new(alloc: Global) -> Lists
        ensures { lists_shape result ≡ lists_of [] [] [] }
    {
        Lists {
            blocks: Vec::new(alloc),
            decisions: Vec::new(alloc),
            defs: Vec::new(alloc),
            uses: Vec::new(alloc),
        }
    }

    /// One more item, whose leaf names are among the names from now on.
    pub fn add(
        &mut self,
        alloc: Global,
        names: &mut Names,
        tables: &Tables,
        item: Item,
    ) -> Result<(), NoMemory>
        requires { HasShortOwner (item_shape item) }
        ensures { OnOk result (IsAdded names.old names.new (tables_shape tables.now).structures (item_shape item) (lists_shape self.old) (lists_shape self.new)) }
    {
        match item {
            Item::Block(pos) => put(&mut self.blocks, pos),
            Item::Decision(pos, outcomes) => {
                let labels = labels_of(alloc, &outcomes)?;
                put(&mut self.decisions, Decision { pos, labels })
            }
            Item::Def(pos, function, place) => {
                let site = def_site(alloc, names, tables, pos, function, place)?;
                put(&mut self.defs, site)
            }
            Item::Used(pos, function, place, owner) => {
                let mut site = use_site(alloc, names, tables, pos, function, place)?;
                site.owner = owner_number(owner);
                put(&mut self.uses, site)
            }
        }
    }
}

fn put<T: Drop>(list: &mut Vec<T>, item: T) -> Result<(), NoMemory>
    ensures { OnOk result (list.new.items ≡ list.old.items ++ item ∷ []) }
{
    match list.push(item) {
        Ok(()) => Ok(()),
        Err(_) => Err(NoMemory),
    }
}

fn variable_of(place: &Option<Direct>) -> Option<u32>
    ensures { result ≡ variable_of (place_shape place.now) }
{
    match place {
        None => None,
        Some(place) => Some(place.variable),
    }
}

fn def_site(
    alloc: Global,
    names: &mut Names,
    tables: &Tables,
    pos: Pos,
    function: u32,
    place: Option<Direct>,
) -> Result<DefSite, NoMemory>
    ensures { IfOk result (λ d. IsDef names.old names.new (tables_shape tables.now).structures pos function (place_shape place) (def_shape d)) }
{
    let variable = variable_of(&place);
    let numbers = site_numbers(alloc, names, tables, place)?;
    Ok(DefSite {
        pos,
        function,
        variable,
        names: numbers,
    })
}

// A use outside of decisions.
fn use_site(
    alloc: Global,
    names: &mut Names,
    tables: &Tables,
    pos: Pos,
    function: u32,
    place: Option<Direct>,
) -> Result<UseSite, NoMemory>
    ensures { IfOk result (λ u. IsUse names.old names.new (tables_shape tables.now).structures pos function (place_shape place) None (use_shape u)) }
{
    let variable = variable_of(&place);
    let own = own_numbers(alloc, names, &place)?;
    let numbers = site_numbers(alloc, names, tables, place)?;
    let name = first_number(&own);
    Ok(UseSite {
        pos,
        function,
        variable,
        name,
        names: numbers,
        owner: None,
    })
}

// A decision's number, of which there are not so many.
fn owner_number(owner: Option<u32>) -> Option<u16>
    requires { IsShort owner }
    ensures { result ≡ owner }
{
    match owner {
        None => None,
        Some(number) => Some(number as u16),
    }
}

fn first_number(numbers: &NumberList) -> u32
    ensures { result ≡ first_number numbers.now }
{
    if numbers.len() == 0 {
        0
    } else {
        numbers.get(0)
    }
}

/// The items, each kind in a list of its own, and the different leaf names of their sites. Linear in the items and in their
/// leaf names, each site's counted by itself and as long as it is.
pub fn lists_of(
    alloc: Global,
    tables: &Tables,
    items: Vec<Item>,
) -> Result<(Lists, Names), NoMemory>
    requires { AllByRecursion HasShortOwner (map item_shape items.items) }
    ensures names { IfOk result (λ r. r.1 ≡ names_of (tables_shape tables.now).structures (map item_shape items.items)) }
    ensures lists { IfOk result (λ r. lists_shape r.0 ≡ lists_of r.1 (tables_shape tables.now).structures (map item_shape items.items)) }
{
    let mut lists = Lists::new(alloc);
    let mut names = Names::new(alloc);
    for item in items {
        lists.add(alloc, &mut names, tables, item)?;
    }
    Ok((lists, names))
}
