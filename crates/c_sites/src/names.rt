//! The different leaf names of a program's sites.

ghost use Rattle.std.specs.Prelude.{◌≡◌, [], map, OnOk, IfOk};
ghost use Rattle.std.specs.String.{string_bytes};
ghost use Rattle.std.specs.Str.{encode_utf8_all};
ghost use Rattle.c_sites.specs.Names.{leaf_name};
ghost use Rattle.c_sites.specs.Numbers.{with_name};
ghost use Rattle.c_sites.specs.Spelled.{IsNumber, spelling};

use c_base::place::NoMemory;
use indexmap::IndexSet;
use std::alloc::Global;
use std::marker::Model;

/// A leaf name: its variable's number, and its text, which is the variable's name with each field as `.f` and each index
/// as `[]`.
#[derive(Debug, PartialEq, Eq, Hash, Drop)]
pub struct Leaf {
    variable: u32,
    text: Vec<u8>,
}

/// The different leaf names so far, in the order of their first sites.
#[derive(Drop)]
pub struct Names {
    leaves: IndexSet<Leaf>,
}

impl Model for Names {
    ghost use Rattle.std.specs.Prelude.{List, map};
    ghost use Rattle.c_sites.specs.Names.{LeafName};
    ghost use Rattle.c_sites.specs.LeafView.{leaf_shape};

    ghost Value = { List LeafName };

    ghost view = { λ n. map leaf_shape n.leaves.keys };
}

impl Names {
    /// No name.
    pub fn new(alloc: Global) -> Names
        ensures { result ≡ [] }
    {
        Names {
            leaves: IndexSet::new(alloc),
        }
    }

    /// The number of a leaf name, counted from 1; it is one of them from now on.
    pub fn number(&mut self, variable: u32, text: Vec<u8>) -> Result<u32, NoMemory>
        ensures names { OnOk result (self.new ≡ with_name self.old (leaf_name variable text.items)) }
        ensures number { IfOk result (IsNumber self.new (leaf_name variable text.items)) }
    {
        if self.leaves.len() >= 4_294_967_295 {
            return Err(NoMemory);
        }
        let Ok((index, _)) = self.leaves.insert_full(Leaf { variable, text }) else {
            return Err(NoMemory);
        };
        Ok(index as u32 + 1)
    }

    /// The texts of the names, in their order.
    pub fn into_texts(self, alloc: Global) -> Result<Vec<String>, NoMemory>
        ensures { IfOk result (λ t. map string_bytes t.items ≡ map spelling self) }
    {
        let Names { leaves } = self;
        let mut texts = Vec::new(alloc);
        for leaf in leaves {
            let text = spelled(alloc, leaf.text)?;
            if texts.push(text).is_err() {
                return Err(NoMemory);
            }
        }
        Ok(texts)
    }
}

// The text whose characters are these bytes. Of ASCII they are the text already.
fn spelled(alloc: Global, bytes: Vec<u8>) -> Result<String, NoMemory>
    ensures { IfOk result (λ t. string_bytes t ≡ encode_utf8_all bytes.items) }
{
    if !bytes.is_ascii() {
        return widened(alloc, &bytes);
    }
    Ok(String::from_utf8(bytes).unwrap())
}

fn widened(alloc: Global, bytes: &[u8]) -> Result<String, NoMemory>
    ensures { IfOk result (λ t. string_bytes t ≡ encode_utf8_all bytes.now) }
{
    let mut text = String::new(alloc);
    for byte in bytes {
        if text.push(char::from(*byte)).is_err() {
            return Err(NoMemory);
        }
    }
    Ok(text)
}
