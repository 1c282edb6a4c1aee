//! The four lists of a trace file.

ghost use Rattle.std.specs.Prelude.{◌≡◌, ◌≤◌};
ghost use Rattle.trace_file.specs.Layout.{kind_of, size};

use atac_facts::fact::Fact;

/// The four lists of a trace file.
#[derive(Clone, Copy, Debug, PartialEq, Eq)]
pub enum Kind {
    Blocks,
    Outcomes,
    Pairs,
    PUses,
}

impl Kind {
    /// The list that a fact stands in.
    pub fn of(fact: Fact) -> Kind
        ensures { result ≡ kind_of fact }
    {
        match fact {
            Fact::Block(_) => Kind::Blocks,
            Fact::Outcome(_, _) => Kind::Outcomes,
            Fact::Pair(_, _) => Kind::Pairs,
            Fact::PUse(_, _, _) => Kind::PUses,
        }
    }

    /// How many bytes a record takes.
    pub fn size(self, counted: bool) -> usize
        ensures value { result ≡ size counted self }
        ensures few { result ≤ 12 }
    {
        let numbers = match self {
            Kind::Blocks => 2,
            Kind::Outcomes => 6,
            Kind::Pairs => 4,
            Kind::PUses => 8,
        };
        if counted { numbers + 4 } else { numbers }
    }
}
