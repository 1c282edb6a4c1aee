//! What a run shows.

ghost use Rattle.std.specs.Prelude.{◌≡◌, ◌<◌, ◌≤◌, ◌+◌, ◌*◌, ◌^◌, nat_lt, true};
ghost use Rattle.atac_facts.specs.Facts.{key_of, place_of, rank, fits};

/// What a run shows: a block entered, an outcome of a decision taken, a definition used,
/// or a definition used for an outcome.
#[derive(Clone, Copy, Debug, PartialEq, Eq)]
pub enum Fact {
    /// A block.
    Block(u16),
    /// A decision, and its outcome.
    Outcome(u16, u32),
    /// A definition, and a use of it.
    Pair(u16, u16),
    /// A definition, a use of it, and the outcome of the decision that the use belongs to.
    PUse(u16, u16, u32),
}

impl Fact {
    /// The number of the word that has this fact's bit: its kind, its numbers but the last, and the last divided by 64.
    pub fn key(self) -> u64
        ensures value { result ≡ key_of self }
        ensures fits { fits self ≡ true }
    {
        match self {
            Fact::Block(k) => k as u64 / 64,
            Fact::Outcome(k, o) => (1 << 58) + (k as u64) * (1 << 26) + (o as u64) / 64,
            Fact::Pair(d, u) => (2 << 58) + (d as u64) * (1 << 10) + (u as u64) / 64,
            Fact::PUse(d, u, o) => {
                (3 << 58) + (d as u64) * (1 << 42) + (u as u64) * (1 << 26) + (o as u64) / 64
            }
        }
    }

    /// The place of this fact's bit in its word.
    pub fn place(self) -> u32
        ensures value { result ≡ place_of self }
        ensures small { result < 64 }
    {
        let last = match self {
            Fact::Block(k) => k as u32,
            Fact::Outcome(_, o) => o,
            Fact::Pair(_, u) => u as u32,
            Fact::PUse(_, _, o) => o,
        };
        last % 64
    }

    /// Its number in the order of all facts.
    pub fn rank(self) -> u128
        ensures { result ≡ rank self }
    {
        self.key() as u128 * 64 + self.place() as u128
    }

    // The number of its kind.
    fn kind(self) -> u8
        ensures least { result * 2 ^ 64 ≤ rank self }
        ensures below { rank self < (result + 1) * 2 ^ 64 }
    {
        match self {
            Fact::Block(_) => 0,
            Fact::Outcome(_, _) => 1,
            Fact::Pair(_, _) => 2,
            Fact::PUse(_, _, _) => 3,
        }
    }

    /// Whether it stands before another fact, by kind and then by the numbers in order.
    pub fn is_before(self, other: Fact) -> bool
        ensures { result ≡ nat_lt (rank self) (rank other) }
    {
        match (self, other) {
            (Fact::Block(a), Fact::Block(b)) => a < b,
            (Fact::Outcome(a, m), Fact::Outcome(b, n)) => {
                (a as u64) * (1 << 32) + (m as u64) < (b as u64) * (1 << 32) + (n as u64)
            }
            (Fact::Pair(a, m), Fact::Pair(b, n)) => {
                (a as u32) * (1 << 16) + (m as u32) < (b as u32) * (1 << 16) + (n as u32)
            }
            (Fact::PUse(a, m, o), Fact::PUse(b, n, p)) => {
                (a as u64) * (1 << 48) + (m as u64) * (1 << 32) + (o as u64)
                    < (b as u64) * (1 << 48) + (n as u64) * (1 << 32) + (p as u64)
            }
            (one, another) => one.kind() < another.kind(),
        }
    }
}
