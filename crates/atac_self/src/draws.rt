//! Numbers that follow from a seed.

ghost use Rattle.std.specs.Prelude.{◌≡◌, ◌<◌};
ghost use Rattle.atac_self.specs.Draws.{next, drawn};

/// What the next draw gives follows from the state, a number of 64 bits.
#[derive(Drop)]
pub struct Draws {
    state: u64,
}

impl Draws {
    /// A seed is the first state.
    pub fn new(seed: u64) -> Draws
        ensures { result.state ≡ seed }
    {
        Draws { state: seed }
    }

    /// A number below `m`.
    pub fn draw(&mut self, m: u64) -> u64
        requires { 0 < m }
        ensures value { result ≡ drawn self.new.state m }
        ensures state { self.new.state ≡ next self.old.state }
    {
        self.state = self
            .state
            .wrapping_mul(6364136223846793005)
            .wrapping_add(1442695040888963407);
        (self.state >> 33) % m
    }
}
