//! What a walk meets, as the rows of a flow graph have it.

/// An action of a function's body: a definition, a use or a block, by its number; a decision's outcome, by both numbers;
/// a local variable's declaration, which ends what was defined of it before; or nothing. All numbers count from 1.
#[derive(Clone, Copy, Debug, PartialEq, Eq)]
pub enum Action {
    Define(u16),
    Use(u16),
    Block(u16),
    Test(u16, u32),
    Kill(u32),
    Nothing,
}
