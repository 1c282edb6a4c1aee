//! Which marks each row holds, as data.

ghost use Rattle.std.specs.Prelude.{◌≡◌, ◌*◌, ◌≤◌, vec_len};

/// Which marks each row holds, a bit for each. A row of bits takes whole words.
#[derive(Drop)]
pub struct Grid {
    pub(crate) height: usize,
    pub(crate) width: usize,
    pub(crate) stride: usize,
    pub(crate) words: Vec<u64>,
    ghost size: { vec_len words ≡ height * stride },
    ghost room: { width ≤ stride * 64 },
}

/// Which marks reach which rows.
#[derive(Drop)]
pub struct Reach {
    pub(crate) marks: Vec<u32>,
    pub(crate) held: Grid,
    ghost size: { held.width ≡ vec_len marks },
}
