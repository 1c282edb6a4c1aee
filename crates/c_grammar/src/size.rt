//! How deep expressions are.

ghost use Rattle.std.specs.Prelude.{◌≡◌, ◌+◌, ◌<◌, ◌≤◌, max, IfSome, MatchOption};

/// How deep an expression is: its levels, and how many probes stand directly one inside another at its front.
#[derive(Clone, Copy, Debug, PartialEq, Eq)]
pub struct Size {
    pub levels: u32,
    pub probes: u32,
}

/// The size of what stands one level above so many levels, and is no probe.
pub fn above(levels: u32) -> Size
    requires { levels < 400 }
    ensures levels { result.levels ≡ levels + 1 }
    ensures probes { result.probes ≡ 0 }
{
    Size {
        levels: levels + 1,
        probes: 0,
    }
}

/// The greater of two numbers of levels.
pub fn higher(left: u32, right: u32) -> u32
    ensures { result ≡ max left right }
{
    if left < right { right } else { left }
}

/// The size of a probe round an expression of this size, with case constants that are at most so deep; none where a
/// fifth probe would stand directly inside four others.
pub fn around(cases: Size, inner: Size) -> Option<Size>
    ensures few { MatchOption result (4 ≤ max cases.probes inner.probes) (λ s. max cases.probes inner.probes < 4) }
    ensures levels { IfSome result (λ s. s.levels ≡ max cases.levels inner.levels) }
    ensures probes { IfSome result (λ s. s.probes ≡ max cases.probes inner.probes + 1) }
{
    let probes = higher(cases.probes, inner.probes);
    if probes >= 4 {
        return None;
    }
    Some(Size {
        levels: higher(cases.levels, inner.levels),
        probes: probes + 1,
    })
}
