//! What some runs show together, and facts parted by a set.

ghost use Rattle.std.specs.Prelude.{◌≡◌, ◌&&◌, not, IfOk};
ghost use Rattle.std.specs.List.{filter};
ghost use Rattle.atac_facts.specs.declared.fact.Fact.{Fact};
ghost use Rattle.atac_facts.specs.Sets.{holds};
ghost use Rattle.run_pick.specs.Kept.{some_shows};
ghost use Rattle.run_pick.specs.Marks.{needs, unshown};

use atac_facts::fact::Fact;
use atac_facts::facts::{Facts, union_into};
use c_base::place::NoMemory;
use std::alloc::Global;

/// The facts that some of the runs shows.
pub fn joined(alloc: Global, runs: &[Facts]) -> Result<Facts, NoMemory>
    ensures { IfOk result (λ all. (fact : Fact) → holds all fact ≡ some_shows runs.now fact) }
{
    let mut all = Facts::new(alloc);
    for run in runs {
        union_into(&mut all, run)?;
    }
    Ok(all)
}

/// Facts, parted by whether they are in a set.
#[derive(Drop)]
pub struct Parted {
    pub inside: Vec<Fact>,
    pub outside: Vec<Fact>,
}

// Parts facts by a set, in their order.
fn part(alloc: Global, set: &Facts, facts: &[Fact]) -> Result<Parted, NoMemory>
    ensures inside { IfOk result (λ parted. parted.inside.items ≡ filter (holds set.now) facts.now) }
    ensures outside { IfOk result (λ parted. parted.outside.items ≡ filter (λ fact. not (holds set.now fact)) facts.now) }
{
    let mut inside = Vec::new(alloc);
    let mut outside = Vec::new(alloc);
    for fact in facts {
        if set.has(*fact) {
            inside.push(*fact)?;
        } else {
            outside.push(*fact)?;
        }
    }
    Ok(Parted { inside, outside })
}

/// Parts facts by whether some of the runs shows them, in their order.
pub fn part_by(alloc: Global, runs: &[Facts], facts: &[Fact]) -> Result<Parted, NoMemory>
    ensures inside { IfOk result (λ parted. parted.inside.items ≡ filter (some_shows runs.now) facts.now) }
    ensures outside { IfOk result (λ parted. parted.outside.items ≡ unshown runs.now facts.now) }
{
    if let [run] = runs {
        let parted = part(alloc, run, facts)?;
        return Ok(parted);
    }
    let all = joined(alloc, runs)?;
    let parted = part(alloc, &all, facts)?;
    Ok(parted)
}

/// Whether a run shows one of the fresh facts that isn't taken.
pub fn needs(run: &Facts, fresh: &[Fact], taken: &Facts) -> bool
    ensures { result ≡ needs (holds taken.now) fresh.now run.now }
{
    fresh.iter().any(|fact| run.has(*fact) && !taken.has(*fact))
}
