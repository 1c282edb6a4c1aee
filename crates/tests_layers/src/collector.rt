//! What a collector keeps and takes, event by event.

use atac_base::fact::Fact;
use atac_base::owners::Owners;
use atac_base::probes::Probes;
use c_base::place::NoMemory;
use c_events::events::{Cell, Event};
use cover_core::collector::Collector;
use std::alloc::Global;
use std::test::Fail;

// A cell of an instance.
fn cell(instance: u64, index: u32) -> Cell {
    Cell { instance, index }
}

// A collector of a program whose use 1 belongs to decision 1, and no other use to any.
fn collector(alloc: Global) -> Result<Collector, Fail> {
    let mut rows = Vec::from_elem(alloc, None, 65_536)?;
    rows[1] = Some(1);
    Ok(Collector::new(alloc, Owners::new(rows)))
}

/// It holds a word for each cell of the instances that live, and none of a run before.
#[test]
fn held_words(rt: HostRuntime) -> Result<(), Fail> {
    let mut collector = collector(rt.alloc())?;
    collector.made(5, 2)?;
    collector.see(Event::Def(1, cell(5, 0)))?;
    collector.see(Event::Def(2, cell(5, 1)))?;
    collector.see(Event::Def(3, cell(5, 0)))?;
    assert_eq!(rt; collector.held(), 2);
    collector.made(7, 3)?;
    assert_eq!(rt; collector.held(), 5);
    collector.ended(5);
    assert_eq!(rt; collector.held(), 3);
    collector.begin_run();
    assert_eq!(rt; collector.held(), 0);
    collector.made(1, 1)?;
    assert_eq!(rt; collector.held(), 1);
    Ok(())
}

/// It takes no definition and no use of a cell that doesn't live, no instance a second time, and nothing of these changes it.
#[test]
fn cells_that_do_not_live(rt: HostRuntime) -> Result<(), Fail> {
    let mut collector = collector(rt.alloc())?;
    collector.made(5, 2)?;
    assert!(rt; collector.see(Event::Def(1, cell(4, 0))) == Err(NoMemory));
    assert!(rt; collector.see(Event::Def(1, cell(5, 2))) == Err(NoMemory));
    assert!(rt; collector.see(Event::Use(1, cell(6, 0), 1)) == Err(NoMemory));
    assert!(rt; collector.made(5, 1) == Err(NoMemory));
    assert!(rt; collector.made(4, 1) == Err(NoMemory));
    collector.ended(9);
    assert_eq!(rt; collector.held(), 2);
    collector.ended(5);
    assert!(rt; collector.see(Event::Def(1, cell(5, 0))) == Err(NoMemory));
    assert!(rt; collector.facts().after(None).is_none());
    Ok(())
}

/// The last definition is that of the cell: not of its neighbour, and not of the cell of another instance.
#[test]
fn last_definitions(rt: HostRuntime) -> Result<(), Fail> {
    let mut collector = collector(rt.alloc())?;
    collector.made(1, 2)?;
    collector.made(2, 2)?;
    collector.see(Event::Def(1, cell(1, 0)))?;
    collector.see(Event::Def(2, cell(1, 1)))?;
    collector.see(Event::Def(3, cell(2, 0)))?;
    collector.see(Event::Use(9, cell(1, 0), 1))?;
    assert!(rt; collector.facts().has(Fact::Pair(1, 9)));
    assert!(rt; !collector.facts().has(Fact::Pair(2, 9)));
    assert!(rt; !collector.facts().has(Fact::Pair(3, 9)));
    collector.see(Event::Def(4, cell(1, 0)))?;
    collector.see(Event::Use(8, cell(1, 0), 1))?;
    assert!(rt; collector.facts().has(Fact::Pair(4, 8)));
    assert!(rt; !collector.facts().has(Fact::Pair(1, 8)));
    Ok(())
}

/// A p-use is covered by its decision's next end in the activation of the use, and by no other.
#[test]
fn ends_of_decisions(rt: HostRuntime) -> Result<(), Fail> {
    let mut collector = collector(rt.alloc())?;
    collector.made(1, 1)?;
    collector.see(Event::Def(1, cell(1, 0)))?;
    collector.see(Event::Use(1, cell(1, 0), 3))?;
    assert!(rt; !collector.facts().has(Fact::PUse(1, 1, 1)));
    collector.see(Event::Test(1, 1, 4))?;
    collector.see(Event::Test(2, 1, 3))?;
    assert!(rt; !collector.facts().has(Fact::PUse(1, 1, 1)));
    collector.see(Event::Test(1, 2, 3))?;
    assert!(rt; collector.facts().has(Fact::PUse(1, 1, 2)));
    collector.see(Event::Test(1, 1, 3))?;
    assert!(rt; !collector.facts().has(Fact::PUse(1, 1, 1)));
    assert!(rt; collector.facts().has(Fact::Outcome(1, 1)));
    assert!(rt; collector.facts().has(Fact::Outcome(2, 1)));
    collector.begin_run();
    assert!(rt; collector.facts().after(None).is_none());
    Ok(())
}
