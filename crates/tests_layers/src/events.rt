//! The events that the probes of a loop are told.

use atac_base::probes::EventList;
use c_events::events::{Cell, Event};
use c_front::read;
use c_lex::TextKind;
use c_machine::run;
use c_meaning::end::End;
use c_sites::sites;
use c_tree::program::Program;
use probe_in::instrument;
use std::alloc::Global;
use std::test::Fail;

const LOOP: &[u8] = b"int main(void){int x=0;while(x<2)x=x+1;return x;}";

// The loop with its probes.
fn probed(alloc: Global) -> Result<Option<Program>, Fail> {
    let Ok(program) = read(alloc, LOOP, TextKind::Plain) else {
        return Ok(None);
    };
    let Ok(sites) = sites(alloc, &program) else {
        return Ok(None);
    };
    Ok(Some(instrument(alloc, &program, &sites, &[7; 32])?))
}

// The events of a test of the loop, with its outcome; and of its body.
fn push_test(log: &mut Vec<Event>, x: Cell, outcome: u32) -> Result<(), Fail> {
    log.push(Event::Block(2))?;
    log.push(Event::Use(1, x, 1))?;
    log.push(Event::Test(1, outcome, 1))?;
    Ok(())
}

fn push_body(log: &mut Vec<Event>, x: Cell) -> Result<(), Fail> {
    log.push(Event::Block(3))?;
    log.push(Event::Use(2, x, 1))?;
    log.push(Event::Def(2, x))?;
    Ok(())
}

/// The probes log each block, definition, use and outcome, in order; within four turns a front of them.
#[test]
fn probes_log(rt: HostRuntime) -> Result<(), Fail> {
    let alloc = rt.alloc();
    let Some(program) = probed(alloc)? else {
        return Err(Fail::new("refused"));
    };
    assert_eq!(rt; program.digest(), Some([7; 32]));
    let x = Cell {
        instance: 1,
        index: 0,
    };
    let mut log = Vec::new(alloc);
    log.push(Event::Block(1))?;
    log.push(Event::Def(1, x))?;
    push_test(&mut log, x, 1)?;
    push_body(&mut log, x)?;
    push_test(&mut log, x, 1)?;
    push_body(&mut log, x)?;
    push_test(&mut log, x, 2)?;
    log.push(Event::Block(4))?;
    log.push(Event::Use(3, x, 1))?;
    let mut events = EventList::new(alloc);
    let whole = run(alloc, &program, b"".as_slice(), 27, &mut events)?;
    assert!(rt; matches!(whole.end, End::Returned(2)));
    assert_eq!(rt; whole.turns, 27);
    assert_eq!(rt; events.events(), log.as_slice());
    let mut few = EventList::new(alloc);
    let short = run(alloc, &program, b"".as_slice(), 4, &mut few)?;
    assert!(rt; matches!(short.end, End::Turns));
    assert_eq!(rt; few.events().len(), 3);
    Ok(())
}
