//! A program is written as before its probes were put in and taken out.

use crate::again::without_probes;
use c_front::read;
use c_lex::TextKind;
use c_sites::sites;
use c_tree::program::Program;
use probe_text::probed_text;
use std::alloc::Global;
use std::test::Fail;

const TEXT: &[u8] =
    b"int g(int a){switch(a){case -1:return 2;default:return a?a:3;}}int main(void){int x=1;while(x<4&&g(x))x+=2;return x;}";

// The program with its probes, without them again.
fn erased(alloc: Global, program: &Program) -> Result<Option<Program>, Fail> {
    let Ok(sites) = sites(alloc, program) else {
        return Ok(None);
    };
    Ok(Some(without_probes(alloc, program, &sites)?))
}

/// No probe is left of any kind, and no program line.
#[test]
fn probes_are_taken_out(rt: HostRuntime) -> Result<(), Fail> {
    let alloc = rt.alloc();
    let Ok(program) = read(alloc, TEXT, TextKind::Plain) else {
        return Err(Fail::new("refused"));
    };
    let Some(left) = erased(alloc, &program)? else {
        return Err(Fail::new("its sites are refused"));
    };
    assert_eq!(rt; left.digest(), None);
    let (Ok(before), Ok(after)) = (probed_text(alloc, &program), probed_text(alloc, &left)) else {
        return Err(Fail::new("no text"));
    };
    assert_eq!(rt; after.as_slice(), before.as_slice());
    Ok(())
}
