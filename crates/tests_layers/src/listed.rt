//! Each pair that a run makes between direct sites of one local variable is listed.

use atac_base::items::Items;
use atac_base::probes::EventList;
use c_base::numbers::NumberList;
use c_events::events::{Cell, Event};
use c_front::read;
use c_lex::TextKind;
use c_machine::run;
use c_sites::{Sites, sites};
use c_tables::tables::Tables;
use pair_list::list;
use probe_in::instrument;
use std::alloc::Global;
use std::test::Fail;

// The definition that the cell had last.
fn last_of(events: &[Event], cell: Cell) -> Option<u16> {
    let mut last = None;
    for event in events.iter() {
        if let Event::Def(d, c) = *event {
            if c == cell {
                last = Some(d);
            }
        }
    }
    last
}

// The pairs of a definition of a cell and a use of it, with no definition of it between, each once.
fn pairs_of(alloc: Global, events: &[Event]) -> Result<Vec<(u16, u16)>, Fail> {
    let mut seen = Vec::new(alloc);
    let mut pairs = Vec::new(alloc);
    for event in events.iter() {
        if let Event::Use(u, cell, _) = *event {
            if let Some(d) = last_of(seen.as_slice(), cell) {
                if !pairs.contains(&(d, u)) {
                    pairs.push((d, u))?;
                }
            }
        }
        seen.push(*event)?;
    }
    Ok(pairs)
}

// Whether some function declares the variable.
fn is_local(tables: &Tables, variable: Option<u32>) -> bool {
    let Some(number) = variable else {
        return false;
    };
    if number == 0 || number > tables.variables() {
        return false;
    }
    tables.variable(number).function > 0
}

fn share(some: &NumberList, others: &NumberList) -> bool {
    for number in some.numbers().iter() {
        if others.numbers().contains(number) {
            return true;
        }
    }
    false
}

// Whether both are direct sites of one local variable, with a leaf name of both.
fn are_local(tables: &Tables, sites: &Sites, d: u16, u: u16) -> bool {
    if d == 0 || d > sites.defs() || u == 0 || u > sites.uses() {
        return false;
    }
    let def = sites.def(d);
    let used = sites.use_site(u);
    def.variable == used.variable
        && is_local(tables, def.variable)
        && share(&def.names, &used.names)
}

fn is_c_use(items: &Items, d: u16, u: u16) -> bool {
    for i in 0..items.c_uses() {
        let row = items.c_use(i);
        if row.def == d && row.user == u {
            return true;
        }
    }
    false
}

fn is_p_use(items: &Items, d: u16, u: u16, outcome: u32) -> bool {
    for i in 0..items.p_uses() {
        let row = items.p_use(i);
        if row.pair.def == d && row.pair.user == u && row.outcome == outcome {
            return true;
        }
    }
    false
}

// Whether the pair is a c-use, where its use belongs to no decision, or else a p-use with each outcome of the decision.
fn is_listed(sites: &Sites, items: &Items, d: u16, u: u16) -> bool {
    if u == 0 || u > sites.uses() {
        return false;
    }
    let Some(k) = sites.use_site(u).owner else {
        return is_c_use(items, d, u);
    };
    if k == 0 || k > sites.decisions() {
        return false;
    }
    let labels = &sites.decision(k).labels;
    for i in 0..labels.len() {
        if !is_p_use(items, d, u, labels.get(i).0) {
            return false;
        }
    }
    true
}

// How many pairs of local variables a run of the program makes, each of which must be listed.
fn listed(alloc: Global, text: &[u8], input: &[u8]) -> Result<u32, Fail> {
    if text.len() > 1_000 {
        return Err(Fail::new("too long"));
    }
    let Ok(program) = read(alloc, text, TextKind::Plain) else {
        return Err(Fail::new("refused"));
    };
    let Ok(sites) = sites(alloc, &program) else {
        return Err(Fail::new("its sites are refused"));
    };
    let Ok(items) = list(alloc, &program, &sites) else {
        return Err(Fail::new("its items are refused"));
    };
    let probed = instrument(alloc, &program, &sites, &[7; 32])?;
    let mut told = EventList::new(alloc);
    let _ = run(alloc, &probed, input, 100_000, &mut told)?;
    let mut count: u32 = 0;
    for (d, u) in pairs_of(alloc, told.events())?.iter() {
        if are_local(program.tables(), &sites, *d, *u) {
            if !is_listed(&sites, &items, *d, *u) {
                return Err(Fail::new("a pair is missing"));
            }
            count = count.wrapping_add(1);
        }
    }
    Ok(count)
}

const LOOP: &[u8] = b"int main(void){int x=0;while(x<2)x=x+1;return x;}";

const DECLARED: &[u8] =
    b"int main(void){int i=0,s=0;while(i<3){int x=i;x=x+1;s=s+x;i=i+1;}return s;}";

const LEFT_EARLY: &[u8] =
    b"int f(int n){int i=0;while(1){if(i>=n)return i;if(i==5)return n;i=i+1;}}int main(void){return f(3)+f(9);}";

/// Both definitions of `x` get to the test and to the step, that of the step to the end; what a declaration in a loop makes
/// anew; and what an early return leaves: `i=0` doesn't get to `return i`.
#[test]
fn loops(rt: HostRuntime) -> Result<(), Fail> {
    let alloc = rt.alloc();
    assert_eq!(rt; listed(alloc, LOOP, b"")?, 5);
    assert_eq!(rt; listed(alloc, DECLARED, b"")?, 11);
    assert_eq!(rt; listed(alloc, LEFT_EARLY, b"")?, 9);
    Ok(())
}

const FACTORIAL: &[u8] =
    b"int f(int n){if(n<2)return 1;return n*f(n-1);}int main(void){return f(3);}";

const IN_A_TEST: &[u8] =
    b"int f(int n){int z=n;if(n>0&&f(n-1)<z)return z;return n;}int main(void){return f(2);}";

const IN_A_SUM: &[u8] =
    b"int f(int n){int z;if(n)z=5;else z=1;if(z+(n?f(0):0)>4)return 1;return 0;}int main(void){return f(1);}";

/// Parameters are defined at a call and used in the one that begins; a test is left for a call that goes through it.
#[test]
fn recursion(rt: HostRuntime) -> Result<(), Fail> {
    let alloc = rt.alloc();
    assert_eq!(rt; listed(alloc, FACTORIAL, b"")?, 3);
    assert_eq!(rt; listed(alloc, IN_A_TEST, b"")?, 6);
    assert_eq!(rt; listed(alloc, IN_A_SUM, b"")?, 4);
    Ok(())
}

const SWITCH: &[u8] =
    b"int main(void){int c=getchar(),x=0;switch(c){case 97:x=1;case 98:x=x+2;break;default:x=c;}return x;}";

const OPERATORS: &[u8] =
    b"int main(void){int a=1,b=0;int c=a&&b?a:b;do{c++;c+=a;}while(c<3||b);return c;}";

/// The uses of a test are p-uses with each outcome that is listed of it, be it of a `switch`, and others are c-uses.
#[test]
fn decisions(rt: HostRuntime) -> Result<(), Fail> {
    let alloc = rt.alloc();
    assert_eq!(rt; listed(alloc, SWITCH, b"a")?, 3);
    assert_eq!(rt; listed(alloc, SWITCH, b"b")?, 3);
    assert_eq!(rt; listed(alloc, SWITCH, b"z")?, 3);
    assert_eq!(rt; listed(alloc, OPERATORS, b"")?, 10);
    Ok(())
}

const ELEMENTS: &[u8] =
    b"int main(void){int a[3],i=0,s=0;while(i<3){a[i]=i;i=i+1;}s=a[0]+a[2];return s;}";

const FIELDS: &[u8] =
    b"struct s{int f;int g;};int main(void){struct s v;v.f=1;v.g=2;return v.f+v.g;}";

const POINTER: &[u8] =
    b"int g;int h(void){g=g+1;return g;}int main(void){int x=1;int*p=&x;*p=2;g=x;return h()+g;}";

/// Elements and fields by their leaf names. A definition through a pointer is no site of `x`, and `g` is no local variable:
/// of the last program the pair of `p` is left alone.
#[test]
fn parts(rt: HostRuntime) -> Result<(), Fail> {
    let alloc = rt.alloc();
    assert_eq!(rt; listed(alloc, ELEMENTS, b"")?, 11);
    assert_eq!(rt; listed(alloc, FIELDS, b"")?, 2);
    assert_eq!(rt; listed(alloc, POINTER, b"")?, 1);
    Ok(())
}

const COPIED: &[u8] =
    b"struct s{int f;int g;};int main(void){struct s v,w;v.f=1;v.g=2;w=v;return w.f+v.g;}";

const OVERWRITTEN: &[u8] =
    b"struct s{int f;int g;};int main(void){struct s v,w;w.f=5;w.g=6;v.f=1;v.g=2;w=v;return w.g;}";

const INNER: &[u8] =
    b"struct p{int x;int y;};struct s{struct p a;struct p b;};int main(void){struct s v;v.a.x=1;v.a.y=2;v.b=v.a;return v.b.x+v.a.y;}";

const IN_AN_ARRAY: &[u8] =
    b"struct p{int x;int y;};int main(void){struct p a[2],q;int i=0;q.x=3;q.y=4;while(i<2){a[i]=q;i=i+1;}q=a[1];return q.y;}";

/// A copy of a structure uses each field of the one and defines each of the other, so it ends what was defined of these; it may
/// be of a structure in a structure, or in an array.
#[test]
fn copies(rt: HostRuntime) -> Result<(), Fail> {
    let alloc = rt.alloc();
    assert_eq!(rt; listed(alloc, COPIED, b"")?, 4);
    assert_eq!(rt; listed(alloc, OVERWRITTEN, b"")?, 3);
    assert_eq!(rt; listed(alloc, INNER, b"")?, 4);
    assert_eq!(rt; listed(alloc, IN_AN_ARRAY, b"")?, 10);
    Ok(())
}

const INITIALISED: &[u8] =
    b"struct s{int f;int g;};int main(void){struct s v={1,2};int a[3]={4,5,6};return v.g+a[2];}";

const COPIED_THROUGH: &[u8] =
    b"struct s{int f;};int main(void){struct s v,w;struct s*p=&w;v.f=1;*p=v;return w.f;}";

/// A list in braces defines all of its variable; what a copy through a pointer defines is no site of a variable: of the last
/// program the pairs of `p` and `v` are left.
#[test]
fn wholes(rt: HostRuntime) -> Result<(), Fail> {
    let alloc = rt.alloc();
    assert_eq!(rt; listed(alloc, INITIALISED, b"")?, 2);
    assert_eq!(rt; listed(alloc, COPIED_THROUGH, b"")?, 2);
    Ok(())
}
