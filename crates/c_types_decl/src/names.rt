// Declared names and the probes round them.

ghost use Rattle.std.specs.Prelude.{◌≡◌, OnOk};
ghost use Rattle.c_tables.specs.Rows.{first_place};
ghost use Rattle.c_tree.specs.Declaring.{probe_tokens, claim_mark, token_of_name};
ghost use Rattle.c_checker.specs.CheckerView.{state_of};
ghost use Rattle.c_types_decl.specs.Steps.{place_of, claimed_name};

use c_base::place::{NoMemory, Pos};
use c_checker::checker::Checker;
use c_checker::probes::Probing;
use c_checker_parts::fields::name_pos;
use c_syntax::tree::{Named, ProbeMark};
use c_tree::complaints::STRAY;

/// The first place of a text.
pub fn first_place() -> Pos
    ensures { result ≡ first_place }
{
    Pos { line: 1, col: 1 }
}

/// The place of a declarator's name, or the text's first place where there is none.
pub fn place_of(name: &Option<Named>) -> Pos
    ensures { result ≡ place_of name.now }
{
    name_pos(first_place(), name)
}

// So many tokens, where there is a probe.
fn probe_tokens(count: u32, probe: &Option<ProbeMark>) -> u32
    ensures { result ≡ probe_tokens count probe.now }
{
    match probe {
        None => 0,
        Some(_) => count,
    }
}

/// Claims the probe round a name, at its word, and steps behind the name; `fits` says whether a probe may stand there.
pub fn claim_name(checker: &mut Checker, fits: bool, name: &Option<Named>) -> Result<(), NoMemory>
    ensures { OnOk result (state_of checker.new ≡ claimed_name fits name.now (state_of checker.old)) }
{
    match name {
        None => {
            checker.steps(0);
            Ok(())
        }
        Some(name) => {
            claim_mark(checker, fits, &name.probe)?;
            checker.steps(1 + probe_tokens(5, &name.probe));
            Ok(())
        }
    }
}

// Claims the probe, if there is one: its number, and that it may stand there.
fn claim_mark(checker: &mut Checker, fits: bool, probe: &Option<ProbeMark>) -> Result<(), NoMemory>
    ensures { OnOk result (state_of checker.new ≡ claim_mark fits probe.now (state_of checker.old)) }
{
    match probe {
        None => Ok(()),
        Some(mark) => {
            let token = checker.at;
            checker.claim(Probing::Def, mark.number.bytes(), token, mark.pos)?;
            checker.demand(fits, STRAY, token, mark.pos)
        }
    }
}

/// The number of a name's token, in front of whose probe the checker stands; `first` where there is no name.
pub fn token_of_name(checker: &Checker, first: u32, name: &Option<Named>) -> u32
    ensures { result ≡ token_of_name first name.now (state_of checker.now) }
{
    match name {
        None => first,
        Some(name) => checker.at.saturating_add(probe_tokens(4, &name.probe)),
    }
}
