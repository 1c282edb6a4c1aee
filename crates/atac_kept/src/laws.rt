//! The laws, as contracts.

ghost use Rattle.atac_kept.specs.Kept.{KeptTextsRunAsPrograms};
ghost use Rattle.atac_kept.specs.Commands.{ReportsAreThoseOfCovers};
ghost use Rattle.atac_kept.specs.Recorded.{OneMoreRunIsCounted, TracesTellOfRuns, SumsCountRuns};

/// A text that is kept of an accepted program is read as one program with probes alone, whose runs have the sections of the
/// program's own runs, and log its events.
#[tactic(auto, using(crate::proofs::Kept::kept_texts_run))]
pub fn kept_texts_run_as_programs()
    ensures { KeptTextsRunAsPrograms }
{}

/// One more run of such a program makes a trace that counts it; traces that count runs tell what these runs show; and their
/// sum is a trace of all of these runs.
pub fn runs_are_counted()
    ensures one { OneMoreRunIsCounted }
    ensures all { TracesTellOfRuns }
    ensures sum { SumsCountRuns }
{}

/// The report of runs within one limit is that of a cover of their inputs.
pub fn reports_are_those_of_covers()
    ensures { ReportsAreThoseOfCovers }
{}
