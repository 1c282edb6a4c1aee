//! The laws, as contracts.

ghost use Rattle.probe_kept.specs.ReadBack.{WrittenReadsBack};
ghost use Rattle.probe_kept.specs.Kept.{KeptRunsAsProgram};

/// What is written of a program with its probes is read as that program but for places, with its tables.
#[tactic(auto, using(crate::proofs::ReadBack::written_reads_back))]
pub fn written_reads_back()
    ensures { WrittenReadsBack }
{}

/// What is written of a program with its probes is read as one program alone, which prints, ends and faults as the program and
/// logs its events.
#[tactic(auto, using(crate::proofs::Kept::kept_runs))]
pub fn kept_runs_as_program()
    ensures { KeptRunsAsProgram }
{}
