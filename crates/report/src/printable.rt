//! The precondition of `text` holds for the answers of every job file.
ghost use Rattle.std.specs.Prelude.{◌≡◌, List, All, length};
ghost use Rattle.job_language.specs.Jobs.{AbstractJob, names_of};
ghost use Rattle.job_meaning.specs.FileAnswers.{meaning_of};
ghost use Rattle.report.specs.Named.{IsNamed};

/// The answers of a file's jobs have a report: there is an answer for each name, and each job that an answer names has
/// a name. This is the precondition of `text`.
#[tactic(auto, using(crate::proofs::EachNamed::paired, crate::proofs::EachNamed::named))]
pub fn a_meaning_has_a_report()
    ensures paired { (jobs : List AbstractJob) → length (names_of jobs) ≡ length (meaning_of jobs) }
    ensures named { (jobs : List AbstractJob) → All (IsNamed (names_of jobs)) (meaning_of jobs) }
{}
