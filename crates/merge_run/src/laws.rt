//! A law of the definitions. The function does nothing; its contract is the law.
ghost use Rattle.std.specs.Prelude.{◌≡◌, ℕ, List, length};
ghost use Rattle.job_meaning.specs.declared.answer.Answer.{Answer as meant_answer};
ghost use Rattle.merge_run.specs.Merged.{AreReportsOf};
ghost use Rattle.job_meaning.specs.Longs.{AnswersFit};
ghost use Rattle.merge_run.specs.Small.{ArePartsSmall};
ghost use Rattle.merge_run.specs.declared.part_report.PartReport.{PartReport as meant_report};
ghost use Rattle.report_merge.specs.Merging.{Part};
ghost use Rattle.report.specs.Json.{report_json};

/// A report as JSON holds one list of answers, if their numbers fit into 64 bits.
#[tactic(auto, using(crate::proofs::UniqueReports::one_report, crate::proofs::UniqueReports::same_parts))]
pub fn one_report()
    ensures parts { (names : List (List ℕ)) (rs : List meant_report) (ps qs : List Part) → AreReportsOf names rs ps
        → AreReportsOf names rs qs
        → ArePartsSmall names ps → ArePartsSmall names qs → ps ≡ qs }
    ensures answers { (names : List (List ℕ)) (a b : List meant_answer) → length names ≡ length a
        → length names ≡ length b
        → AnswersFit names a → AnswersFit names b → report_json names a ≡ report_json names b → a ≡ b }
{}
