//! Laws of refused tables and parts. The functions do nothing; their contracts are the laws.

ghost use Rattle.std.specs.Prelude.{◌≡◌, ◌∷◌, ◌++◌, ℕ, List, None};
ghost use Rattle.columns.specs.TableForms.{AbstractForm};
ghost use Rattle.job_language.specs.Jobs.{AbstractJob};
ghost use Rattle.report_merge.specs.Apart.{IsApart};
ghost use Rattle.report_merge.specs.Cuts.{Row, all_rows};
ghost use Rattle.report_merge.specs.Merging.{Part, merged};
ghost use Rattle.report_merge.specs.Refusals.{first_refusal, refusal_of};

/// A table that is cut into parts, each with the header, is refused for the refusal of the first part that is refused,
/// its row counted over the whole table; a fault of the header refuses every part. All are read in one form.
#[tactic(auto, using(crate::proofs::RefusalLemmas::refused_parts))]
pub fn the_first_refused_part_refuses_the_table()
    ensures { (form : AbstractForm) (header : Row) (rows : List Row) (tables : List (List Row))
        → refusal_of form (header ∷ all_rows (rows ∷ tables)) ≡ first_refusal form 0 header (rows ∷ tables) }
{}

/// A refusal of answers names the only part and the only job that it can name; then the parts have no merged answers.
pub fn a_refusal_names_one_part_and_one_job()
    ensures none { (jobs : List AbstractJob) (parts : List Part) (number job : ℕ)
        → IsApart jobs parts number job → merged jobs parts ≡ None }
    ensures one { (jobs : List AbstractJob) (parts : List Part) (number job other another : ℕ)
        → IsApart jobs parts number job → IsApart jobs parts other another
        → (number ≡ other) × (job ≡ another) }
{}
