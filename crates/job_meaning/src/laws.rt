//! Laws of walks and of answers. The functions do nothing; their contracts are the laws.

ghost use Rattle.std.specs.Prelude.{◌≡◌, ℕ, true, List, length};
ghost use Rattle.lambda_values.specs.Earlier.{Numbers};
ghost use Rattle.lambda_values.specs.declared.item.Item.{Item as meant_item};
ghost use Rattle.trace.specs.declared.item.End.{End as meant_end};
ghost use Rattle.trace.specs.Trace.{Trace, nothing, trace};
ghost use Rattle.find_ops.specs.Finds.{Find, decision_of};
ghost use Rattle.job_language.specs.Jobs.{AbstractJob, AbstractJobStage, names_of};
ghost use Rattle.job_meaning.specs.FileAnswers.{meaning_of};
ghost use Rattle.job_meaning.specs.ItemWalks.{HasNoBarrier, decided_in, is_over, walked};
ghost use Rattle.job_meaning.specs.Longs.{AnswersFit, JobsFit};
ghost use Rattle.job_meaning.specs.Walks.{after_stages};

/// One thread that takes each item through all stages before the next one, and asks for no item after a slice has
/// ended, meets the items and the fault that the stages give one after the other. With a find or a match at the end it
/// asks for no item after the one that decides. A `prefix` or a `sorted` looks at a whole walk, so the
/// stages have none.
pub fn walks_go_item_by_item()
    ensures walk { (n : ℕ) (gs : List AbstractJobStage) (env : Numbers) (xs : List meant_item) (e : meant_end)
        → HasNoBarrier gs
        → after_stages n gs env (trace xs e) ≡ walked n gs env xs e }
    ensures find { (d : Find) (m n : ℕ) (gs : List AbstractJobStage) (env : Numbers) (xs : List meant_item)
        (e : meant_end) → HasNoBarrier gs
        → decision_of d m env (after_stages n gs env (trace xs e)) ≡ decided_in d m n gs env xs e }
    ensures over { (n : ℕ) (gs : List AbstractJobStage) (env : Numbers) (t : Trace) → HasNoBarrier gs
        → is_over gs ≡ true → after_stages n gs env t ≡ nothing }
{}

/// Each job has an answer. Over columns of 64 bits, and with numbers of 64 bits in the jobs, each number in it has 64
/// bits: sums and counts wrap, and an exact sum outside 64 bits is a fault. Places and stages of faults are below 2^64,
/// and a job is unusable because of the first one with a name.
pub fn answers_have_64_bits()
    ensures each { (jobs : List AbstractJob) → length (names_of jobs) ≡ length (meaning_of jobs) }
    ensures fit { (jobs : List AbstractJob) → JobsFit jobs → AnswersFit (names_of jobs) (meaning_of jobs) }
{}
