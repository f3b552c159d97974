//! A law of routes. The function does nothing; its contract is the law.

ghost use Rattle.job_language.specs.Jobs.{AbstractJob};
ghost use Rattle.job_meaning.specs.Walks.{answer_of_job};
ghost use Rattle.job_plan.specs.Plans.{AbstractPlan, IsRoute, planned_answer};
ghost use Rattle.lambda_values.specs.Earlier.{Numbers};
ghost use Rattle.std.specs.Prelude.{◌≡◌, ℕ, List};

/// A route has the answer of its job, whatever numbers the `$` names have, also if the job is unusable in its file. By
/// `Plan::of`, clause `routes`, and by the contracts of `walk_tree` and `walk`, this answer is what they give on every
/// split tree. A job with `result(NAME)` is walked without the values of that array.
pub fn routes_answer_as_their_jobs()
    ensures { (before : List (List ℕ)) (plan : AbstractPlan) (job : AbstractJob) (env : Numbers)
        → IsRoute before plan job → planned_answer env plan ≡ answer_of_job env job }
{}
