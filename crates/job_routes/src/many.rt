//! Which stages make an item into many.

ghost use Rattle.std.specs.Prelude.{◌≡◌};
ghost use Rattle.trace.specs.Stages.{stages_of};
ghost use Rattle.job_routes.specs.Legs.{makes_many};

use lambda_values::InnerExpr;
use trace::Stage;

/// Whether these stages may make an item into many: into a range, or into lists of at most 64 values by more than this
/// number of `flatMap`s.
pub(crate) fn makes_many(stages: &[Stage], lists: u32) -> bool
    ensures { result ≡ makes_many lists (stages_of stages.now) }
{
    match stages.split_first() {
        None => false,
        Some((Stage::Map(_) | Stage::Filter(_), later)) => makes_many(later, lists),
        Some((Stage::FlatMap(InnerExpr::Of(_)), later)) => {
            lists == 0 || makes_many(later, lists - 1)
        }
        Some((Stage::FlatMap(_), _)) => true,
    }
}
