//! The route of a job: its legs, of which the first one may be a search.

ghost use Rattle.std.specs.Prelude.{◌≡◌, ◌≤◌, suc, List, None, Some, length, IfOk, IfSome, false, is_some};
ghost use Rattle.lambda_values.specs.Earlier.{Numbers};
ghost use Rattle.job_language.specs.Jobs.{AbstractPlainSource, job_stages_of, terminal_of};
ghost use Rattle.job_meaning.specs.Walks.{after_stages, answer_of, source_walk};
ghost use Rattle.job_routes.specs.Legs.{leg_in, legs_answer, legs_in, legs_of_route};

use crate::building::legs_of;
use crate::leg::Leg;
use crate::searches::search_for;
use job_language::{JobStage, Terminal};
use std::alloc::Global;
use trace::NoMemory;

/// The positions on one side of a place.
#[derive(Clone, Copy)]
pub enum PlaceSide {
    /// Those before it.
    Before,
    /// Those from it on.
    From,
}

/// The legs of a job.
#[derive(Drop)]
pub struct Route {
    /// Which positions the next leg goes over, if the first one is a search.
    pub search: Option<PlaceSide>,
    /// The legs that give walks, and a search before them.
    pub scans: Vec<Leg>,
    /// The leg that gives the answer.
    pub last: Leg,
}

/// The legs, with a search before the first one, if one gains there.
fn with_search(alloc: Global, scans: Vec<Leg>, last: Leg) -> Result<Route, NoMemory>
    ensures { IfOk result (λ route. (env : Numbers) (ss : List AbstractPlainSource)
        → legs_answer (legs_of_route route) env (source_walk ss)
        ≡ legs_answer (record { search = None; scans = legs_in scans.items; last = leg_in last }) env
        (source_walk ss)) }
{
    let mut scans = scans;
    let mut last = last;
    let found = match scans.first_mut() {
        Some(first) => search_for(alloc, first)?,
        None => search_for(alloc, &mut last)?,
    };
    match found {
        Some((search, side)) => {
            scans.insert(0, search)?;
            Ok(Route {
                search: Some(side),
                scans,
                last,
            })
        }
        None => Ok(Route {
            search: None,
            scans,
            last,
        }),
    }
}

/// The legs of a job of these stages and this terminal. A search is over the job's `own` sources. It takes more
/// processor time than a slice in the middle of a walk, so there is none unless workers are `to_spare`.
pub fn route_of(
    alloc: Global,
    stages: Vec<JobStage>,
    terminal: Terminal,
    own: bool,
    to_spare: bool,
) -> Result<Route, NoMemory>
    requires few { length stages.items ≤ 32 }
    ensures answer { IfOk result (λ route. (env : Numbers) (ss : List AbstractPlainSource)
        → legs_answer (legs_of_route route) env (source_walk ss)
        ≡ answer_of (suc (length stages.items)) env (terminal_of terminal)
        (after_stages 1 (job_stages_of stages.items) env (source_walk ss))) }
    ensures own { IfOk result (λ route. own ≡ false → is_some route.search ≡ false) }
{
    let (scans, last) = legs_of(alloc, stages, terminal)?;
    if own && to_spare {
        return with_search(alloc, scans, last);
    }
    Ok(Route {
        search: None,
        scans,
        last,
    })
}
