//! A piece of a leg, and what a leg is walked with.
ghost use Rattle.std.specs.Prelude.{◌≡◌};

/// Positions of a leg of a job: from one on, up to, not with, a second one.
#[derive(Clone, Copy)]
pub struct Piece {
    pub job: usize,
    pub leg: usize,
    pub from: u64,
    pub to: u64,
}

impl Piece {
    /// All positions of a leg that has this many of them.
    pub(crate) fn all(job: usize, leg: usize, size: u64) -> Piece
        ensures of { (result.job ≡ job) × (result.leg ≡ leg) }
        ensures positions { (result.from ≡ 0) × (result.to ≡ size) }
    {
        Piece {
            job,
            leg,
            from: 0,
            to: size,
        }
    }
}

/// What a leg of a job goes over, how many positions that has, the job's inputs from the answers that it names, and
/// those answers.
#[derive_where(Clone, Copy)]
pub struct LegInput<'s, 'i, S, G, E> {
    /// `None` for the first leg, which goes over the source of the job.
    pub source: Option<&'s S>,
    pub size: u64,
    pub given: &'i G,
    pub earlier: &'i E,
}

/// What a leg after the first one goes over, and how many positions that has.
#[derive(Drop)]
pub struct NextSource<S> {
    pub source: S,
    pub size: u64,
}
