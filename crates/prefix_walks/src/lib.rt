//! What a prefix keeps of a walk, and how a walk that was kept is walked again.
//!
//! Stands on `prefix_scan`, for folds and scans of pieces, on `reduce_ops`, for operators, on `sort_ops`, for runs, and
//! on `batch_eval` and `trace`, for walks. Used by `job_routes`, which says where a prefix ends a leg, and by
//! `job_plan`, which walks legs. Begin with `specs/Scans.antt` and `prefix_part.rt`. A piece of a walk gives its items
//! to a `PrefixPart`, which stores them in pieces of 1,024 with their folds, or borrows the values and the cheap stages
//! that they come out of. Two parts side by side merge. `finish` gives a `GivenWalk`, whose items are scanned as
//! `feed_given` takes them through the stages of the next segment. A `GivenWalk` may also keep items, or the runs of a
//! sort, of which `kept_runs.rt` puts those in order that are asked for. The folds of batches (`folded`,
//! `folded_flagged`) are of use without a prefix.
//! Not promised: that a value is read once. What cheap stages leave of a borrowed value is worked out for its fold and
//! again where it is read.
//!
//! Tested: runs of the programs in `tests`.
#![tactic(auto)]

mod cheap_stages;
mod folded_piece;
mod folded_walk;
mod folding;
mod given;
mod kept;
mod kept_items;
mod kept_runs;
mod laws;
mod piece_buffer;
mod piece_folds;
mod piece_items;
mod pieces;
mod prefix;
mod prefix_part;
mod prefix_pieces;
mod scanned;
mod scanned_pieces;
mod spans;
mod stored;
mod window;
mod worked;

pub use cheap_stages::CheapStages;
pub use folding::{folded, folded_flagged, folded_run, folds_runs};
pub use given::GivenWalk;
pub use laws::pieces_join;
pub use pieces::ItemPiece;
pub use prefix::Prefix;
pub use prefix_part::PrefixPart;
pub use scanned_pieces::feed_given;
pub use spans::{Portion, within};
pub use window::Window;
