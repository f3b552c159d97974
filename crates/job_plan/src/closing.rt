//! Sinks that make something of what they took, once the walk has ended.

ghost use Rattle.std.specs.Prelude.{◌≡◌, [], List, IfOk};
ghost use Rattle.trace.specs.Trace.{Trace, append, trace};
ghost use Rattle.trace.specs.declared.item.End.TheVariants as end;
ghost use Rattle.lambda_values.specs.declared.item.Item.{Item};
ghost use Rattle.job_plan.specs.Parts.{GoesOnFrom, flow_of};
ghost use Rattle.job_routes.specs.Legs.{end_in};

use crate::end_part::EndPart;
use crate::part::Part;
use crate::part_sink::{EndBrand, PartSink};
use batch_eval::BatchSink;
use trace::{End, Flow, NoMemory};

/// A sink that makes something of what it took.
pub(crate) trait Closing: BatchSink + Drop {
    /// What the sink makes.
    type Made;

    // it describes the walk that went into the sink
    ghost stands: { Self.Made → Trace → Type 0 };

    /// Whether the sink wants no further item.
    fn has_enough(&self) -> bool
        ensures { flow_of result ≡ Self.flow self.now };

    /// What the sink makes of the items that it took, if the walk ends with `ending` after them. If the sink has
    /// enough, it makes equal parts of all walks that begin with them.
    fn close(self, ending: End) -> Result<Self::Made, NoMemory>
        ensures closed { IfOk result (λ made. (xs : List Item) → Self.has_taken self xs
            → Self.stands made (append (trace xs end.Done) (trace [] ending))) }
        ensures enough { IfOk result (λ made. Self.flow self ≡ Flow.Enough → (xs : List Item) (later : Trace)
            → Self.has_taken self xs → Self.stands made (append (trace xs end.Done) later)) };
}

impl<'p, K: EndBrand> Closing for PartSink<'p, '_, K> {
    type Made = Part<'p>;

    ghost stands = { GoesOnFrom (end_in K.last) K.stage K.env K.begun };

    fn has_enough(&self) -> bool {
        self.part.is_settled()
    }

    fn close(self, ending: End) -> Result<Part<'p>, NoMemory> {
        let mut part = self.part;
        if part.is_settled() {
            return Ok(part);
        }
        part.end_with(ending);
        Ok(part)
    }
}
