//! The sink of a walk that ends in a find or a match.

ghost use Rattle.std.specs.Prelude.{◌≡◌, [], if◌then◌else◌, is_some};
ghost use Rattle.trace.specs.declared.item.End.TheVariants as end;
ghost use Rattle.trace.specs.declared.sink.Flow.TheVariants as flow;
ghost use Rattle.trace.specs.Trace.{trace};
ghost use Rattle.find_ops.specs.Finds.{find_of};
ghost use Rattle.find_ops.specs.Parts.{StandsFor};

use crate::find_part::FindPart;
use crate::terminal::FindTerminal;
use lambda_values::Env;
use trace::{End, Flow, Item, LongSink, NoMemory};

/// A sink that looks at items until one decides. It takes no memory.
///
/// For other programs: `streamrun` ends a segment with `FindPart`.
#[derive(Drop)]
pub struct Finder<'a> {
    terminal: &'a FindTerminal,
    stage: u32,
    env: &'a Env<'a>,
    part: FindPart,
}

impl<'a> Finder<'a> {
    /// A sink that has looked at no item. The terminal is the stage with this number.
    pub fn new(terminal: &'a FindTerminal, stage: u32, env: &'a Env<'a>) -> Finder<'a>
        ensures terminal { result.terminal.now ≡ terminal.now }
        ensures stage { result.stage ≡ stage }
        ensures env { result.env.now ≡ env.now }
        ensures stands { StandsFor (find_of terminal.now) stage env.now result.part (trace [] end.Done) }
    {
        Finder {
            terminal,
            stage,
            env,
            part: FindPart::none(terminal, End::Done),
        }
    }

    /// What the items decide that the sink has accepted.
    pub fn part(&self) -> FindPart
        ensures { result ≡ self.now.part }
    {
        self.part
    }
}

impl LongSink for Finder<'_> {
    ghost has_taken = { λ finder items.
        StandsFor (find_of finder.terminal.now) finder.stage finder.env.now finder.part (trace items end.Done) };

    ghost flow = { λ finder. if is_some finder.part.decision then flow.Enough else flow.More };

    ghost takes_memory = { ⊥ };

    fn accept(&mut self, item: Item) -> Result<Flow, NoMemory> {
        self.part = self.part.look_at(self.terminal, self.stage, self.env, item);
        Ok(if self.part.is_decided() {
            Flow::Enough
        } else {
            Flow::More
        })
    }
}
