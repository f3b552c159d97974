//! Numbers that lie in pieces, in groups of one size, so that all threads have equally many.
ghost use Rattle.std.specs.Prelude.{◌≡◌, ◌++◌, flat_map, IfOk, OnOk};
ghost use Rattle.report.specs.Groups.{grouped};
ghost use Rattle.report.specs.Runs.{runs_in};

use crate::NoMemory;
use std::alloc::Global;
use std::mem;

/// Groups of runs of numbers that lie side by side. No number is copied.
#[derive(Drop)]
pub(crate) struct Groups<'a> {
    pub(crate) whole: Vec<Vec<&'a [i64]>>,
    /// The group that has room for more numbers.
    pub(crate) last: Vec<&'a [i64]>,
    size: usize,
    room: usize,
}

impl<'a> Groups<'a> {
    /// These numbers, and then the numbers of the pieces, in groups of `size` numbers; the last group may have fewer.
    pub(crate) fn of(
        alloc: Global,
        rest: &'a [i64],
        pieces: &'a [Vec<i64>],
        size: usize,
    ) -> Result<Vec<Vec<&'a [i64]>>, NoMemory>
        ensures { IfOk result (λ groups. flat_map (λ group. runs_in group.items) groups.items
            ≡ rest.now ++ flat_map (λ piece. piece.items) pieces.now) }
    {
        let mut groups = Groups {
            whole: Vec::new(alloc),
            last: Vec::new(alloc),
            size,
            room: size,
        };
        groups.add(rest)?;
        for piece in pieces {
            groups.add(piece)?;
        }
        groups.finish()
    }

    /// Adds numbers that lie side by side.
    fn add(&mut self, numbers: &'a [i64]) -> Result<(), NoMemory>
        ensures { OnOk result (grouped self.new ≡ grouped self.old ++ numbers.now) }
    {
        let mut left = numbers;
        let mut room = self.room.max(1);
        while room <= left.len() {
            let (front, back) = left.split_at(room);
            self.end_group(front)?;
            left = back;
            room = self.size.max(1);
        }
        self.last.push(left)?;
        self.room = room - left.len();
        Ok(())
    }

    /// Adds the last numbers of a group, and begins the next one.
    fn end_group(&mut self, numbers: &'a [i64]) -> Result<(), NoMemory>
        ensures { OnOk result (grouped self.new ≡ grouped self.old ++ numbers.now) }
    {
        self.last.push(numbers)?;
        let none = Vec::new(*self.whole.allocator());
        self.whole.push(mem::replace(&mut self.last, none))?;
        Ok(())
    }

    /// All groups.
    fn finish(self) -> Result<Vec<Vec<&'a [i64]>>, NoMemory>
        ensures { IfOk result (λ groups. flat_map (λ group. runs_in group.items) groups.items ≡ grouped self.entry) }
    {
        let Groups {
            mut whole,
            last,
            ..
        } = self;
        whole.push(last)?;
        Ok(whole)
    }
}
