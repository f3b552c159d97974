//! Writers that take little, take nothing, fail or are interrupted.

use counted_io::{CountedOut, CountedWrite, WriteFault, write_all_of};
use std::alloc::Global;
use std::io;
use std::io::{ErrorKind, Write};

/// A writer over memory that is interrupted this often, and then takes at most this many bytes per
/// call until it has no room left; then it fails.
#[derive(Drop)]
pub(crate) struct Tight {
    pub(crate) held: Vec<u8>,
    a_call: usize,
    room: usize,
    interruptions: u64,
}

impl Tight {
    /// A writer that is interrupted and takes bytes as these numbers say, and holds nothing.
    pub(crate) fn new(alloc: Global, a_call: usize, room: usize, interruptions: u64) -> Tight {
        Tight {
            held: Vec::new(alloc),
            a_call,
            room,
            interruptions,
        }
    }
}

impl Write for Tight {
    fn write(&mut self, bytes: &[u8]) -> io::Result<usize> {
        if self.interruptions > 0 {
            self.interruptions -= 1;
            return Err(io::Error::from(ErrorKind::Interrupted));
        }
        let taken = bytes.len().min(self.a_call).min(self.room);
        if taken == 0 {
            return Err(io::Error::from(ErrorKind::StorageFull));
        }
        self.held.extend_from_slice(&bytes[..taken])?;
        self.room -= taken;
        Ok(taken)
    }

    fn flush(&mut self) -> io::Result<()> {
        Ok(())
    }
}

/// A writer that takes nothing and says so without an error.
#[derive(Drop)]
struct Full;

impl Write for Full {
    fn write(&mut self, _bytes: &[u8]) -> io::Result<usize> {
        Ok(0)
    }

    fn flush(&mut self) -> io::Result<()> {
        Ok(())
    }
}

/// What became of some bytes: the answer, how many writes failed, and what the writer holds.
#[derive(Drop)]
struct Sent {
    answer: Result<(), WriteFault>,
    failures: u64,
    held: Vec<u8>,
}

/// Writes all of these bytes to a writer of this kind.
fn send(alloc: Global, bytes: &[u8], a_call: usize, room: usize, interruptions: u64) -> Sent {
    let mut writer = CountedOut::new(Tight::new(alloc, a_call, room, interruptions));
    let answer = write_all_of(&mut writer, bytes);
    Sent {
        answer,
        failures: writer.failures(),
        held: writer.into_inner().held,
    }
}

const BYTES: &[u8] = b"s = -2\nz = true\n";

#[test]
fn exactly_the_first_bytes_went_out_when_a_write_fails(rt: HostRuntime) {
    for (a_call, interruptions) in [(1, 0u64), (4, 0), (100, 0), (5, 3)] {
        for room in 0..=BYTES.len() {
            let sent = send(rt.alloc(), BYTES, a_call, room, interruptions);
            let expected = if room < BYTES.len() {
                let written = room as u64;
                sent.answer == Err(WriteFault { written }) && sent.failures > interruptions
            } else {
                sent.answer == Ok(()) && sent.failures == interruptions
            };
            let held = sent.held.as_slice() == &BYTES[..room];
            assert!(rt; expected && held, "{a_call} a call, room for {room}");
        }
    }
}

#[test]
fn a_writer_that_takes_nothing_fails_except_for_no_bytes(rt: HostRuntime) {
    let mut writer = CountedOut::new(Full);
    assert!(rt; write_all_of(&mut writer, b"") == Ok(()) && writer.failures() == 0);
    let fault = WriteFault { written: 0 };
    assert!(rt; write_all_of(&mut writer, b"s") == Err(fault) && writer.failures() == 1);
}
