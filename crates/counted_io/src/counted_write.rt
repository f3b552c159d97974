//! Writers that count their failed writes, and writing all of some bytes to one.
ghost use Rattle.std.specs.Prelude.{◌≡◌, ◌<◌, ◌≤◌, ℕ, List, Option, length, take};
ghost use Rattle.std.specs.Prelude.{IfOk, IfErr, IfSome, IfNone, OnOk, OnErr};
ghost use Rattle.std.specs.Io.{WritesAtMost};
ghost use Rattle.std.specs.Io.KnownBytes.{Appends, Keeps, WriteAppends};
ghost use Rattle.counted_io.specs.CountedWrite.{counted_writer, failed_writes, failures_after_write};
ghost use Rattle.counted_io.specs.FailureCounts.{HasRisen};

use crate::failure_count::FailureCount;
use std::io;
use std::io::{ErrorKind, Write};
use thiserror::Error;

/// A writer that counts the writes which failed: those that answered an error, and those that took
/// nothing of some bytes.
///
/// Two counts, one taken before a call and one after it, show whether a write failed in between.
/// The count saturates at `u64::MAX`, and a saturated count is taken as increased.
pub trait CountedWrite {
    // The bytes that the writer holds, where they are known.
    ghost contents: { Self → Option (List ℕ) };

    // How many writes failed.
    ghost failures: { Self → ℕ };

    /// Writes some bytes from the front of `bytes` and answers how many. After an error,
    /// `ErrorKind::Interrupted` included, no byte went out.
    fn write_some(&mut self, bytes: &[u8]) -> io::Result<usize>
        ensures bound { WritesAtMost result bytes.now }
        ensures bytes { WriteAppends (contents self.old) (contents self.new) result bytes.now }
        ensures count { failures self.new ≡ failures_after_write (failures self.old) result (length bytes.now) };

    /// How many writes failed so far.
    fn failures(&self) -> u64
        ensures { result ≡ failures self.now };
}

/// Any writer, with a count of its failed writes.
#[derive(Drop)]
pub struct CountedOut<W> {
    writer: W,
    failures: FailureCount,
}

impl<W> CountedOut<W> {
    /// Counts from 0 on.
    pub fn new(writer: W) -> CountedOut<W>
        ensures writer { counted_writer result ≡ writer }
        ensures failures { failed_writes result ≡ 0 }
    {
        CountedOut {
            writer,
            failures: FailureCount::none(),
        }
    }

    /// The writer below. The count is dropped.
    pub fn into_inner(self) -> W
        ensures { result ≡ counted_writer self }
    {
        self.writer
    }
}

impl<W: Write> CountedWrite for CountedOut<W> {
    ghost contents = { λ c. W.contents (counted_writer c) };

    ghost failures = { λ c. failed_writes c };

    fn write_some(&mut self, bytes: &[u8]) -> io::Result<usize> {
        let answer = self.writer.write(bytes);
        let failed = match &answer {
            Ok(count) => *count == 0 && !bytes.is_empty(),
            Err(_) => true,
        };
        if failed {
            self.failures.rise();
        }
        answer
    }

    fn failures(&self) -> u64 {
        self.failures.get()
    }
}

/// A write failed, after this many bytes had gone out.
#[derive(Clone, Copy, Debug, PartialEq, Eq, Error)]
#[error("write failed after {written} bytes")]
pub struct WriteFault {
    pub written: u64,
}

/// Writes all the bytes, in as few or many writes as the writer needs.
///
/// If there are no bytes, nothing is written, so this succeeds even if every write would fail. An interrupted write is
/// tried again, as std's writers do it, and its failure stays counted.
pub fn write_all_of<W: CountedWrite>(writer: &mut W, bytes: &[u8]) -> Result<(), WriteFault>
    ensures ok { OnOk result (Appends (W.contents writer.old) (W.contents writer.new) bytes.now) }
    ensures err { IfErr result (λ fault. Appends (W.contents writer.old) (W.contents writer.new)
        (take fault.written bytes.now)) }
    ensures short { IfErr result (λ fault. fault.written < length bytes.now) }
    ensures failed { OnErr result (HasRisen (W.failures writer.old) (W.failures writer.new)) }
    ensures counts { W.failures writer.old ≤ W.failures writer.new }
{
    let mut written = 0;
    while written < bytes.len() {
        match write_retrying(writer, &bytes[written..]) {
            Some(count) => written += count,
            None => {
                return Err(WriteFault {
                    written: written as u64,
                });
            }
        }
    }
    Ok(())
}

/// One write of some bytes, tried again if it was interrupted: how many went out, or `None` if it failed.
fn write_retrying<W: CountedWrite>(writer: &mut W, bytes: &[u8]) -> Option<usize>
    requires { 0 < length bytes.now }
    ensures bound { IfSome result (λ n. (0 < n) × (n ≤ length bytes.now)) }
    ensures some { IfSome result (λ n. Appends (W.contents writer.old) (W.contents writer.new) (take n bytes.now)) }
    ensures none { IfNone result (Keeps (W.contents writer.old) (W.contents writer.new)) }
    ensures failed { IfNone result (HasRisen (W.failures writer.old) (W.failures writer.new)) }
    ensures counts { W.failures writer.old ≤ W.failures writer.new }
{
    for _ in 0..u64::MAX {
        match writer.write_some(bytes) {
            Ok(0) => return None,
            Ok(count) => return Some(count),
            Err(fault) => {
                if fault.kind() != ErrorKind::Interrupted {
                    return None;
                }
            }
        }
    }
    None
}
