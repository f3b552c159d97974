//! Readers that count their failed reads, and the whole of what one gives.
ghost use Rattle.std.specs.Prelude.{◌≡◌, ◌≢◌, ◌+◌, ◌<◌, ◌≤◌, ℕ, true, List, length, take};
ghost use Rattle.std.specs.Prelude.{drop, vec_len, IfOk, IfErr, IfSome, OnOk, OnErr, Option};
ghost use Rattle.std.specs.Io.{ReadsAtMost};
ghost use Rattle.std.specs.Io.KnownBytes.{Consumes, IsAtEnd, Keeps, ReadConsumes};
ghost use Rattle.counted_io.specs.CountedRead.{GaveSome, HasGiven, counted_reader, failed_reads, failures_after};
ghost use Rattle.counted_io.specs.FailureCounts.{HasRisen};

use crate::failure_count::FailureCount;
use std::alloc::Global;
use std::io;
use std::io::{ErrorKind, Read};
use thiserror::Error;

/// A reader that counts the reads which answered an error.
///
/// Two counts, one taken before a call and one after it, show whether a read failed in between.
/// The count saturates at `u64::MAX`, and a saturated count is taken as increased.
pub trait CountedRead {
    // The bytes that reads will give from here on, where they are known.
    ghost remaining: { Self → Option (List ℕ) };

    // How many reads answered an error.
    ghost failures: { Self → ℕ };

    /// Reads some bytes into the front of `buf` and answers how many: 0 at the end of the input, or
    /// if `buf` is empty. After an error, `ErrorKind::Interrupted` included, no byte is lost.
    fn read_some(&mut self, buf: &mut [u8]) -> io::Result<usize>
        ensures bound { ReadsAtMost result buf.new }
        ensures bytes { ReadConsumes (remaining self.old) (remaining self.new) result buf.new }
        ensures count { failures self.new ≡ failures_after (failures self.old) result };

    /// How many reads answered an error so far.
    fn failures(&self) -> u64
        ensures { result ≡ failures self.now };

    /// A guess of how many bytes are left, 0 if unknown. Nothing rests on it but how much memory is
    /// reserved at once.
    fn likely_size(&self) -> usize {
        0
    }
}

/// Any reader, with a count of its failed reads.
#[derive(Drop)]
pub struct Counted<R> {
    reader: R,
    failures: FailureCount,
    likely_size: usize,
}

impl<R> Counted<R> {
    /// Counts from 0 on. How many bytes the reader has is unknown.
    pub fn new(reader: R) -> Counted<R>
        ensures reader { counted_reader result ≡ reader }
        ensures failures { failed_reads result ≡ 0 }
    {
        Counted::with_likely_size(reader, 0)
    }

    /// Counts from 0 on. The reader is likely to have `size` bytes left, as a file of this length.
    pub fn with_likely_size(reader: R, size: usize) -> Counted<R>
        ensures reader { counted_reader result ≡ reader }
        ensures failures { failed_reads result ≡ 0 }
    {
        Counted {
            reader,
            failures: FailureCount::none(),
            likely_size: size,
        }
    }

    /// The reader below. The count is dropped.
    pub fn into_inner(self) -> R
        ensures { result ≡ counted_reader self }
    {
        self.reader
    }
}

impl<R: Read> CountedRead for Counted<R> {
    ghost remaining = { λ c. R.remaining (counted_reader c) };

    ghost failures = { λ c. failed_reads c };

    fn read_some(&mut self, buf: &mut [u8]) -> io::Result<usize> {
        let answer = self.reader.read(buf);
        match &answer {
            Ok(count) => self.likely_size = self.likely_size.saturating_sub(*count),
            Err(_) => self.failures.rise(),
        }
        answer
    }

    fn failures(&self) -> u64 {
        self.failures.get()
    }

    fn likely_size(&self) -> usize {
        self.likely_size
    }
}

/// Why not all of a reader's bytes were read.
#[derive(Clone, Copy, Debug, PartialEq, Eq, Error)]
pub enum ReadAllFault {
    /// A read answered an error other than `ErrorKind::Interrupted`.
    #[error("read failed")]
    Failed,
    /// An allocation failed.
    #[error("out of memory")]
    NoMemory,
}

/// How many bytes are reserved before the first read, if how many there are is unknown.
const FIRST_ROOM: usize = 64 * 1024;

/// How many bytes one read asks for at most: few enough to be still in a cache when it fills them.
const MAX_READ: usize = 256 * 1024;

/// How many bytes a guess reserves at most. A sparse file may be longer than any memory.
const MAX_GUESS: usize = 64 * 1024 * 1024 * 1024;

/// All bytes that the reader has left.
///
/// An interrupted read is tried again, as std's readers do it, and its failure stays counted.
/// The bytes are held once, in a vector that has room for the reader's likely size. If the size is unknown or the
/// guess was too low, the vector grows by doubling.
pub fn read_all_of<R: CountedRead>(alloc: Global, reader: &mut R) -> Result<Vec<u8>, ReadAllFault>
    ensures bytes { IfOk result (λ all. IfSome (R.remaining reader.old) (λ left. all.items ≡ left)) }
    ensures end { OnOk result (IsAtEnd (R.remaining reader.new)) }
    ensures failed { IfErr result (λ fault. fault ≡ ReadAllFault.Failed
        → HasRisen (R.failures reader.old) (R.failures reader.new)) }
    ensures counts { R.failures reader.old ≤ R.failures reader.new }
    ensures gave { GaveSome (R.remaining reader.old) (R.remaining reader.new) }
{
    let mut bytes = room_for(alloc, reader.likely_size());
    if !read_up_to(reader, &mut bytes, usize::MAX)? {
        // No memory holds that many bytes.
        return Err(ReadAllFault::NoMemory);
    }
    Ok(bytes)
}

/// Reads on, after the bytes that are there, until they are `limit` bytes or the reader is at its end, and answers
/// whether it is. Interrupted reads and room are as in `read_all_of`.
pub fn read_up_to<R: CountedRead>(
    reader: &mut R,
    bytes: &mut Vec<u8>,
    limit: usize,
) -> Result<bool, ReadAllFault>
    ensures bytes { OnOk result
        (HasGiven (R.remaining reader.old) (R.remaining reader.new) bytes.old.items bytes.new.items) }
    ensures end { IfOk result (λ is_end. is_end ≡ true → IsAtEnd (R.remaining reader.new)) }
    ensures failed { IfErr result (λ fault. fault ≡ ReadAllFault.Failed
        → HasRisen (R.failures reader.old) (R.failures reader.new)) }
    ensures counts { R.failures reader.old ≤ R.failures reader.new }
    ensures gave { GaveSome (R.remaining reader.old) (R.remaining reader.new) }
{
    let mut filled = bytes.len();
    while filled < limit {
        let count = read_more(reader, bytes, filled, limit - filled)?;
        if count == 0 {
            bytes.truncate(filled);
            return Ok(true);
        }
        filled += count;
    }
    bytes.truncate(filled);
    Ok(false)
}

/// No bytes yet, with room for the guessed number of bytes and one more if there is memory: the read that finds the end
/// asks for some too.
fn room_for(alloc: Global, guess: usize) -> Vec<u8>
    ensures { vec_len result ≡ 0 }
{
    let mut bytes = Vec::new(alloc);
    if guess > 0 {
        let _ = bytes.reserve_exact(guess.min(MAX_GUESS) + 1);
    }
    bytes
}

/// Makes `bytes` longer by zeros, for one read of `most` bytes or fewer. A full vector is reserved as much again.
fn make_room(bytes: &mut Vec<u8>, most: usize) -> Result<(), ReadAllFault>
    requires { 0 < most }
    ensures room { OnOk result (vec_len bytes.old < vec_len bytes.new) }
    ensures front { OnOk result (take (vec_len bytes.old) bytes.new.items ≡ bytes.old.items) }
    ensures err { IfErr result (λ fault. fault ≡ ReadAllFault.NoMemory) }
{
    let filled = bytes.len();
    if filled == bytes.capacity() && bytes.reserve(filled.max(FIRST_ROOM)).is_err() {
        return Err(ReadAllFault::NoMemory);
    }
    let room = (bytes.capacity() - filled).min(MAX_READ).min(most);
    if bytes.resize(filled + room, 0).is_err() {
        return Err(ReadAllFault::NoMemory);
    }
    Ok(())
}

/// One read into `bytes` from place `filled` on; a filled vector is made longer first, by `most` bytes or fewer.
fn read_more<R: CountedRead>(
    reader: &mut R,
    bytes: &mut Vec<u8>,
    filled: usize,
    most: usize,
) -> Result<usize, ReadAllFault>
    requires filled { filled ≤ vec_len bytes.old }
    requires most { 0 < most }
    ensures front { OnOk result (take filled bytes.new.items ≡ take filled bytes.old.items) }
    ensures fits { IfOk result (λ n. filled + n ≤ vec_len bytes.new) }
    ensures ok { IfOk result (λ n. Consumes (R.remaining reader.old) (R.remaining reader.new)
        (take n (drop filled bytes.new.items))) }
    ensures end { IfOk result (λ n. n ≡ 0 → IsAtEnd (R.remaining reader.new)) }
    ensures err { OnErr result (Keeps (R.remaining reader.old) (R.remaining reader.new)) }
    ensures failed { IfErr result (λ fault. fault ≡ ReadAllFault.Failed
        → HasRisen (R.failures reader.old) (R.failures reader.new)) }
    ensures counts { R.failures reader.old ≤ R.failures reader.new }
{
    if filled == bytes.len() {
        make_room(bytes, most)?;
    }
    read_at(reader, bytes.as_mut_slice(), filled)
}

/// One read into `buf` from place `at` on.
fn read_at<R: CountedRead>(reader: &mut R, buf: &mut [u8], at: usize) -> Result<usize, ReadAllFault>
    requires { at < length buf.old }
    ensures front { take at buf.new ≡ take at buf.old }
    ensures fits { IfOk result (λ n. at + n ≤ length buf.new) }
    ensures ok { IfOk result (λ n. Consumes (R.remaining reader.old) (R.remaining reader.new)
        (take n (drop at buf.new))) }
    ensures end { IfOk result (λ n. n ≡ 0 → IsAtEnd (R.remaining reader.new)) }
    ensures err { OnErr result (Keeps (R.remaining reader.old) (R.remaining reader.new)) }
    ensures failed { OnErr result (HasRisen (R.failures reader.old) (R.failures reader.new)) }
    ensures counts { R.failures reader.old ≤ R.failures reader.new }
{
    read_retrying(reader, &mut buf[at..])
}

/// One read, tried again if it was interrupted.
fn read_retrying<R: CountedRead>(reader: &mut R, buf: &mut [u8]) -> Result<usize, ReadAllFault>
    ensures bound { ReadsAtMost result buf.new }
    ensures ok { IfOk result (λ n. Consumes (R.remaining reader.old) (R.remaining reader.new)
        (take n buf.new)) }
    ensures end { IfOk result (λ n. n ≡ 0 → 0 < length buf.old → IsAtEnd (R.remaining reader.new)) }
    ensures err { OnErr result (Keeps (R.remaining reader.old) (R.remaining reader.new)) }
    ensures failed { OnErr result (HasRisen (R.failures reader.old) (R.failures reader.new)) }
    ensures counts { R.failures reader.old ≤ R.failures reader.new }
{
    for _ in 0..u64::MAX {
        match reader.read_some(buf) {
            Ok(count) => return Ok(count),
            Err(fault) => {
                if fault.kind() != ErrorKind::Interrupted {
                    return Err(ReadAllFault::Failed);
                }
            }
        }
    }
    Err(ReadAllFault::Failed)
}
