//! The bytes of a round.

ghost use Rattle.std.specs.Prelude.{◌≡◌, ◌⊎◌, ◌<◌, ◌≤◌, ◌-◌, [], true, IfErr, IfOk, OnOk, length, get_or};
ghost use Rattle.std.specs.Io.KnownBytes.{IsAtEnd};
ghost use Rattle.counted_io.specs.CountedRead.{GaveSome, HasGiven};
ghost use Rattle.counted_io.specs.FailureCounts.{HasRisen};

use crate::fault::ColumnFault;
use counted_io::{CountedRead, ReadAllFault, read_up_to};
use std::alloc::{AllocError, Global};

/// Reads on, after the bytes that are there, until they are `limit` bytes, and answers whether the reader is at its
/// end.
pub(crate) fn read_on<R: CountedRead>(
    reader: &mut R,
    bytes: &mut Vec<u8>,
    limit: usize,
) -> Result<bool, ColumnFault>
    ensures bytes { OnOk result
        (HasGiven (R.remaining reader.old) (R.remaining reader.new) bytes.old.items bytes.new.items) }
    ensures end { IfOk result (λ is_end. is_end ≡ true → IsAtEnd (R.remaining reader.new)) }
    ensures gave { GaveSome (R.remaining reader.old) (R.remaining reader.new) }
    ensures refused { IfErr result (λ fault. (fault ≡ ColumnFault.Read) ⊎ (fault ≡ ColumnFault.NoMemory)) }
    ensures read { IfErr result (λ fault. fault ≡ ColumnFault.Read
        → HasRisen (R.failures reader.old) (R.failures reader.new)) }
    ensures counts { R.failures reader.old ≤ R.failures reader.new }
{
    match read_up_to(reader, bytes, limit) {
        Ok(is_end) => Ok(is_end),
        Err(ReadAllFault::Failed) => Err(ColumnFault::Read),
        Err(ReadAllFault::NoMemory) => Err(ColumnFault::NoMemory),
    }
}

/// No bytes, with room for this many if there is memory.
pub(crate) fn no_bytes(alloc: Global, room: usize) -> Vec<u8>
    ensures { result.items ≡ [] }
{
    let mut bytes = Vec::new(alloc);
    let _ = bytes.reserve_exact(room);
    bytes
}

/// Replaces the bytes of a vector.
pub(crate) fn begin_with(spare: &mut Vec<u8>, bytes: &[u8]) -> Result<(), AllocError>
    ensures { OnOk result (spare.new.items ≡ bytes.now) }
{
    spare.clear();
    spare.extend_from_slice(bytes)?;
    Ok(())
}

/// Where the last line feed ends, or 0 if there is none.
pub(crate) fn last_line_end(bytes: &[u8]) -> usize
    ensures within { result ≤ length bytes.now }
    ensures feed { 0 < result → get_or bytes.now (result - 1) 0 ≡ 10 }
{
    let mut end = bytes.len();
    while end > 0 && bytes[end - 1] != b'\n' {
        end -= 1;
    }
    end
}
