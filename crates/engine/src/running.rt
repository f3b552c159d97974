//! A run: from the bytes of the column file and of the job file to the bytes of the report.

ghost use Rattle.counted_io.specs.FailureCounts.{HasRisen};
ghost use Rattle.engine.specs.Given.{HasRisenThere, HoldsOver, HoldsWith, IsAtEndThere, IsGiven, IsSent, IsWhole};
ghost use Rattle.engine.specs.Given.{counted};
ghost use Rattle.engine.specs.Refused.{IsEarly, IsUnread};
ghost use Rattle.engine.specs.Run.{Faulted, Input, IsReport, Reported, Says, reads_by_jobs};
ghost use Rattle.run_settings.specs.Asked.{asked_of};
ghost use Rattle.std.specs.Io.KnownBytes.{IsAtEnd, Keeps};
ghost use Rattle.std.specs.Prelude.{◌≡◌, ◌≢◌, ℕ, false, true, IfErr, IfOk, OnOk};

use crate::fault::EngineFault;
use crate::gate::RunGate;
use crate::reporting::report_of;
use crate::table::{names_for, read_table, reads_by_jobs};
use columns::{ColumnFault, Columns};
use counted_io::{CountedRead, CountedWrite, ReadAllFault, WriteFault, read_all_of};
use report::{Report, write_report};
use run_settings::Settings;
use std::alloc::Global;
use std::sync::Wait;
use std::thread::Threads;

/// Reads the columns, if there is a reader of them, then the job file whole; checks the jobs, runs them,
/// builds the report whole and writes it.
///
/// The columns are read and the jobs run on threads, no more than the settings say. A piece of at most the threshold
/// is never cut, unless the settings are adaptive; a longer one is, while nodes last, unless the walk goes through a
/// slice that doesn't select positions of the source. The gate is called before each piece, and one that does nothing
/// will do. None of this changes the report.
///
/// The column file is read first, and the job file isn't read if it is refused. Where the settings look at named
/// columns alone or read version 3, the job file says how columns are read: then it is read first, and a column file
/// is refused before its jobs all the same.
///
/// The cells of the columns, the job file and the report are each held in memory once. While the cells are read, the
/// bytes of a column file of at most 1 MiB for each thread, and 16 MiB in all, are held whole, of a longer one twice
/// that many, or all that are left from a row with quotes on; the cells of that many bytes are held beside.
pub fn run<
    H: Threads + Wait + Sync,
    C: CountedRead,
    J: CountedRead,
    W: CountedWrite,
    G: RunGate + Sync,
>(
    rt: &H,
    alloc: Global,
    columns: Option<&mut C>,
    jobs: &mut J,
    writer: &mut W,
    settings: &Settings,
    gate: &G,
) -> Result<(), EngineFault>
    // The headline: after what the writer held before, it holds the report of the jobs that the bytes spell. The input
    // is what the readers held, and some bytes for a reader whose bytes aren't known.
    ensures report { OnOk result ((input : Input)
        × IsGiven C.remaining columns.entry (J.remaining jobs.old) (asked_of settings.now) input
        × Reported input (W.contents writer.old) (W.contents writer.new)) }
    ensures fault { IfErr result (λ fault. (input : Input)
        × IsGiven C.remaining columns.entry (J.remaining jobs.old) (asked_of settings.now) input
        × Faulted input (W.contents writer.old) (W.contents writer.new) fault) }

    ensures read_up { OnOk result (IsAtEnd (J.remaining jobs.new)) }
    ensures columns_read_up { OnOk result (IsAtEndThere C.remaining columns.entry columns.exit) }

    ensures unread { reads_by_jobs (asked_of settings.now) ≡ false
        → IfErr result (λ fault. (cause : ColumnFault) → fault ≡ EngineFault.Columns cause →
        (J.remaining jobs.new ≡ J.remaining jobs.old) × (J.failures jobs.new ≡ J.failures jobs.old)) }
    ensures unwritten { IfErr result (λ fault. ((n : ℕ) → fault ≢ EngineFault.Write n) →
        Keeps (W.contents writer.old) (W.contents writer.new)) }
    ensures untouched { IfErr result (λ fault. ((n : ℕ) → fault ≢ EngineFault.Write n) →
        W.failures writer.new ≡ W.failures writer.old) }
    ensures columns_failed { IfErr result (λ fault. fault ≡ EngineFault.Columns ColumnFault.Read →
        HasRisenThere C.failures columns.entry columns.exit) }
    ensures read_failed { IfErr result (λ fault. fault ≡ EngineFault.JobsRead →
        HasRisen (J.failures jobs.old) (J.failures jobs.new)) }
    ensures write_failed { IfErr result (λ fault. (n : ℕ) → fault ≡ EngineFault.Write n →
        HasRisen (W.failures writer.old) (W.failures writer.new)) }
{
    match columns {
        Some(reader) => {
            if reads_by_jobs(settings) {
                let report = report_named(rt, alloc, reader, jobs, settings, gate);
                return send(writer, report, gate);
            }
            let table = match read_table(rt, alloc, reader, settings, Vec::new(alloc)) {
                Ok(table) => table,
                Err(fault) => return Err(EngineFault::Columns(fault)),
            };
            let report = report_from(rt, alloc, table, jobs, settings, gate);
            send(writer, report, gate)
        }
        None => {
            let report = report_from(rt, alloc, Columns::none(), jobs, settings, gate);
            send(writer, report, gate)
        }
    }
}

/// The report of the job file that this reader has left, with these columns.
fn report_from<H: Threads + Wait + Sync, J: CountedRead, G: RunGate + Sync>(
    rt: &H,
    alloc: Global,
    columns: Columns,
    jobs: &mut J,
    settings: &Settings,
    gate: &G,
) -> Result<Report, EngineFault>
    ensures ok { IfOk result (λ report. HoldsWith columns (J.remaining jobs.old) (asked_of settings.now)
        (λ input. IsReport input report)) }
    ensures end { OnOk result (IsAtEnd (J.remaining jobs.new)) }
    ensures err { IfErr result (λ fault. HoldsWith columns (J.remaining jobs.old) (asked_of settings.now)
        (λ input. Says input fault)) }
    ensures early { IfErr result IsEarly }
    ensures read_failed { IfErr result (λ fault. fault ≡ EngineFault.JobsRead →
        HasRisen (J.failures jobs.old) (J.failures jobs.new)) }
{
    let bytes = match jobs_of(alloc, jobs) {
        Ok(bytes) => bytes,
        Err(fault) => return Err(fault),
    };
    report_of(rt, alloc, &columns, &bytes, settings, gate)
}

/// The report of the job file that this reader has left, which is read first, over columns that are read as it asks.
fn report_named<H: Threads + Wait + Sync, C: CountedRead, J: CountedRead, G: RunGate + Sync>(
    rt: &H,
    alloc: Global,
    columns: &mut C,
    jobs: &mut J,
    settings: &Settings,
    gate: &G,
) -> Result<Report, EngineFault>
    requires { reads_by_jobs (asked_of settings.now) ≡ true }
    ensures ok { IfOk result (λ report. HoldsOver (C.remaining columns.old) (J.remaining jobs.old)
        (asked_of settings.now) (λ input. IsReport input report)) }
    ensures err { IfErr result (λ fault. HoldsOver (C.remaining columns.old) (J.remaining jobs.old)
        (asked_of settings.now) (λ input. Says input fault)) }
    ensures end { OnOk result (IsAtEnd (J.remaining jobs.new)) }
    ensures columns_end { OnOk result (IsAtEnd (C.remaining columns.new)) }
    ensures columns_failed { IfErr result (λ fault. fault ≡ EngineFault.Columns ColumnFault.Read →
        HasRisen (C.failures columns.old) (C.failures columns.new)) }
    ensures read_failed { IfErr result (λ fault. fault ≡ EngineFault.JobsRead →
        HasRisen (J.failures jobs.old) (J.failures jobs.new)) }
{
    let bytes = match jobs_of(alloc, jobs) {
        Ok(bytes) => bytes,
        Err(fault) => return Err(fault),
    };
    let Ok(names) = names_for(alloc, settings, &bytes) else {
        return Err(EngineFault::NoMemory);
    };
    let table = match read_table(rt, alloc, columns, settings, names) {
        Ok(table) => table,
        Err(fault) => return Err(EngineFault::Columns(fault)),
    };
    report_of(rt, alloc, &table, &bytes, settings, gate)
}

/// The bytes that a reader of a job file has left.
fn jobs_of<J: CountedRead>(alloc: Global, jobs: &mut J) -> Result<Vec<u8>, EngineFault>
    ensures bytes { IfOk result (λ bytes. IsWhole (J.remaining jobs.old) bytes.items) }
    ensures end { OnOk result (IsAtEnd (J.remaining jobs.new)) }
    ensures early { IfErr result IsUnread }
    ensures read_failed { IfErr result (λ fault. fault ≡ EngineFault.JobsRead →
        HasRisen (J.failures jobs.old) (J.failures jobs.new)) }
{
    match read_all_of(alloc, jobs) {
        Ok(bytes) => Ok(bytes),
        Err(ReadAllFault::Failed) => Err(EngineFault::JobsRead),
        Err(ReadAllFault::NoMemory) => Err(EngineFault::NoMemory),
    }
}

/// Writes a report, if there is one, after a word to the gate.
fn send<W: CountedWrite, G: RunGate>(
    writer: &mut W,
    report: Result<Report, EngineFault>,
    gate: &G,
) -> Result<(), EngineFault>
    ensures { IsSent report (counted W.contents W.failures writer.old) (counted W.contents W.failures writer.new)
        result }
{
    let report = match report {
        Ok(report) => report,
        Err(fault) => return Err(fault),
    };
    gate.before_report();
    match write_report(writer, &report) {
        Ok(()) => Ok(()),
        Err(WriteFault { written }) => Err(EngineFault::Write { written }),
    }
}
