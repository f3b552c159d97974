//! The run of the program over open files, and its exit status.

ghost use Rattle.std.specs.Io.KnownBytes.{IsAtEnd};
ghost use Rattle.std.specs.Prelude.{◌≡◌, IfErr, OnOk, Result, Some, ⊤};
ghost use Rattle.columns.specs.declared.fault.ColumnFault.TheVariants as column_fault;
ghost use Rattle.counted_io.specs.FailureCounts.{HasRisen};
ghost use Rattle.engine.specs.Given.{HasRisenThere, IsAnswered, IsAtEndThere, IsLeft, counted};
ghost use Rattle.engine.specs.Statuses.{status_after};
ghost use Rattle.engine.specs.declared.fault.EngineFault.{EngineFault as meant_fault};
ghost use Rattle.engine.specs.declared.fault.EngineFault.TheVariants as meant;
ghost use Rattle.run_settings.specs.Asked.{asked_of};

use crate::progress::Progress;
use counted_io::{CountedRead, CountedWrite};
use engine::{EngineFault, run, status_after};
use run_settings::Settings;
use std::sync::Wait;
use std::thread::Threads;

/// Runs the jobs, wipes the line, and answers the exit status; after a fault its line is on standard error.
///
/// The status is the status after an answer of the run over these readers and this writer, with all clauses of `run`.
pub fn ended_run<H: Threads + Wait + Sync, C: CountedRead, J: CountedRead, W: CountedWrite>(
    columns: Option<&mut C>,
    jobs: &mut J,
    writer: &mut W,
    settings: &Settings,
    progress: &Progress<'_, H>,
) -> u8
    ensures { (answer : Result ⊤ meant_fault) × (result ≡ status_after answer)
        × IsAnswered C.remaining columns.entry (J.remaining jobs.old) (asked_of settings.now)
        (W.contents writer.old) (W.contents writer.new) answer
        × OnOk answer (IsAtEndThere C.remaining columns.entry columns.exit)
        × IfErr answer (λ fault. fault ≡ meant.Columns column_fault.Read →
        HasRisenThere C.failures columns.entry columns.exit)
        × IsLeft (asked_of settings.now) (counted J.remaining J.failures jobs.old)
        (counted J.remaining J.failures jobs.new) (counted W.contents W.failures writer.old)
        (counted W.contents W.failures writer.new) answer }
{
    match columns {
        Some(reader) => ended_over(reader, jobs, writer, settings, progress),
        None => {
            let answer = run(
                progress.threads,
                progress.host.alloc(),
                columns,
                jobs,
                writer,
                settings,
                progress,
            );
            status_shown(&answer, progress)
        }
    }
}

/// The run over a column file. What becomes of a reader is known to the prover where it is there, not where it may be.
fn ended_over<H: Threads + Wait + Sync, C: CountedRead, J: CountedRead, W: CountedWrite>(
    columns: &mut C,
    jobs: &mut J,
    writer: &mut W,
    settings: &Settings,
    progress: &Progress<'_, H>,
) -> u8
    ensures { (answer : Result ⊤ meant_fault) × (result ≡ status_after answer)
        × IsAnswered C.remaining (Some columns.entry) (J.remaining jobs.old) (asked_of settings.now)
        (W.contents writer.old) (W.contents writer.new) answer
        × OnOk answer (IsAtEnd (C.remaining columns.new))
        × IfErr answer (λ fault. fault ≡ meant.Columns column_fault.Read →
        HasRisen (C.failures columns.old) (C.failures columns.new))
        × IsLeft (asked_of settings.now) (counted J.remaining J.failures jobs.old)
        (counted J.remaining J.failures jobs.new) (counted W.contents W.failures writer.old)
        (counted W.contents W.failures writer.new) answer }
{
    let answer = run(
        progress.threads,
        progress.host.alloc(),
        Some(columns),
        jobs,
        writer,
        settings,
        progress,
    );
    status_shown(&answer, progress)
}

/// The exit status after this answer, once the line of the run is wiped; after a fault its line is on standard error.
fn status_shown<H: Wait>(answer: &Result<(), EngineFault>, progress: &Progress<'_, H>) -> u8
    ensures { result ≡ status_after answer.now }
{
    progress.end();
    status_after(answer, &mut progress.host.stderr())
}
