//! How the column file of a run is read.

ghost use Rattle.columns.specs.Layouts.{IsAnswerBy};
ghost use Rattle.counted_io.specs.FailureCounts.{HasRisen};
ghost use Rattle.engine.specs.Given.{IsWhole};
ghost use Rattle.engine.specs.Run.{form_with, names_for, reads_by_jobs};
ghost use Rattle.run_settings.specs.Asked.{asked_of};
ghost use Rattle.run_settings.specs.SettingsParts.{table_of};
ghost use Rattle.std.specs.Io.KnownBytes.{IsAtEnd};
ghost use Rattle.std.specs.Prelude.{◌≡◌, ℕ, List, map, IfErr, IfOk, OnOk};

use columns::{ColumnFault, Columns, TableForm, read_columns_as};
use counted_io::CountedRead;
use job_names::names_in;
use run_settings::Settings;
use std::alloc::{AllocError, Global};
use std::thread::Threads;
use stream_tokens::{JobTexts, version_within};

/// How many bytes of a column file a thread parses at a time.
const PIECE: usize = 256 * 1024;

/// Whether how a column file is read depends on the job file.
pub(crate) fn reads_by_jobs(settings: &Settings) -> bool
    ensures { result ≡ reads_by_jobs (asked_of settings.now) }
{
    settings.table().only_named || settings.language().newest() >= 3
}

/// The names under which a job file looks at columns, if how the columns are read depends on it.
pub(crate) fn names_for(
    alloc: Global,
    settings: &Settings,
    jobs: &[u8],
) -> Result<Vec<Vec<u8>>, AllocError>
    ensures { IfOk result (λ names. map (λ name. name.items) names.items ≡ names_for (asked_of settings.now) jobs.now) }
{
    let newest = settings.language().newest();
    if settings.table().only_named || (newest >= 3 && version_within(newest, jobs) >= 3) {
        return names_in(alloc, &mut JobTexts::within(newest, jobs));
    }
    Ok(Vec::new(alloc))
}

/// The columns that a file gives in the form that the settings ask for, looked at under these names.
pub(crate) fn read_table<H: Threads + Sync, C: CountedRead>(
    rt: &H,
    alloc: Global,
    reader: &mut C,
    settings: &Settings,
    names: Vec<Vec<u8>>,
) -> Result<Columns, ColumnFault>
    ensures answer { (bytes : List ℕ) × IsWhole (C.remaining reader.old) bytes
        × IsAnswerBy (form_with (table_of settings.now) (map (λ name. name.items) names.items)) bytes result }
    ensures end { OnOk result (IsAtEnd (C.remaining reader.new)) }
    ensures read { IfErr result (λ fault. fault ≡ ColumnFault.Read
        → HasRisen (C.failures reader.old) (C.failures reader.new)) }
{
    let workers = settings.workers() as usize;
    let table = settings.table();
    let form = TableForm {
        separator: table.separator,
        is_all: !table.only_named,
        names,
        blank: table.blank,
    };
    read_columns_as(rt, alloc, reader, workers, PIECE, &form)
}
