//! `streamrun-merge --rows N,N,.. JOBS REPORT..`: writes the report of a table, made of the reports of its parts.
//!
//! Stands on `merge_run`, whose `ended_run` is the whole work, on `counted_io` for readers and writers, and on
//! `clap` for the command line. What it promises is the contract of `ended_run`, which this program calls on its open
//! files and on standard output. Begin with `merge_run/specs/Run.antt`; here there is only the command line, and the
//! opening of files.
//! Not promised: that a file can be opened, read or written, or that memory is there; the line on standard error says
//! which it was.
//!
//! Tested: runs of the programs in `tests`.
#![tactic(auto)]

mod command_line;

use clap::error::ErrorKind as ArgumentErrorKind;
use command_line::{MergeArguments, read_arguments};
use counted_io::{Counted, CountedOut};
use merge_run::{MergeAsked, PartFile, ended_run};
use std::alloc::{AllocError, AllocFailed};
use std::fs::File;
use std::io::{ErrorKind, Write};
use std::process::ExitCode;
use std::{env, fs};

/// The exit status if the command line is refused.
const REFUSED: u8 = 2;

/// The exit status if a file can't be opened.
const NOT_OPENED: u8 = 4;

fn main(rt: HostRuntime) -> ExitCode {
    ExitCode::from(match read_command_line(&rt) {
        Ok(status) | Err(Ending::Said(status)) => status,
        Err(Ending::NoMemory) => {
            let _ = writeln!(rt.stderr(), "streamrun-merge: out of memory");
            3
        }
    })
}

/// Why the program ends before it runs.
#[derive(Drop)]
enum Ending {
    /// All was said, and this is the exit status.
    Said(u8),
    NoMemory,
}

impl From<AllocError> for Ending {
    fn from(_: AllocError) -> Ending {
        Ending::NoMemory
    }
}

impl<T: Drop> From<AllocFailed<T>> for Ending {
    fn from(_: AllocFailed<T>) -> Ending {
        Ending::NoMemory
    }
}

/// Reads the words of the command line, and merges what they name.
fn read_command_line(rt: &HostRuntime) -> Result<u8, Ending> {
    let given: Vec<String> = match env::args(rt) {
        Ok(given) => given.collect(rt.alloc())?,
        Err(error) if error.kind() == ErrorKind::OutOfMemory => return Err(Ending::NoMemory),
        Err(_) => {
            let _ = writeln!(rt.stderr(), "streamrun-merge: an argument is no text");
            return Err(Ending::Said(REFUSED));
        }
    };
    let words: Vec<&str> = given.iter().map(|word| word.as_str()).collect(rt.alloc())?;
    match read_arguments(rt.alloc(), &words) {
        Ok(arguments) => merged(rt, &arguments),
        Err(error) if error.kind() == ArgumentErrorKind::OutOfMemory => Err(Ending::NoMemory),
        Err(refused) => {
            let _ = refused.print(rt);
            let status = if refused.exit_code() == 0 { 0 } else { REFUSED };
            Err(Ending::Said(status))
        }
    }
}

/// Opens the files, the job file first, and runs; answers the exit status.
fn merged(rt: &HostRuntime, arguments: &MergeArguments<'_>) -> Result<u8, Ending> {
    let rows = rows_of(rt, arguments)?;
    let mut jobs = opened(rt, arguments.jobs)?;
    let mut parts = Vec::new(rt.alloc());
    for (path, rows) in arguments.reports.iter().zip(&rows) {
        parts.push(PartFile {
            rows: *rows,
            file: opened(rt, path)?,
        })?;
    }
    let asked = MergeAsked {
        form: arguments.form,
        language: arguments.language,
        jobs: arguments.jobs,
        reports: &arguments.reports,
    };
    Ok(ended_run(
        rt.alloc(),
        &asked,
        &mut jobs,
        &mut parts,
        &mut CountedOut::new(rt.stdout()),
        &mut rt.stderr(),
    ))
}

/// How many rows each report's part has, if each report has a number.
fn rows_of(rt: &HostRuntime, arguments: &MergeArguments<'_>) -> Result<Vec<u64>, Ending> {
    let mut rows = Vec::new(rt.alloc());
    for number in arguments.rows.split(',') {
        match number.parse::<u64>() {
            Ok(number) => rows.push(number)?,
            Err(_) => {
                let _ = writeln!(rt.stderr(), "streamrun-merge: --rows: no number: {number}");
                return Err(Ending::Said(REFUSED));
            }
        }
    }
    if let Some(path) = arguments.reports.get(rows.len()) {
        let _ = writeln!(rt.stderr(), "streamrun-merge: {path}: no number of rows");
        return Err(Ending::Said(1));
    }
    if arguments.reports.len() < rows.len() {
        let _ = writeln!(
            rt.stderr(),
            "streamrun-merge: more numbers of rows than reports"
        );
        return Err(Ending::Said(1));
    }
    Ok(rows)
}

/// The open file at this path, with its length as the likely size if the system says it.
fn opened(rt: &HostRuntime, path: &str) -> Result<Counted<File>, Ending> {
    let file = match fs::open(rt, path) {
        Ok(file) => file,
        Err(error) if error.kind() == ErrorKind::OutOfMemory => return Err(Ending::NoMemory),
        Err(error) => {
            let _ = writeln!(rt.stderr(), "streamrun-merge: cannot open {path}: {error}");
            return Err(Ending::Said(NOT_OPENED));
        }
    };
    let size = file.metadata().map_or(0, |metadata| metadata.len());
    Ok(Counted::with_likely_size(file, usize::try_from(size).unwrap_or(0)))
}
