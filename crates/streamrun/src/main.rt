//! `streamrun [OPTIONS] JOBS`: runs the jobs of a file over 64-bit integers and over the columns of another
//! file, and writes a report with one answer per job.
//!
//! Stands on `engine`, whose `run` is the whole work, on `counted_io` for readers and writers that
//! count their failures, and on `clap` for the command line. What it promises is the contract of
//! `engine::run`, which this program calls on the two files and on standard output: `ended_run` says that the exit
//! status is the one of this run; with `--fail` it may be another one. Begin with `engine/specs/Run.antt`; here there
//! is only the command line, the opening of the files, the exit status, and lines on standard error: how far a long
//! run is on a terminal, and what to write instead of a command line that can't be meant so.
//! Not promised: that a file can be read or written, or that memory is there; the line on standard
//! error says which it was.
//!
//! Tested: runs of the programs in `tests`.
#![tactic(auto)]

ghost use Rattle.std.specs.Prelude.{◌≡◌, ◌==◌, ◌&&◌, if◌then◌else◌};

mod advice;
mod command_line;
mod ending;
mod progress;
mod table_options;

use advice::{
    advice_on, are_both_standard_input, doubt_about, doubt_about_name, option_elsewhere, path_of,
};
use clap::error::ErrorKind as ArgumentErrorKind;
use command_line::{Arguments, read_arguments};
use counted_io::{Counted, CountedOut, CountedRead};
use ending::ended_run;
use engine::{EngineFault, tell};
use progress::Progress;
use run_settings::Settings;
use std::alloc::AllocError;
use std::fs::File;
use std::io::{ErrorKind, Write};
use std::process::ExitCode;
use std::sync::Wait;
use std::thread::Threads;
use std::{env, fs, thread};

/// The exit status if the command line is refused.
const REFUSED: u8 = 2;

/// The exit status if a file can't be opened, read or written.
const FILE_FAILED: u8 = 4;

/// The exit status of a run that wrote its report.
const WRITTEN: u8 = 0;

/// The exit status if the job file or the column file is refused.
const FILE_REFUSED: u8 = 1;

/// The exit status if jobs without a value are asked for, and one is in the report.
const WITHOUT_VALUE: u8 = 5;

fn main(rt: HostRuntime) -> ExitCode {
    ExitCode::from(match read_command_line(&rt) {
        Ok(Asked::Run(given)) => watched_run(&rt, &rt, given),
        Ok(Asked::End(status)) => status,
        Err(_) => tell(&EngineFault::NoMemory, &mut rt.stderr()),
    })
}

/// What a run is given: open files, and its settings.
#[derive(Drop)]
struct GivenFiles {
    columns: Option<Counted<File>>,
    jobs: Counted<File>,
    names: FileNames,
    settings: Settings,
    /// Whether a job without a value changes the exit status.
    fails: bool,
    /// What to say if one of the files is refused, by their names.
    doubt: Option<&'static str>,
}

/// The names of the files of a run, empty for a file that isn't there.
#[derive(Drop)]
struct FileNames {
    columns: String,
    jobs: String,
}

/// What a command line asks for.
#[derive(Drop)]
enum Asked {
    Run(GivenFiles),
    /// Nothing more: all was said, and this is the exit status.
    End(u8),
}

/// Reads the words of the command line, and opens the files that they name.
fn read_command_line(rt: &HostRuntime) -> Result<Asked, AllocError> {
    let given: Vec<String> = match env::args(rt) {
        Ok(given) => given.collect(rt.alloc())?,
        Err(error) if error.kind() == ErrorKind::OutOfMemory => return Err(AllocError),
        Err(_) => {
            let _ = writeln!(rt.stderr(), "streamrun: an argument is no text");
            return Ok(Asked::End(REFUSED));
        }
    };
    read_words(rt, &given)
}

/// Reads the words after the name of the program, and opens the files that they name.
fn read_words(rt: &HostRuntime, given: &[String]) -> Result<Asked, AllocError> {
    let words: Vec<&str> = given.iter().map(|word| word.as_str()).collect(rt.alloc())?;
    match read_arguments(rt.alloc(), &words) {
        Ok(arguments) => opened_by(rt, &arguments),
        Err(error) if error.kind() == ArgumentErrorKind::OutOfMemory => Err(AllocError),
        Err(answer) if answer.exit_code() == 0 => {
            let _ = answer.print(rt);
            Ok(Asked::End(0))
        }
        Err(refused) => {
            let elsewhere = option_elsewhere(&words);
            if elsewhere.is_none() {
                let _ = refused.print(rt);
            }
            say(rt, elsewhere.or(advice_on(&words)));
            Ok(Asked::End(REFUSED))
        }
    }
}

/// Says something on standard error, if there is something to say.
fn say(rt: &HostRuntime, line: Option<&str>) {
    if let Some(line) = line {
        let _ = writeln!(rt.stderr(), "streamrun: {line}");
    }
}

/// Opens the files of a command line. Both are open before one is read, the columns first.
fn opened_by(rt: &HostRuntime, arguments: &Arguments<'_>) -> Result<Asked, AllocError> {
    let Some(settings) = arguments.settings else {
        say(rt, Some("a setting is outside its limits"));
        return Ok(Asked::End(REFUSED));
    };
    if are_both_standard_input(arguments.columns, arguments.jobs) {
        say(rt, Some("standard input can't be both files"));
        return Ok(Asked::End(REFUSED));
    }
    let columns = match arguments.columns {
        Some(name) => match opened(rt, name, "columns")? {
            Some(file) => Some(counted(file)),
            None => return Ok(Asked::End(FILE_FAILED)),
        },
        None => None,
    };
    match opened(rt, arguments.jobs, "jobs")? {
        Some(jobs) => Ok(Asked::Run(GivenFiles {
            columns,
            jobs: counted(jobs),
            names: FileNames {
                columns: String::from_str(rt.alloc(), arguments.columns.unwrap_or(""))?,
                jobs: String::from_str(rt.alloc(), arguments.jobs)?,
            },
            settings,
            fails: arguments.fails,
            doubt: doubt_about(arguments.columns, arguments.jobs),
        })),
        None => {
            say(rt, doubt_about_name(arguments.jobs));
            Ok(Asked::End(FILE_FAILED))
        }
    }
}

/// The open file of this name, or none after a line that says which file can't be opened, and one that says why.
fn opened(rt: &HostRuntime, name: &str, which: &str) -> Result<Option<File>, AllocError> {
    match fs::open(rt, path_of(name)) {
        Ok(file) => Ok(Some(file)),
        Err(error) if error.kind() == ErrorKind::OutOfMemory => Err(AllocError),
        Err(error) => {
            let _ = writeln!(rt.stderr(), "streamrun: cannot open {which}");
            let _ = writeln!(rt.stderr(), "streamrun: {name}: {error}");
            Ok(None)
        }
    }
}

/// The file, with its length as the likely size if the system says it: then it is read without moving its bytes.
fn counted(file: File) -> Counted<File> {
    let size = file.metadata().map_or(0, |metadata| metadata.len());
    Counted::with_likely_size(file, usize::try_from(size).unwrap_or(0))
}

/// Runs the jobs of an open file over the columns of another one, and answers the exit status. If standard error is a
/// terminal, a line there says how far a long run is, on a thread of its own; without that thread there is no line.
///
/// `rt` opens files. `threads` is the same handle, generic: the prover proves callees again for each concrete handle
/// type, which takes minutes, and `main` alone may name its type. So `main` calls this function directly.
fn watched_run<H: Threads + Wait + Sync>(rt: &HostRuntime, threads: &H, given: GivenFiles) -> u8 {
    let progress = Progress::new(rt, threads);
    let progress = &progress;
    thread::scope(thread::scope_env(), threads, move |scope| -> u8 {
        if progress.is_counted() {
            let _ = scope.spawn(move || progress.keep_shown());
        }
        let GivenFiles {
            mut columns,
            mut jobs,
            names,
            settings,
            fails,
            doubt,
        } = given;
        let mut writer = CountedOut::new(rt.stdout());
        let status = ended_run(
            columns.as_mut(),
            &mut jobs,
            &mut writer,
            &settings,
            progress,
        );
        if status == FILE_FAILED {
            say_reason(rt, &names.columns, columns.as_mut());
            say_reason(rt, &names.jobs, Some(&mut jobs));
        }
        say(rt, remark(status, progress.has_jobs(), doubt));
        status_with(status, fails && progress.lacks_value())
    })
}

/// Says why the file of this name can't be read, if a read of it failed and the next one fails too.
fn say_reason(rt: &HostRuntime, name: &str, file: Option<&mut Counted<File>>) {
    if let Some(file) = file {
        if file.failures() > 0 {
            if let Err(error) = file.read_some(&mut [0]) {
                if error.kind() != ErrorKind::Interrupted {
                    let _ = writeln!(rt.stderr(), "streamrun: {name}: {error}");
                }
            }
        }
    }
}

/// What to say beside the report or the refusal of a run that ended with this status.
fn remark(status: u8, has_jobs: bool, doubt: Option<&'static str>) -> Option<&'static str> {
    match status {
        WRITTEN if !has_jobs => Some("the job file has no job"),
        FILE_REFUSED => doubt,
        _ => None,
    }
}

/// The exit status of a run that ended with this status, if jobs without a value are asked for and one is in the
/// report.
fn status_with(status: u8, lacks_value: bool) -> u8
    ensures { result ≡ if (status == 0) && lacks_value then 5 else status }
{
    if status == WRITTEN && lacks_value {
        WITHOUT_VALUE
    } else {
        status
    }
}
