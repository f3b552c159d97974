//! The command line.

use crate::table_options::{table_of, with_table};
use clap::parser::ValueSource;
use clap::{Arg, ArgAction, ArgMatches, Command, Error, value_parser};
use run_settings::{Form, Language, Settings};
use std::alloc::{AllocError, Global};

/// What the command line asks for.
#[derive(Drop)]
pub struct Arguments<'a> {
    /// The name of the job file.
    pub jobs: &'a str,
    /// The name of the column file, if there is one.
    pub columns: Option<&'a str>,
    /// The settings of the run; none only if a value is outside its limits.
    pub settings: Option<Settings>,
    /// Whether a job without a value changes the exit status.
    pub fails: bool,
}

/// Reads the words of a command line, the program's name first. A request for help or for the version is an `Err` too,
/// with an `exit_code` of 0.
pub fn read_arguments<'a>(alloc: Global, words: &'a [&'a str]) -> Result<Arguments<'a>, Error> {
    let matches = command_of(alloc)?.try_get_matches_from(words)?;
    Ok(arguments_of(&matches))
}

/// The arguments that were matched.
fn arguments_of<'a>(matches: &ArgMatches<'a>) -> Arguments<'a> {
    Arguments {
        jobs: matches.get_str("JOBS").unwrap_or(""),
        columns: matches.get_str("columns"),
        settings: settings_of(matches),
        fails: matches.get_flag("fail"),
    }
}

/// What the help says first: the version, as the file VERSION has it, and what the program does.
const VERSION_AND_PURPOSE: &str =
    "streamrun 1.0.0: runs pipelines over 64-bit integers, with one answer per job";

/// What `--version` says after the name of the program. A build without proofs says that it is not proved.
const VERSION: &str = "1.0.0, proved";

/// What the help says below the options.
const EXAMPLE_AND_STATUSES: &str =
    r#"Workers, threshold and nodes never change the report. This one is a = 5050:
  echo 'a = range(1, 101).sum()' | streamrun -
Exit status:
  0  the report was written; faults of jobs are answers
  1  the job file or the column file is refused
  2  the command line is refused
  3  out of memory
  4  a file can't be opened, read or written
  5  with --fail: a job has a fault or is unusable"#;

/// The program with what its help says, without files and options.
fn program<'a>(alloc: Global) -> Command<'a> {
    Command::new(alloc, "streamrun")
        .about(VERSION_AND_PURPOSE)
        .version(VERSION)
        .after_help(EXAMPLE_AND_STATUSES)
}

fn jobs_file<'a>(alloc: Global) -> Arg<'a> {
    Arg::new(alloc, "JOBS")
        .help("The file of jobs to run; - is standard input, for one of both files")
        .required(true)
        .action(ArgAction::Set)
}

/// An option for a number, with its default. The name of its value is its limits, so that each refusal that names an
/// option says them; a negative number is a value too, which is refused as one.
fn number<'a>(
    alloc: Global,
    name: &'a str,
    limits: &'a str,
    default: &'a str,
    help: &'a str,
) -> Arg<'a> {
    Arg::new(alloc, name)
        .long(name)
        .value_name(limits)
        .allow_negative_numbers(true)
        .help(help)
        .default_value(default)
        .action(ArgAction::Set)
}

/// An option without a value.
pub fn flag<'a>(alloc: Global, name: &'a str, help: &'a str) -> Arg<'a> {
    Arg::new(alloc, name)
        .long(name)
        .help(help)
        .action(ArgAction::SetTrue)
}

/// The command with its files, and with an option for each setting.
fn command_of<'a>(alloc: Global) -> Result<Command<'a>, AllocError> {
    let command = program(alloc).arg(jobs_file(alloc))?;
    let command = with_table(alloc, command)?;
    let command = with_numbers(alloc, command)?;
    command
        .arg(flag(alloc, "json", "Write the report as JSON"))?
        .arg(flag(
            alloc,
            "fail",
            "Status 5 if a job has a fault or is unusable",
        ))
}

/// The command with an option for each setting that is a number.
fn with_numbers<'a>(alloc: Global, command: Command<'a>) -> Result<Command<'a>, AllocError> {
    let workers = number(
        alloc,
        "workers",
        "1 to 64",
        "4",
        "How many threads run the jobs",
    );
    let command = command.arg(workers.value_parser(value_parser!(u64).range(1..=64)))?;
    let threshold = number(
        alloc,
        "threshold",
        "1 to 1048576",
        "1024",
        "Don't split this many items",
    );
    let command = command.arg(threshold.value_parser(value_parser!(u64).range(1..=1_048_576)))?;
    let nodes = number(
        alloc,
        "nodes",
        "0 to 1048576",
        "4096",
        "Split items at most this often",
    );
    let command = command.arg(nodes.value_parser(value_parser!(u64).range(0..=1_048_576)))?;
    let language = number(
        alloc,
        "language",
        "2 to 3",
        "2",
        "Read job files up to this version",
    );
    command.arg(language.value_parser(value_parser!(u64).range(2..=3)))
}

/// The language that was matched.
fn language_of(matches: &ArgMatches<'_>) -> Option<Language> {
    match matches.get_one::<u64>("language")? {
        3 => Some(Language::Three),
        _ => Some(Language::Two),
    }
}

/// The settings that were matched.
fn settings_of(matches: &ArgMatches<'_>) -> Option<Settings> {
    let form = if matches.get_flag("json") {
        Form::Json
    } else {
        Form::Text
    };
    let settings = Settings::of(
        matches.get_one::<u64>("workers")?,
        matches.get_one::<u64>("threshold")?,
        matches.get_one::<u64>("nodes")?,
        form,
    )?;
    let settings = match matches.value_source("threshold")? {
        ValueSource::DefaultValue => settings.adaptive(),
        ValueSource::CommandLine => settings,
    };
    let settings = settings.reading(language_of(matches)?);
    Some(settings.over(table_of(matches)?))
}
