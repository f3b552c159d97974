//! The command line.

use clap::{Arg, ArgAction, ArgMatches, Command, Error, value_parser};
use run_settings::{Form, Language};
use std::alloc::{AllocError, Global};

/// What the command line asks for.
#[derive(Drop)]
pub struct MergeArguments<'a> {
    /// How many rows each part has, with commas between them.
    pub rows: &'a str,
    /// The path of the job file.
    pub jobs: &'a str,
    /// The paths of the reports, in the order of the parts.
    pub reports: Vec<&'a str>,
    pub form: Form,
    /// The newest version of job files that is read.
    pub language: Language,
}

/// Reads the words of a command line, the program's name first. A request for help is an `Err` too,
/// with an `exit_code` of 0.
pub fn read_arguments<'a>(
    alloc: Global,
    words: &'a [&'a str],
) -> Result<MergeArguments<'a>, Error> {
    let matches = command_of(alloc)?.try_get_matches_from(words)?;
    Ok(arguments_of(alloc, &matches)?)
}

/// What the help says first: the version, as the file VERSION has it, and what the program does.
const VERSION_AND_PURPOSE: &str =
    "streamrun-merge 1.0.0: writes the report of a table, of the reports of its parts";

/// What --version says after the name: the version, and whether the program is proved.
const VERSION: &str = "1.0.0, proved";

/// What the help says below the options.
const EXAMPLE_AND_STATUSES: &str =
    r#"Each REPORT is what streamrun --json wrote of JOBS over a part of the table, in the
order of the parts:
  streamrun-merge --rows 2,3,1 JOBS part-1.json part-2.json part-3.json

Exit status:
  0  the report was written; faults of jobs are answers
  1  a job can't be merged, or a file is no report of these jobs
  2  the command line is refused
  3  out of memory
  4  a file can't be opened, read or written"#;

/// The command with its files and its options.
fn command_of<'a>(alloc: Global) -> Result<Command<'a>, AllocError> {
    let rows = Arg::new(alloc, "rows")
        .long("rows")
        .value_name("N,N,..")
        .help("How many rows each part has, the header aside")
        .required(true)
        .action(ArgAction::Set);
    let json = Arg::new(alloc, "json")
        .long("json")
        .help("Write the report as JSON")
        .action(ArgAction::SetTrue);
    let language = Arg::new(alloc, "language")
        .long("language")
        .value_name("2 to 3")
        .help("The newest version of job files that is read")
        .default_value("2")
        .action(ArgAction::Set)
        .value_parser(value_parser!(u64).range(2..=3));
    let jobs = Arg::new(alloc, "JOBS")
        .help("The file of jobs that each part ran")
        .required(true)
        .action(ArgAction::Set);
    let reports = Arg::new(alloc, "REPORT")
        .help("The report of a part, as JSON")
        .required(true)
        .action(ArgAction::Append);
    Command::new(alloc, "streamrun-merge")
        .about(VERSION_AND_PURPOSE)
        .version(VERSION)
        .after_help(EXAMPLE_AND_STATUSES)
        .arg(jobs)?
        .arg(reports)?
        .arg(rows)?
        .arg(json)?
        .arg(language)
}

/// The arguments that were matched.
fn arguments_of<'a>(
    alloc: Global,
    matches: &ArgMatches<'a>,
) -> Result<MergeArguments<'a>, AllocError> {
    let reports = Vec::from_slice(alloc, matches.get_strs("REPORT").unwrap_or(&[]))?;
    Ok(MergeArguments {
        rows: matches.get_str("rows").unwrap_or(""),
        jobs: matches.get_str("JOBS").unwrap_or(""),
        reports,
        form: if matches.get_flag("json") {
            Form::Json
        } else {
            Form::Text
        },
        language: match matches.get_one::<u64>("language") {
            Some(3) => Language::Three,
            _ => Language::Two,
        },
    })
}
