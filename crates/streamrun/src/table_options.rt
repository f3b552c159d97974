//! The options of the command line that say which column file is read, and how.

use crate::command_line::flag;
use clap::{Arg, ArgAction, ArgMatches, Command, value_parser};
use run_settings::{Separator, TableSetting};
use std::alloc::{AllocError, Global};

/// The names of separators: three signs, a word, and the tab itself or as it is written in many languages.
const SEPARATORS: [&str; 6] = [",", ";", "|", "tab", "\t", "\\t"];

fn columns_file<'a>(alloc: Global) -> Arg<'a> {
    Arg::new(alloc, "columns")
        .long("columns")
        .value_name("FILE")
        .help("A CSV file of integer columns, which jobs name")
        .action(ArgAction::Set)
}

fn separator<'a>(alloc: Global) -> Arg<'a> {
    Arg::new(alloc, "separator")
        .long("separator")
        .value_name("SIGN")
        .value_parser(SEPARATORS.as_slice())
        .hide_possible_values(true)
        .help("Sign between cells: , ; | or tab")
        .default_value(",")
        .action(ArgAction::Set)
}

fn blank<'a>(alloc: Global) -> Arg<'a> {
    Arg::new(alloc, "blank")
        .long("blank")
        .value_name("NUMBER")
        .allow_negative_numbers(true)
        .value_parser(value_parser!(i64))
        .help("Read an empty cell as this number")
        .action(ArgAction::Set)
}

/// The command with an option for the column file, and with one for each setting of how it is read.
pub fn with_table<'a>(alloc: Global, command: Command<'a>) -> Result<Command<'a>, AllocError> {
    let only_named = flag(
        alloc,
        "only-named",
        "Columns that no job names may hold anything",
    );
    command
        .arg(columns_file(alloc))?
        .arg(only_named)?
        .arg(separator(alloc))?
        .arg(blank(alloc))
}

/// The separator of this name.
fn separator_of(name: &str) -> Option<Separator> {
    match name {
        "," => Some(Separator::Comma),
        ";" => Some(Separator::Semicolon),
        "|" => Some(Separator::Bar),
        "tab" | "\t" | "\\t" => Some(Separator::Tab),
        _ => None,
    }
}

/// How the column file is read, as it was matched.
pub fn table_of(matches: &ArgMatches<'_>) -> Option<TableSetting> {
    Some(TableSetting {
        separator: separator_of(matches.get_str("separator")?)?,
        only_named: matches.get_flag("only-named"),
        blank: matches.get_one::<i64>("blank"),
    })
}
