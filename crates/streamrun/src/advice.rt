//! The names of files on the command line, and what to say of command lines that can't be meant so.

/// The name of standard input, for a file of either kind.
const STANDARD_INPUT: &str = "-";

/// The path of standard input.
const STANDARD_INPUT_PATH: &str = "/dev/stdin";

/// What to write instead of a table among the job files.
const TABLE_OPTION: &str = "a table goes after --columns";

/// What to write instead of jobs themselves.
const JOBS_FILE: &str = "jobs are read from a file, or from - (standard input)";

/// The path of the file with this name.
pub fn path_of(name: &str) -> &str {
    if name == STANDARD_INPUT {
        STANDARD_INPUT_PATH
    } else {
        name
    }
}

/// Whether both files are standard input. The second one would find nothing there.
pub fn are_both_standard_input(columns: Option<&str>, jobs: &str) -> bool {
    match columns {
        Some(columns) => {
            path_of(columns) == STANDARD_INPUT_PATH && path_of(jobs) == STANDARD_INPUT_PATH
        }
        None => false,
    }
}

/// Whether a file of this name is a table.
fn is_table(name: &str) -> bool {
    name.ends_with(".csv") || name.ends_with(".tsv")
}

/// What the names of the files say of a refusal of one of them.
pub fn doubt_about(columns: Option<&str>, jobs: &str) -> Option<&'static str> {
    match columns {
        Some(columns) if columns == jobs => Some("one file is given as table and as job file"),
        Some(columns) if columns.ends_with(".jobs") && !jobs.ends_with(".jobs") => {
            Some("the files look swapped: a table goes after --columns")
        }
        None if is_table(jobs) => Some(TABLE_OPTION),
        _ => None,
    }
}

/// What to say of the name of a job file that can't be opened, if it looks like jobs.
pub fn doubt_about_name(jobs: &str) -> Option<&'static str> {
    if jobs.contains("(") && !jobs.ends_with(".jobs") {
        Some(JOBS_FILE)
    } else {
        None
    }
}

/// What to write instead of an option that other programs have. It is said alone: options that are spelled alike here
/// mean something else.
pub fn option_elsewhere(words: &[&str]) -> Option<&'static str> {
    for word in words.iter() {
        if word.starts_with("--thread") {
            return Some("--workers says how many threads run the jobs");
        }
        if *word == "-e" {
            return Some(JOBS_FILE);
        }
    }
    None
}

/// What to write instead of words that are refused, if it can be seen from them.
pub fn advice_on(words: &[&str]) -> Option<&'static str> {
    let mut follows_option = false;
    for word in words.iter() {
        if is_table(word) && !follows_option && !word.starts_with("-") {
            return Some(TABLE_OPTION);
        }
        follows_option = *word == "--columns";
    }
    None
}
