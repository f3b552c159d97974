//! Jobs of job files on workers: their answers, and the leaves that they were walked in.
use crate::driven::settings;
use crate::gates::{Holds, Watching};
use crate::shown::{columns_of, plan_of, shown};
use crate::worked::{COLUMNS, FILES};
use job_meaning::Answer;
use job_table::{RunFault, run_jobs};
use run_settings::Settings;
use std::alloc::{AllocError, Global};
use std::sync::Wait;
use std::sync::atomic::Ordering::SeqCst;
use std::test::Fail;
use std::thread::Threads;
use tables::Columns;

/// How a job is run, and how it is walked: workers, threshold and nodes, the least and the greatest number of leaves,
/// and the greatest length of one; then the job, and its answer. With the threshold 0 the settings are adaptive.
/// With `held` the leaf at position 0 is held until another one is entered. `chain` is a file of 256 jobs. `worked` are
/// the files of worked answers: each is run as often as it has leaves, with one after the other held for 1,000 turns,
/// and the numbers are of all that were held. The answers and the numbers were worked out by hand. No clause says that
/// a piece is walked by a task of its own, that a piece after the place that decides is left out, that two workers walk
/// at once, that the longest pieces are cut first, that no exact sum without a fault is walked twice, or that there is
/// credit, or a node, for the last job of a chain.
const CASES: &str = "\
1 1000 4096 1 1 1000 => s = range(0, 1000).sum() => 499500
1 1000 4096 2 2 1000 => s = range(0, 1001).sum() => 500500
8 1000 4096 8 8 1000 => s = range(0, 4096).sum() => 8386560
1 1000 4096 4 4 4096 => s = range(0, 4096).map(x -> x).skip(96).sum() => 8382000
8 1000 4096 4 4 4096 => s = range(0, 4096).map(x -> x).skip(96).sum() => 8382000
1 1000 4096 2 2 4096 => s = range(0, 4096).map(x -> 9 / x).skip(96).sum() => fault divide-by-zero stage 1 item 0
8 1000 4096 5 5 4096 => s = range(0, 4096).filter(x -> x >= 0).skip(96).sum() => 8382000
1 1000 4096 5 12 1000 => s = range(0, 4096).filter(x -> x > 9).dropWhile(x -> x < 96).sum() => 8382000
8 1000 4096 2 9 1000 => s = range(0, 4096).filter(x -> x > 9).takeWhile(x -> x < 99).sum() => 4806
8 1000 4096 4 4 1000 => s = range(0, 4096).skip(96).sum() => 8382000
1 1000 4096 1 1 4096 => s = range(0, 4096).dropWhile(x -> x < 96).skip(3000).sum() => 3595500
1 1000 4096 4 4 4096 => s = range(0, 4096).map(x -> 9 / (x - 4050)).limit(4000).sum() => 0
8 1000 4096 1 1 4096 => s = range(0, 4096).filter(x -> x > 9).limit(4000).sum() => 8038000
8 1000 4096 4 4 1000 => s = range(0, 4096).limit(4000).sum() => 7998000
8 1000 4096 8 8 1000 => s = range(0, 4096).anyMatch(x -> x > 4000) => true
8 1000 4096 8 8 1000 => s = range(0, 4096).reduce(0, Math::addExact) => 8386560
2 1000 0 1 3 4096 => s = range(0, 4096).filter(x -> x > 9).limit(4000).sum() => 8038000
1 1 4096 1 10 1000 => g = range(0, 1000).findFirst() => OptionalLong[0]
1 1 4096 1 10 100000 => m = range(0, 100000).anyMatch(x -> x > 6) => true
1 1 4096 1 10 100000 => s = range(0, 100000).map(x -> 1 / (x - 5)).sum() => fault divide-by-zero stage 1 item 5
1 1 4096 1 10 100000 => c = range(0, 100000).map(x -> 1 / (x - 5)).sum().onFault(-1) => -1
1 1 4096 1 10 100000 => p = range(0, 100000).map(x -> 1 / (x - 5)).prefix(sum).count() \
=> fault divide-by-zero stage 1 item 5
1 1 0 1 1 4096 => s = range(0, 4096).sum() => 8386560
1 1 1 2 2 2048 => s = range(0, 4096).sum() => 8386560
1 1 3 4 4 1024 => s = range(0, 4096).sum() => 8386560
1 1 63 64 64 64 => s = range(0, 4096).sum() => 8386560
2 1 4096 2 2 1 held => s = of(1, 2).sum() => 3
4 1024 4096 1 1 8 => s = range(0, 8).flatMap(x -> range(0, 100000)).sum() => 39999600000
4 0 4096 8 8 1 => s = range(0, 8).flatMap(x -> range(0, 100000)).sum() => 39999600000
4 0 3 4 4 2 => s = range(0, 8).flatMap(x -> range(0, 100000)).sum() => 39999600000
4 0 4096 1 1 8 => s = range(0, 8).flatMap(x -> range(0, 100)).sum() => 39600
4 0 4096 32 32 32 => s = range(0, 1000).filter(x -> x > 0).flatMap(x -> range(0, x)).sum() => 166167000
4 0 4096 9 9 8 => s = range(0, 8).prefix(sum).flatMap(x -> range(0, 7 + 0 * x)).sum() => 168
1 4 4096 4096 4096 4 => chain
64 4 4096 4096 4096 4 => chain
1 1 4096 4096 4096 4 => chain
4 2 8192 8192 8192 2 => chain
4 1 1048576 16384 16384 1 => chain
2 1 255 511 511 64 => chain
2 1 3 80 400 1 => worked
64 1 0 70 400 1 => worked
64 1 1 70 400 1 => worked
64 1 2 70 400 1 => worked
64 1 3 80 400 1 => worked";

/// 256 jobs over 64 positions, with their answers. Each job names the one before it.
fn chain(alloc: Global) -> Result<String, AllocError> {
    let mut text = String::new(alloc);
    text.push_str("j0 = range(0, 64).count() => 64\n")?;
    for number in 1..256i64 {
        let before = number.wrapping_sub(1);
        let line = format!(in alloc;
            "j{number} = range(0, 64).map(x -> 1 + 0 * (x + $j{before})).sum() => 64\n"
        )?;
        text.push_str(line.as_str())?;
    }
    Ok(text)
}

/// The jobs of a table as a job file of version 2, and their answers, one on a line.
fn file_of(alloc: Global, table: &str) -> Result<(String, String), AllocError> {
    let mut file = String::new(alloc);
    let mut answers = String::new(alloc);
    file.push_str("version 2\n")?;
    for row in table.lines() {
        let (job, answer) = row.split_once(" => ").unwrap_or((row, ""));
        file.push_str(job)?;
        file.push_str("\n")?;
        answers.push_str(answer)?;
        answers.push_str("\n")?;
    }
    Ok((file, answers))
}

/// Whether these answers are those on the lines of a text.
fn are_answers(alloc: Global, wanted: &str, answers: &[Answer]) -> Result<bool, AllocError> {
    for (want, answer) in wanted.lines().zip(answers) {
        if shown(alloc, answer)?.as_str() != want {
            return Ok(false);
        }
    }
    Ok(wanted.lines().count() == answers.len())
}

/// The answers of the jobs of a file, whose leaves enter this gate.
fn run<H: Threads + Wait + Sync>(
    rt: &H,
    alloc: Global,
    file: &str,
    columns: &Columns,
    settings: Settings,
    gate: &Watching,
) -> Result<Vec<Answer>, AllocError> {
    let plan = plan_of(alloc, file.as_bytes(), columns)?;
    match run_jobs(rt, alloc, &plan, &settings, gate) {
        Ok(answers) => Ok(answers),
        Err(RunFault::NoMemory) => Err(AllocError),
    }
}

/// How many leaves of a file were held, one in each run; none if a run gives other answers.
fn held_in_turn<H: Threads + Wait + Sync>(
    rt: &H,
    alloc: Global,
    file: &str,
    wanted: &str,
    settings: Settings,
) -> Result<Option<u64>, AllocError> {
    let columns = columns_of(alloc, COLUMNS)?;
    for held in 0..400 {
        let gate = Watching::new(Holds::Number(held));
        let answers = run(rt, alloc, file, &columns, settings, &gate)?;
        if !are_answers(alloc, wanted, &answers)? {
            return Ok(None);
        }
        if !gate.let_go() {
            return Ok(Some(held));
        }
    }
    Ok(None)
}

/// How many leaves of all worked files were held, one in each run; none if a run gives other answers.
fn all_held_in_turn<H: Threads + Wait + Sync>(
    rt: &H,
    alloc: Global,
    settings: Settings,
) -> Result<Option<u64>, AllocError> {
    let mut all = 0u64;
    for file in FILES.split("--\n") {
        let (jobs, answers) = file.split_once("=>\n").unwrap_or((file, ""));
        let Some(held) = held_in_turn(rt, alloc, jobs, answers, settings)? else {
            return Ok(None);
        };
        all = all.saturating_add(held);
    }
    Ok(Some(all))
}

/// The numbers of a case, and 0 for each that it doesn't have.
fn numbers_of(case: &str) -> [u64; 6] {
    let mut numbers = [0; 6];
    for (number, word) in numbers.iter_mut().zip(case.split_whitespace()) {
        *number = word.parse::<u64>().unwrap_or(0);
    }
    numbers
}

/// Whether the leaves are as a case says.
fn are_leaves(gate: &Watching, least: u64, greatest: u64, longest: u64) -> bool {
    let leaves = gate.leaves.load(SeqCst);
    least <= leaves && leaves <= greatest && gate.longest.load(SeqCst) <= longest && gate.let_go()
}

/// Whether a case holds, in which one run of a table is watched.
fn holds<H: Threads + Wait + Sync>(
    rt: &H,
    alloc: Global,
    case: &str,
    table: &str,
) -> Result<bool, AllocError> {
    let [workers, threshold, nodes, least, greatest, longest] = numbers_of(case);
    let settings = match threshold {
        0 => settings(workers, 1024, nodes)?.adaptive(),
        given => settings(workers, given, nodes)?,
    };
    if table == "worked" {
        let held = all_held_in_turn(rt, alloc, settings)?;
        return Ok(held.is_some_and(|held| least <= held && held <= greatest));
    }
    let gate = Watching::new(if case.ends_with("held") {
        Holds::First
    } else {
        Holds::Nothing
    });
    let (file, wanted) = file_of(alloc, table)?;
    let answers = run(rt, alloc, file.as_str(), &Columns::none(), settings, &gate)?;
    Ok(
        are_answers(alloc, wanted.as_str(), &answers)?
            && are_leaves(&gate, least, greatest, longest),
    )
}

/// The first of these cases that doesn't hold.
fn first_false<'t, H: Threads + Wait + Sync>(
    rt: &H,
    alloc: Global,
    cases: &'t str,
) -> Result<Option<&'t str>, AllocError> {
    let chain = chain(alloc)?;
    for row in cases.lines() {
        let (case, table) = row.split_once(" => ").unwrap_or((row, ""));
        let table = if table == "chain" {
            chain.as_str()
        } else {
            table
        };
        if !holds(rt, alloc, case, table)? {
            return Ok(Some(row));
        }
    }
    Ok(None)
}

#[test]
fn each_leaf_is_walked_by_a_task_of_its_own_and_may_be_held(rt: HostRuntime) -> Result<(), Fail> {
    let found = first_false(&rt, rt.alloc(), CASES)?;
    assert!(rt; found.is_none(), "{found:?}");
    Ok(())
}
