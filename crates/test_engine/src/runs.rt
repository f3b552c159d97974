//! Runs of `engine` over readers and writers that give or take little, or fail.

use crate::writers::Tight;
use columns::ColumnFault;
use counted_io::{Counted, CountedOut};
use engine::{EngineFault, RunGate, run};
use run_settings::{Form, Settings};
use std::io;
use std::io::{ErrorKind, Read};
use std::sync::Wait;
use std::thread::Threads;
use worker_pool::Gate;

const JOBS: &[u8] = b"s = of(3, 0, -5).sum()\n";

const TABLE: &[u8] = b"a\n1\n";

const REPORT: &[u8] = b"s = -2\n";

/// A reader that gives one byte per call, and fails at one of its calls.
#[derive(Drop)]
struct Grudging<'a> {
    left: &'a [u8],
    fails_in: usize,
}

impl Read for Grudging<'_> {
    fn read(&mut self, buf: &mut [u8]) -> io::Result<usize> {
        if self.fails_in == 0 {
            return Err(io::Error::from(ErrorKind::Other));
        }
        self.fails_in -= 1;
        if self.left.is_empty() || buf.is_empty() {
            return Ok(0);
        }
        buf[0] = self.left[0];
        self.left = &self.left[1..];
        Ok(1)
    }
}

/// A gate that lets every piece of a job pass.
#[derive(Drop)]
struct OpenGate;

impl Gate for OpenGate {
    fn at_leaf(&self, _job: usize, _from: u64, _to: u64) {}
}

impl RunGate for OpenGate {}

/// Runs `JOBS` over `TABLE` from two readers, which both fail at this call, into a writer with room for this many
/// bytes: the answer, and what the writer holds.
fn run_from<H: AllocGlobal + Threads + Wait + Sync>(
    rt: &H,
    columns_fail_in: usize,
    jobs_fail_in: usize,
    room: usize,
) -> (Result<(), EngineFault>, Vec<u8>) {
    let mut columns = Counted::new(Grudging {
        left: TABLE,
        fails_in: columns_fail_in,
    });
    let mut jobs = Counted::new(Grudging {
        left: JOBS,
        fails_in: jobs_fail_in,
    });
    let mut writer = CountedOut::new(Tight::new(rt.alloc(), 1, room, 0));
    let answer = match Settings::of(4, 1_024, 4_096, Form::Text) {
        Some(settings) => run(
            rt,
            rt.alloc(),
            Some(&mut columns),
            &mut jobs,
            &mut writer,
            &settings,
            &OpenGate,
        ),
        None => Err(EngineFault::NoMemory),
    };
    (answer, writer.into_inner().held)
}

/// What a run of `run_from` has to answer, and how many bytes of the report it has to write.
fn wanted(
    columns_fail_in: usize,
    jobs_fail_in: usize,
    room: usize,
) -> (Result<(), EngineFault>, usize) {
    if columns_fail_in <= TABLE.len() {
        (Err(EngineFault::Columns(ColumnFault::Read)), 0)
    } else if jobs_fail_in <= JOBS.len() {
        (Err(EngineFault::JobsRead), 0)
    } else if room < REPORT.len() {
        let written = room as u64;
        (Err(EngineFault::Write { written }), room)
    } else {
        (Ok(()), REPORT.len())
    }
}

#[test]
fn a_run_reports_the_call_that_fails_and_writes_just_the_first_bytes(rt: HostRuntime) {
    for place in 0..JOBS.len() + 2 {
        for (columns_fail_in, jobs_fail_in, room) in [
            (place, 0, 0),
            (99, place, 99),
            (99, 99, place),
        ] {
            let (answer, held) = run_from(&rt, columns_fail_in, jobs_fail_in, room);
            let (expected, bytes) = wanted(columns_fail_in, jobs_fail_in, room);
            assert!(rt;
                answer == expected && held.len() == bytes && REPORT.starts_with(&held),
                "{columns_fail_in} {jobs_fail_in} {room}"
            );
        }
    }
}
