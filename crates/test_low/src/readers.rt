//! Readers that give few bytes at a time, are interrupted or fail.
use columns::{ColumnFault, Columns, read_columns};
use counted_io::{Counted, CountedRead, read_all_of};
use std::alloc::Global;
use std::io;
use std::io::{ErrorKind, Read};
use std::test::Fail;

/// Gives one byte per read, and at one of its reads an error.
#[derive(Drop)]
struct Grudging<'a> {
    bytes: &'a [u8],
    reads: usize,
    fails_at: Option<(usize, ErrorKind)>,
}

impl Read for Grudging<'_> {
    fn read(&mut self, buf: &mut [u8]) -> io::Result<usize> {
        let turn = self.reads;
        self.reads = turn.saturating_add(1);
        match self.fails_at {
            Some((at, kind)) if at == turn => return Err(io::Error::from(kind)),
            _ => {}
        }
        match (self.bytes.split_first(), buf.first_mut()) {
            (Some((byte, rest)), Some(place)) => {
                *place = *byte;
                self.bytes = rest;
                Ok(1)
            }
            _ => Ok(0),
        }
    }
}

const FILE: &[u8; 21] = b"\xef\xbb\xbfa,b\r\n1,-20\r\n\r\n3,4\n";

fn failing_at(fails_at: Option<(usize, ErrorKind)>) -> Counted<Grudging<'static>> {
    Counted::new(Grudging {
        bytes: FILE,
        reads: 0,
        fails_at,
    })
}

/// Whether these are the columns of the file.
fn is_file(columns: &Columns) -> bool {
    columns.get(b"a") == Some([1, 3].as_slice()) && columns.get(b"b") == Some([-20, 4].as_slice())
}

fn gives_the_file(alloc: Global, reader: &mut Counted<Grudging<'static>>) -> bool {
    read_columns(alloc, reader).is_ok_and(|columns| is_file(&columns))
}

#[test]
fn an_interrupted_read_is_made_again_and_counts(rt: HostRuntime) {
    for at in 0..=FILE.len() {
        let mut reader = failing_at(Some((at, ErrorKind::Interrupted)));
        assert!(rt;
            gives_the_file(rt.alloc(), &mut reader) && reader.failures() == 1,
            "read {at}"
        );
    }
}

#[test]
fn a_failed_read_is_reported_wherever_it_comes(rt: HostRuntime) {
    for at in 0..=FILE.len() {
        let mut reader = failing_at(Some((at, ErrorKind::BrokenPipe)));
        let found = read_columns(rt.alloc(), &mut reader).err();
        assert!(rt;
            found == Some(ColumnFault::Read) && reader.failures() == 1,
            "read {at}"
        );
        assert!(rt; reader.into_inner().reads == at + 1, "read {at}");
    }
}

#[test]
fn all_that_a_reader_has_left_is_read(rt: HostRuntime) -> Result<(), Fail> {
    let long = vec![in rt.alloc(); b'x'; 700_000]?;
    let mut reader = Counted::new(long.as_slice());
    assert!(rt; reader.read_some(&mut [0u8; 3])? == 3);
    let rest = read_all_of(rt.alloc(), &mut reader)?;
    assert!(rt; rest.len() == 699_997 && rest.iter().all(|byte| *byte == b'x'));
    Ok(())
}

#[test]
fn faults_are_numbered_from_1_on(rt: HostRuntime) {
    let faults = [
        ColumnFault::NoHeader,
        ColumnFault::SameName,
        ColumnFault::BadNumber { row: 12, column: 3 },
        ColumnFault::RowLength { row: 4 },
        ColumnFault::TooManyColumns,
        ColumnFault::Read,
        ColumnFault::NoMemory,
    ];
    assert!(rt; faults.iter().map(|fault| fault.number()).eq(1..8));
}
