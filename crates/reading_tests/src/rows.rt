// Files that break a rule, and files that break none.
use batch_files::FileKind::{Fields, Number, Range, TooMany, Twice};
use batch_files::{FileFault, FileKind, read_faults, read_feed, read_records};
use gp_base::{Fault, Faults, Feed, Nums, Text};
use std::alloc::{AllocError, Global};
use std::test::Fail;

// A file with its first broken row, and the first rule that this row breaks.
type Broken = (&'static [u8], FileKind, u32);

// Records of three cells.
const RECORDS: [Broken; 40] = [
    (b"0\n", Fields, 1),
    (b"0,1,2\n", Fields, 1),
    (b"0,1\n1\n", Fields, 2),
    (b"0;1\n", Fields, 1),
    (b"\"0,1\"\n", Fields, 1),
    (b"3\n", Fields, 1),
    (b"3,x,1\n", Fields, 1),
    // Blank lines are no rows, and a line with a space is one.
    (b"0,1\n\n\n1\n", Fields, 2),
    (b"\r\n0,1\r\n\r\n1\r\n", Fields, 2),
    (b"0,1\n \n", Fields, 2),
    (b"0,1\r1\r", Fields, 2),
    (b"x,0\n", Number, 1),
    (b"0,x\n", Number, 1),
    (b"0,\n", Number, 1),
    (b",0\n", Number, 1),
    (b"0,+5\n", Number, 1),
    (b"0,-\n", Number, 1),
    (b"0,--5\n", Number, 1),
    (b"0, 5\n", Number, 1),
    (b"0,5 \n", Number, 1),
    (b"0,0x5\n", Number, 1),
    (b"#0,1\n", Number, 1),
    (b"0,9223372036854775808\n", Number, 1),
    (b"0,-9223372036854775809\n", Number, 1),
    (b"0,5\xff\n", Number, 1),
    (b"0,\xd9\xa1\n", Number, 1),
    (b"\"0\n1\",2\n", Number, 1),
    (b"0,1\n\xef\xbb\xbf1,2\n", Number, 2),
    (b"\xef\xbb\xbf\xef\xbb\xbf0,1\n", Number, 1),
    (b"3,x\n", Number, 1),
    (b"3,1\n", Range, 1),
    (b"-1,1\n", Range, 1),
    (b"0,1\n1,1\n2,1\n4294967296,1\n", Range, 4),
    (b"0,1\n3,1\n0,2\n", Range, 2),
    (b"0,1\n0,1\n", Twice, 2),
    (b"0,1\n1,2\n00,3\n", Twice, 3),
    (b"0,1\n-0,2\n", Twice, 2),
    (b"\"0\",1\n\"0\",\"2\"\n", Twice, 2),
    (b"0,1\r\n0,2\r\n", Twice, 2),
    (b"0,1\n1,2\n0,3", Twice, 3),
];

// Feeds of two fields, with room for five cells.
const FEEDS: [Broken; 6] = [
    (b"1,2\n3\n", Fields, 2),
    (b"1,2\n3,x\n", Number, 2),
    (b"1,2\n3,9223372036854775808\n", Number, 2),
    (b"1,2\n3,4\n5,6\n", TooMany, 3),
    (b"1,2\n3,4\n5,x\n", Number, 3),
    (b"1,2\n3,4\n5\n", Fields, 3),
];

const FAULTS: [Broken; 12] = [
    (b"0,0,0\n", Fields, 1),
    (b"0,0,65,0,0\n", Fields, 1),
    (b"0,0,0,x\n", Number, 1),
    (b"0,0,65,x\n", Number, 1),
    (b"4,0,3,0\n", Range, 1),
    (b"0,0,65,1\n", Range, 1),
    (b"0,0,-1,1\n", Range, 1),
    (b"4294967296,0,0,1\n", Range, 1),
    (b"0,4294967296,0,1\n", Range, 1),
    (b"0,0,0,1\n0,0,65,1\n", Range, 2),
    (b"0,0,0,1\n0,1,0,1\n1,0,0,1\n0,0,5,7\n", Twice, 4),
    (b"0,0,0,1\n00,-0,5,7", Twice, 2),
];

fn is_bad<T: Drop>(answer: Result<T, FileFault>, wanted: FileKind, number: u32) -> bool {
    match answer {
        Err(FileFault::Bad { kind, row }) => kind == wanted && row == number,
        _ => false,
    }
}

fn records(alloc: Global, file: &[u8]) -> Result<Nums, FileFault> {
    read_records(alloc, &Text::from_slice(alloc, file)?, 3)
}

fn feed(alloc: Global, file: &[u8]) -> Result<Feed, FileFault> {
    read_feed(alloc, &Text::from_slice(alloc, file)?, 2, 5)
}

fn faults(alloc: Global, file: &[u8]) -> Result<Faults, FileFault> {
    read_faults(alloc, &Text::from_slice(alloc, file)?)
}

#[test]
fn names_the_first_broken_row(rt: HostRuntime) {
    let alloc = rt.alloc();
    for (file, kind, row) in &RECORDS {
        assert!(rt; is_bad(records(alloc, file), *kind, *row));
    }
    for (file, kind, row) in &FEEDS {
        assert!(rt; is_bad(feed(alloc, file), *kind, *row));
    }
    for (file, kind, row) in &FAULTS {
        assert!(rt; is_bad(faults(alloc, file), *kind, *row));
    }
}

// Whether the answer is these cells.
fn are_cells(answer: Result<Nums, FileFault>, wanted: &[i64]) -> bool {
    match answer {
        Ok(cells) => cells.as_slice() == wanted,
        Err(_) => false,
    }
}

// Whether the answer is a feed with so many fields and these cells.
fn is_feed(answer: Result<Feed, FileFault>, fields: u32, wanted: &[i64]) -> bool {
    match answer {
        Ok(feed) => feed.fields == fields && feed.cells.as_slice() == wanted,
        Err(_) => false,
    }
}

// Whether the answer is two faults, of which this is the first.
fn are_faults(answer: Result<Faults, FileFault>, first: Fault) -> bool {
    match answer {
        Ok(faults) => faults.list.len() == 2 && faults.as_slice()[0] == first,
        Err(_) => false,
    }
}

#[test]
fn reads_values(rt: HostRuntime) {
    let alloc = rt.alloc();
    let file = b"\xef\xbb\xbf2,\"-0\"\r\n\r\n0,-9223372036854775808\r\n1,09223372036854775807";
    let wanted = [-9223372036854775808, 9223372036854775807, 0];
    assert!(rt; are_cells(records(alloc, file), &wanted));
    assert!(rt; are_cells(records(alloc, b""), &[0, 0, 0]));
    assert!(rt; is_feed(feed(alloc, b"1,2\n3,-4"), 2, &[1, 2, 3, -4]));

    let file = b"4294967295,4294967295,64,-1\n0,0,0,1\n";
    let first = Fault {
        pos: 4294967295,
        attempt: 4294967295,
        delay: 64,
        mask: -1,
    };
    assert!(rt; are_faults(faults(alloc, file), first));
}

// A file of this many faults, at the positions from 0.
fn many(alloc: Global, count: u32) -> Result<String, AllocError> {
    let mut file = String::new(alloc);
    for position in 0..count {
        let row = format!(in alloc; "{position},0,0,1\n")?;
        file.push_str(row.as_str())?;
    }
    Ok(file)
}

#[test]
fn counts_faults(rt: HostRuntime) -> Result<(), Fail> {
    let alloc = rt.alloc();
    let mut file = many(alloc, 1000)?;
    assert!(rt; faults(alloc, file.as_bytes()).is_ok());
    file.push_str("5,0,0,1\n")?;
    assert!(rt; is_bad(faults(alloc, file.as_bytes()), Twice, 1001));
    let file = many(alloc, 1001)?;
    assert!(rt; is_bad(faults(alloc, file.as_bytes()), TooMany, 1001));
    Ok(())
}
