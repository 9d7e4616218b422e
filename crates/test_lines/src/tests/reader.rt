use super::same::{same, same_for};
use batches::{BATCH_LINES, Batch, BatchReader, Fed, Request};
use std::alloc::Global;
use std::process::Abort;
use world_actions::Action;

const BATCH: &[u8] = b"set 0 5\nget 0\nmove 0 1 9\nfoo\nend\n";

const REQUESTS: [Request; 4] = [
    Request::Act(Action::Set { cell: 0, value: 5 }),
    Request::Get(0),
    Request::Act(Action::Transfer {
        from: 0,
        to: 1,
        amount: 9,
    }),
    Request::Bad,
];

// Takes the batch byte by byte.
fn take_bytes(rt: &impl Abort, reader: &mut BatchReader) {
    for (i, byte) in BATCH.iter().enumerate() {
        let last = i == BATCH.len() - 1;
        let fed = if last { Fed::Whole } else { Fed::More };
        same_for(rt, i, reader.take(&[*byte]), (1, fed));
    }
}

// Takes the batch in one piece and then byte by byte.
fn take_twice(rt: &impl Abort, reader: &mut BatchReader) {
    same(rt, reader.take(BATCH), (BATCH.len(), Fed::Whole));
    same(rt, reader.batch().requests(), REQUESTS.as_slice());
    reader.clear();
    assert!(rt; reader.batch().requests().is_empty());
    take_bytes(rt, reader);
    same(rt, reader.batch().requests(), REQUESTS.as_slice());
}

// A copy of the batch has its requests, in new memory and in that of another batch.
fn check_copy(rt: &impl Abort, alloc: Global, batch: &Batch) {
    let copy = batch.try_copy(Batch::empty(alloc)).expect(rt, "memory");
    same(rt, copy.requests(), REQUESTS.as_slice());
    let again = batch.try_copy(copy).expect(rt, "memory");
    same(rt, again.requests(), REQUESTS.as_slice());
}

#[test]
fn reads_a_batch_in_one_piece_and_byte_by_byte(rt: HostRuntime) {
    let mut reader = BatchReader::new(rt.alloc()).expect(&rt, "memory");
    take_twice(&rt, &mut reader);
    check_copy(&rt, rt.alloc(), reader.batch());
}

const THREE_LINES: &[u8] = b"get 1\nend\nget 2\nend\nget 3";

// Takes a batch from the front of an input.
fn take_batch(rt: &impl Abort, reader: &mut BatchReader, input: &[u8], cell: u32) {
    same(rt, reader.take(input), (10, Fed::Whole));
    let requests = [Request::Get(cell)];
    same(rt, reader.batch().requests(), requests.as_slice());
    reader.clear();
}

// Takes a line that has not ended, and then nothing.
fn take_line(rt: &impl Abort, reader: &mut BatchReader, input: &[u8]) {
    same(rt, reader.take(input), (5, Fed::More));
    assert!(rt;
        reader.batch().requests().is_empty(),
        "the last line has not ended"
    );
    same(rt, reader.take(b""), (0, Fed::More));
}

#[test]
fn takes_no_byte_behind_an_end(rt: HostRuntime) {
    let mut reader = BatchReader::new(rt.alloc()).expect(&rt, "memory");
    take_batch(&rt, &mut reader, THREE_LINES, 1);
    take_batch(&rt, &mut reader, &THREE_LINES[10..], 2);
    take_line(&rt, &mut reader, &THREE_LINES[20..]);
}

// Takes as many lines as a batch may have, and one more.
fn take_too_many(rt: &impl Abort, reader: &mut BatchReader) {
    for line in 0..BATCH_LINES {
        same_for(rt, line, reader.take(b"get 0\n"), (6, Fed::More));
    }
    same(rt, reader.take(b"get 0\nend\n"), (6, Fed::TooLong));
}

// Takes as many empty lines as a batch may have.
fn take_most(rt: &impl Abort, reader: &mut BatchReader) {
    for _ in 0..BATCH_LINES {
        reader.take(b"\n");
    }
    same(rt, reader.take(b"end\n"), (4, Fed::Whole));
    same(rt, reader.batch().requests().len(), BATCH_LINES);
}

#[test]
fn takes_1024_lines_and_no_more(rt: HostRuntime) {
    let mut reader = BatchReader::new(rt.alloc()).expect(&rt, "memory");
    take_too_many(&rt, &mut reader);
    reader.clear();
    take_most(&rt, &mut reader);
}

const LAST_GOOD: [Request; 4] = [Request::Bad, Request::Bad, Request::Bad, Request::Get(0)];

#[test]
fn a_long_line_means_nothing(rt: HostRuntime) {
    let mut reader = BatchReader::new(rt.alloc()).expect(&rt, "memory");
    for _ in 0..10_000 {
        reader.take(b"get 0 ");
    }
    reader.take(b"\nget 0\r\nget \xff\nget 0\n");
    same(&rt, reader.batch().requests(), LAST_GOOD.as_slice());
}
