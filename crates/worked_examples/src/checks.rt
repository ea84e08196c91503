//! Transforms that are refused, and the held transform that then stays: docs/RULES.md, "Checking a transform".
use crate::parts::{record, row};
use transform::{Fault, Record, Row, check, fork};

fn rows() -> [Row; 4] {
    [
        row(3, 1, 0, 0),
        row(3, 2, 0, 0),
        row(1, 0, 0, 0),
        row(3, 3, 0, 65536),
    ]
}

// Copies the input to the output and ends.
fn copy() -> Record {
    record(2, 1, 0, 0, 0, 0)
}

fn records() -> [Record; 3] {
    [Record::default(), record(2, 1, 0, 0, 0, 2), copy()]
}

// The layer, cause and place of a fault.
type Numbers = (u8, u8, usize);

fn numbers_of(fault: Fault) -> Numbers {
    (fault.layer(), fault.cause(), fault.place())
}

fn answer<'a>(rows: &'a [Row], records: &'a [Record], table: &'a [u32]) -> Result<(), Numbers> {
    check(&mut fork(), rows, records, table).map_err(numbers_of)
}

// The transform with row 1 changed.
fn with_row(row: Row) -> Result<(), Numbers> {
    let mut rows = rows();
    rows[1] = row;
    answer(&rows, &records(), &[])
}

// The transform with record 2 changed.
fn with_record(record: Record) -> Result<(), Numbers> {
    let mut records = records();
    records[2] = record;
    answer(&rows(), &records, &[])
}

// What a check answers of the built-in transform with another place for its branch on 0, and where the held one then leads for 0.
fn branching_to(place: u16) -> (Result<(), Numbers>, u16) {
    let built_in = fork();
    let mut held = built_in;
    let mut records = [Record::default(); 5];
    records.copy_from_slice(built_in.records());
    records[2].b = place;
    let checked = check(&mut held, built_in.rows(), &records, &[]).map_err(numbers_of);
    (checked, held.record_at(2).b)
}

#[test]
fn a_straying_branch_is_refused_and_the_held_transform_stays(rt: HostRuntime) {
    assert_eq!(rt; branching_to(5), (Err((2, 9, 2)), 4));
    assert_eq!(rt; branching_to(3), (Ok(()), 3));
}

#[test]
fn counts_at_their_limits(rt: HostRuntime) {
    let rows = [row(2, 0, 0, 0); 65];
    let mut records = [record(8, 0, 0, 0, 0, 0); 513];
    records[0] = Record::default();
    let table = [0u32; 4097];
    assert_eq!(rt;
        answer(&rows[0..64], &records[0..512], &table[0..4096]),
        Ok(())
    );
    assert_eq!(rt; answer(&rows, &records, &table), Err((1, 1, 0)));
    assert_eq!(rt; answer(&rows[0..0], &records[0..2], &table), Err((1, 1, 0)));
    assert_eq!(rt; answer(&rows[0..1], &records, &table), Err((2, 6, 0)));
    assert_eq!(rt; answer(&rows[0..1], &records[0..1], &table), Err((2, 6, 0)));
    assert_eq!(rt;
        answer(&rows[0..1], &records[0..2], &table),
        Err((3, 13, 0))
    );
}

#[test]
fn rows_that_break_a_rule(rt: HostRuntime) {
    assert_eq!(rt; with_row(row(3, 2, 7, 0)), Ok(()));
    assert_eq!(rt; with_row(row(0, 2, 0, 0)), Err((1, 2, 1)));
    assert_eq!(rt; with_row(row(3, 4, 0, 0)), Err((1, 2, 1)));
    assert_eq!(rt; with_row(row(3, 2, 8, 0)), Err((1, 3, 1)));
    assert_eq!(rt; with_row(row(2, 2, 0, 0)), Err((1, 3, 1)));
    assert_eq!(rt; with_row(row(3, 0, 1, 0)), Err((1, 3, 1)));
    assert_eq!(rt; with_row(row(1, 0, 0, 2)), Err((1, 4, 1)));
    assert_eq!(rt; with_row(row(3, 1, 0, 1)), Err((1, 4, 1)));
}

#[test]
fn an_out_channel_stands_once(rt: HostRuntime) {
    let mut rows = rows();
    rows[2] = row(3, 2, 0, 0);
    assert_eq!(rt; answer(&rows, &records(), &[]), Err((1, 5, 2)));
}

#[test]
fn records_that_break_a_rule(rt: HostRuntime) {
    assert_eq!(rt; with_record(copy()), Ok(()));
    assert_eq!(rt; with_record(record(16, 1, 0, 0, 0, 0)), Err((2, 8, 2)));
    assert_eq!(rt; with_record(record(2, 1, 0, 0, 0, 3)), Err((2, 9, 2)));
    assert_eq!(rt; with_record(record(2, 1, 4, 0, 0, 0)), Err((2, 10, 2)));
    assert_eq!(rt; with_record(record(2, 1, 0, 1, 0, 0)), Err((2, 10, 2)));
    assert_eq!(rt; with_record(record(2, 1, 2, 0, 0, 0)), Err((2, 11, 2)));
    assert_eq!(rt; with_record(record(1, 2, 0, 0, 2, 0)), Err((2, 11, 2)));
    assert_eq!(rt; with_record(record(2, 0, 1, 0, 0, 0)), Err((2, 12, 2)));
    assert_eq!(rt; with_record(record(2, 3, 0, 0, 0, 0)), Err((2, 12, 2)));
}

#[test]
fn record_0_is_no_step(rt: HostRuntime) {
    let mut records = records();
    records[0].next = 1;
    assert_eq!(rt; answer(&rows(), &records, &[]), Err((2, 7, 0)));
}

#[test]
fn the_first_breach_is_the_answer(rt: HostRuntime) {
    // next past the end and a register that does not exist: the lower cause first
    assert_eq!(rt; with_record(record(2, 9, 0, 0, 0, 9)), Err((2, 9, 2)));
    // a wrong type and a register that no record writes: the lower cause first
    assert_eq!(rt; with_record(record(2, 3, 2, 0, 0, 0)), Err((2, 11, 2)));
    // an earlier place before a lower cause
    let mut records = records();
    records[1] = record(2, 0, 0, 0, 0, 2);
    records[2].kind = 16;
    assert_eq!(rt; answer(&rows(), &records, &[]), Err((2, 12, 1)));
}
