use command::log::{Answer, LogRecord, Values};
use command::malformed::Malformed;
use command::refusal::Refusal;
use element::head::Head;
use element::level::Level;
use logfile::binary::add_record;
use report::row::Row;
use solo::left::is_left;
use solo::logs::{refused, same};
use std::alloc::Global;
use std::marker::PhantomData;
use std::process::Abort;
use std::test::Fail;

// Checks the row of an answer at place 12 of part 3, as levels.
fn row(rt: &impl Abort, heap: Global, kind: u8, answer: Answer, told: &str) -> Result<(), Fail> {
    let record = LogRecord::new(12, 3, kind, answer);
    let row = Row::<Level> {
        logged: &record,
        kind: PhantomData,
    };
    let shown = format!(in heap; "{row}")?;
    assert!(rt; shown.as_str() == told, "{}", told);
    Ok(())
}

#[test]
fn levels(rt: HostRuntime) -> Result<(), Fail> {
    let heap = rt.alloc();
    row(&rt, heap, 1, Ok(None), "   12     3  restore   done")?;
    let values = Ok(Some(Values {
        missed: 1,
        count: 2,
        words: [64, 0, 255, 0, 0, 0, 0, 0],
    }));
    row(
        &rt,
        heap,
        5,
        values,
        "   12     3  receive   done, missed 1: 64; 255",
    )?;
    row(
        &rt,
        heap,
        3,
        Err(Refusal::Cell(9)),
        "   12     3  instruct  refusal 12: no right to the cell (result 1)",
    )?;
    row(
        &rt,
        heap,
        9,
        Err(Refusal::Malformed(Malformed::Kind)),
        "   12     3  ?         refusal 7: no such kind (byte 3)",
    )
}

#[test]
fn heads(rt: HostRuntime) -> Result<(), Fail> {
    let answer = Ok(Some(Values {
        missed: 0,
        count: 1,
        words: [0x00020003, 0x01000005, 0, 0, 0, 0, 0, 0],
    }));
    let record = LogRecord::new(1, 0, 4, answer);
    let row = Row::<Head> {
        logged: &record,
        kind: PhantomData,
    };
    let shown = format!(in rt.alloc(); "{row}")?;
    assert!(rt; shown.as_str() == "    1     0  send      done: pan 2 tilt 3 slot 5");
    Ok(())
}

#[test]
fn bytes(rt: HostRuntime) -> Result<(), Fail> {
    let answer = Ok(Some(Values {
        missed: 7,
        count: 1,
        words: [0x04030201, 0, 0, 0, 0, 0, 0, 0x0d0c0b0a],
    }));
    let record = LogRecord::new(0x0107, 2, 5, answer);
    let mut out = Vec::new(rt.alloc());
    add_record(&mut out, &record)?;
    assert_eq!(rt; out.len(), 44);
    assert!(rt; out.as_slice()[0..16] == [7, 1, 0, 0, 2, 5, 0, 0, 7, 1, 0, 0, 1, 2, 3, 4]);
    assert!(rt; out.as_slice()[40..44] == [10, 11, 12, 13]);
    Ok(())
}

#[test]
fn left(rt: HostRuntime) {
    let mut bytes = [0; 32];
    bytes[2] = 1;
    bytes[3] = 1;
    assert!(rt; is_left(0b10, &bytes, 0));
    assert!(rt; !is_left(0b10, &bytes, 10));
    assert!(rt; !is_left(0b01, &bytes, 0));
    bytes[3] = 4;
    assert!(rt; is_left(0b10, &bytes, 11));
    assert!(rt; !is_left(0b10, &bytes[0..31], 1));
}

#[test]
fn counts(rt: HostRuntime) {
    let done = LogRecord::new(1, 0, 1, Ok(None));
    let not = LogRecord::new(2, 0, 1, Err(Refusal::Turn));
    assert_eq!(rt; refused(&[done, not, not]), 2);
    assert!(rt; same(&not, &not));
    assert!(rt; !same(&done, &not));
}
