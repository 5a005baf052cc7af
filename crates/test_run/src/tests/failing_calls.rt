//! Ports that fail: every call in its turn, and a sink that is full.
ghost use Rattle.std.specs.Prelude.{◌≤◌};

use coop::{Status, run};
use ports::{FailingSink, FailingSource};
use std::alloc::Global;
use std::test::Fail;

const BLOCKED: &str =
    r#"{"game":{"class":"table","players":3,"worths":[0,0,1,0,1,1,1]},"shares":[1,0,0]}"#;

const LINE: &str = "{\"answer\":\"blocked\",\"coalition\":[2,3],\"excess\":\"1\"}\n";

// No call has this number.
const NONE: u64 = u64::MAX;

// The status of a run, and how many bytes of the line were taken, if they are its first. The source gives `give` bytes
// a call and fails at the call `read`. The sink has room for `room` bytes, takes `take` a call and fails at the call
// `write`.
fn with_faults(
    alloc: Global,
    give: usize,
    read: u64,
    room: usize,
    take: usize,
    write: u64,
) -> Result<(Status, Option<usize>), Fail>
    requires gives { 1 ≤ give }
    requires takes { 1 ≤ take }
{
    let words = [String::from_str(alloc, "propose")?];
    let input = BLOCKED.as_bytes().to_vec(alloc)?;
    let mut source = FailingSource::new(input, give, [read].to_vec(alloc)?);
    let mut sink = FailingSink::new(alloc, room, take, [write].to_vec(alloc)?)
        .ok()
        .ok_or("memory")?;
    let status = run(alloc, &words, &mut source, &mut sink);
    let taken = sink.taken();
    let is_front = LINE.as_bytes().starts_with(taken);
    Ok((status, is_front.then_some(taken.len())))
}

#[test]
fn every_read_may_fail_and_reads_of_any_size_say_the_same(rt: HostRuntime) -> Result<(), Fail> {
    let failed = (Status::ReadFault, Some(0));
    let answered = (Status::Negative, Some(LINE.len()));
    for call in 0..BLOCKED.len() as u64 + 1 {
        let found = with_faults(rt.alloc(), 1, call, 100, 100, NONE)?;
        assert_eq!(rt; found, failed, "read {call} of one byte");
    }
    for call in 0..(BLOCKED.len() as u64 + 6) / 7 + 1 {
        let found = with_faults(rt.alloc(), 7, call, 100, 100, NONE)?;
        assert_eq!(rt; found, failed, "read {call} of seven bytes");
    }
    let by_ones = with_faults(rt.alloc(), 1, NONE, 100, 100, NONE)?;
    let by_sevens = with_faults(rt.alloc(), 7, NONE, 100, 100, NONE)?;
    assert_eq!(rt; (by_ones, by_sevens), (answered, answered));
    Ok(())
}

#[test]
fn every_write_may_fail_and_a_full_sink_has_a_front_of_the_line(
    rt: HostRuntime,
) -> Result<(), Fail> {
    for call in 0..52 {
        let found = with_faults(rt.alloc(), 100, NONE, 100, 1, call)?;
        assert_eq!(rt;
            found,
            (Status::WriteFault, Some(call as usize)),
            "write {call}"
        );
    }
    let whole = with_faults(rt.alloc(), 100, NONE, 100, 1, 52)?;
    assert_eq!(rt; whole, (Status::Negative, Some(52)));
    let full = with_faults(rt.alloc(), 100, NONE, 10, 100, NONE)?;
    assert_eq!(rt; full, (Status::WriteFault, Some(10)));
    Ok(())
}
