//! Ports in memory that give or take a few bytes a call, with calls that fail.
use ports::{Failed, FailingSink, FailingSource, Sink, Source};
use std::test::Fail;

#[test]
fn a_failing_source_loses_nothing_at_its_failures(rt: HostRuntime) -> Result<(), Fail> {
    let fails = [1, 2].to_vec(rt.alloc())?;
    let mut source = FailingSource::new(b"abcde".to_vec(rt.alloc())?, 2, fails);
    let mut buf = [0; 4];
    for &(count, front) in &[
        (Ok(2), b"ab\0\0"),
        (Err(Failed), b"ab\0\0"),
        (Err(Failed), b"ab\0\0"),
        (Ok(2), b"cd\0\0"),
        (Ok(1), b"ed\0\0"),
        (Ok(0), b"ed\0\0"),
    ] {
        let found = source.read(&mut buf);
        assert_eq!(rt; (found, buf), (count, *front));
    }
    Ok(())
}

// A full sink takes nothing, which is no failure if the piece is empty.
#[test]
fn a_failing_sink_loses_nothing_at_its_failures(rt: HostRuntime) -> Result<(), Fail> {
    let fails = [0, 2].to_vec(rt.alloc())?;
    let mut sink = FailingSink::new(rt.alloc(), 5, 2, fails)
        .ok()
        .ok_or("memory")?;
    for &(piece, count, taken) in &[
        ("abc", Err(Failed), ""),
        ("abc", Ok(2), "ab"),
        ("abc", Err(Failed), "ab"),
        ("abc", Ok(2), "abab"),
        ("abc", Ok(1), "ababa"),
        ("abc", Err(Failed), "ababa"),
        ("", Ok(0), "ababa"),
    ] {
        let found = sink.write(piece.as_bytes());
        let has_taken = sink.taken() == taken.as_bytes();
        assert_eq!(rt; (found, has_taken), (count, true));
    }
    Ok(())
}
