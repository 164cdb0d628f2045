// Tests of streams in memory, and of a sink over a writer of the standard library.
use nsc_outside::{Failed, MemSink, MemSource, Sink, StdSink, fill, write_all};
use std::test::Fail;

// The planned call fails and moves nothing; the next one goes on.
#[test]
fn source_in_memory(rt: HostRuntime) -> Result<(), Fail> {
    let bytes = Vec::from_slice(rt.alloc(), b"abcdefg")?;
    let failing = Vec::from_slice(rt.alloc(), &[2])?;
    let mut source = MemSource::new(bytes).with_step(2).failing_at(failing);
    let mut buf = [0u8; 4];
    let is_failed = fill(&mut source, &mut buf).is_err();
    let is_filled = fill(&mut source, &mut buf) == Ok(4);
    assert!(rt; is_failed && is_filled && source.rest() == b"g".as_slice());
    Ok(())
}

// What was written before the planned call is out.
#[test]
fn sink_in_memory(rt: HostRuntime) -> Result<(), Fail> {
    let failing = Vec::from_slice(rt.alloc(), &[4])?;
    let mut sink = MemSink::new(rt.alloc(), 16)?
        .with_step(3)
        .failing_at(failing);
    let is_written = write_all(&mut sink, b"seven..").is_ok();
    let is_failed = write_all(&mut sink, b"-behind").is_err();
    assert!(rt; is_written && is_failed && sink.taken() == b"seven..".as_slice());
    Ok(())
}

// A writer with room for two bytes takes those, and then none, which is a fault.
#[test]
fn sink_of_the_library(rt: HostRuntime) {
    let mut two = [0u8; 2];
    let mut sink = StdSink::new(two.as_mut_slice());
    assert!(rt; sink.write(b"abc") == Ok(2));
    assert!(rt; sink.write(b"c") == Err(Failed));
    assert!(rt; sink.write(b"") == Ok(0));
}
