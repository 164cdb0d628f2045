// Tests of replays over slow and failing streams, of rare exits, and of a workload's readers.
ghost use Rattle.std.specs.Prelude.{◌<◌};

use nsc_base::NoMemory;
use nsc_model::Conf;
use nsc_outside::{MemSink, MemSource};
use nsc_run::{Exit, replay, workload};
use std::alloc::Global;
use std::test::Fail;

// A user, a lookup of her and one of nobody, and the end; and the two replies.
const FRAMES: &[u8] =
    b"F\x01\x01\x0c\0\0\0ann:x:1:2:::Q\x10\0\0\0\x02\0\0\0\0\0\0\0\x04\0\0\0ann\0Q\x0e\0\0\0\x02\0\0\0\0\0\0\0\x02\0\0\0x\0E";

const REPLIES: &[u8] =
    b"\x2d\0\0\0\x02\0\0\0\x01\0\0\0\x04\0\0\0\x02\0\0\0\x01\0\0\0\x02\0\0\0\x01\0\0\0\x01\0\0\0\x01\0\0\0ann\0x\0\0\0\0\x24\0\0\0\x02\0\0\0\0\0\0\0\0\0\0\0\0\0\0\0\xff\xff\xff\xff\xff\xff\xff\xff\0\0\0\0\0\0\0\0\0\0\0\0";

// The length of the first reply with the length before it.
const FIRST: usize = 49;

// The frames as an input that gives at most this many bytes a call, and fails at a call.
fn input(alloc: Global, step: usize, failing: u64) -> Result<MemSource, NoMemory>
    requires { 0 < step }
{
    let source = MemSource::new(Vec::from_slice(alloc, FRAMES)?).with_step(step);
    Ok(source.failing_at(Vec::from_slice(alloc, &[failing])?))
}

// An output that takes at most this many bytes a call, and fails at a call.
fn output(alloc: Global, step: usize, failing: u64) -> Result<MemSink, NoMemory>
    requires { 0 < step }
{
    let sink = MemSink::new(alloc, 200)?.with_step(step);
    Ok(sink.failing_at(Vec::from_slice(alloc, &[failing])?))
}

// The exit of a replay over streams of one byte a call that fail at these calls, 0 being none, and what was written.
fn replayed(rt: &HostRuntime, read: u64, write: u64) -> Result<(Exit, MemSink), NoMemory> {
    let mut source = input(rt.alloc(), 1, read)?;
    let mut sink = output(rt.alloc(), 1, write)?;
    let exit = replay(rt, &Conf::defaults(), &mut source, &mut sink);
    Ok((exit, sink))
}

// Whether such a replay ends so, with these bytes written.
fn ends_so(rt: &HostRuntime, read: u64, write: u64, exit: Exit, written: &[u8]) -> bool {
    match replayed(rt, read, write) {
        Ok((ended, sink)) => ended == exit && sink.taken() == written,
        Err(_) => false,
    }
}

#[test]
fn slow_streams(rt: HostRuntime) -> Result<(), Fail> {
    assert!(rt; ends_so(&rt, 0, 0, Exit::Ok, REPLIES));
    Ok(())
}

// Whichever read fails, the replies of the whole frames before it are out.
#[test]
fn failing_reads(rt: HostRuntime) -> Result<(), Fail> {
    for call in 1..61 {
        let written = match call {
            ..41 => 0,
            41..60 => FIRST,
            60.. => REPLIES.len(),
        };
        assert!(rt;
            ends_so(&rt, call, 0, Exit::ReadFault, &REPLIES[..written]),
            "at call {call}"
        );
    }
    Ok(())
}

// Whichever write fails, the bytes before it are out.
#[test]
fn failing_writes(rt: HostRuntime) -> Result<(), Fail> {
    for call in 1..=REPLIES.len() {
        let written = &REPLIES[..call - 1];
        assert!(rt;
            ends_so(&rt, 0, call as u64, Exit::WriteFault, written),
            "at call {call}"
        );
    }
    Ok(())
}

// The exits with which no run of the program ends.
#[test]
fn rare_exits(rt: HostRuntime) -> Result<(), Fail> {
    let spent = Exit::Spent { count: 1 << 62 };
    assert_eq!(rt; (spent.status(), Exit::NoMemory.status()), (9, 10));
    let text = spent.text(rt.alloc())?;
    assert_eq!(rt; text.as_slice(), b"nscd: counter spent\n".as_slice());
    let text = Exit::NoMemory.text(rt.alloc())?;
    assert_eq!(rt; text.as_slice(), b"nscd: no memory\n".as_slice());
    let text = Exit::BadReply.text(rt.alloc())?;
    assert_eq!(rt; (Exit::NetFault.status(), Exit::BadReply.status()), (8, 12));
    assert_eq!(rt;
        text.as_slice(),
        b"nscd: bad reply from server\n".as_slice()
    );
    Ok(())
}

// What is found in place differs nowhere from what is looked up, by any number of workers.
#[test]
fn readers_of_a_workload(rt: HostRuntime) -> Result<(), Fail> {
    for workers in [1, 2, 8] {
        let mut sink = MemSink::new(rt.alloc(), 200)?;
        let worked = workload(&rt, 7, workers, &mut sink);
        assert_eq!(rt; (worked.exit, worked.differing), (Exit::Ok, 0));
        assert!(rt;
            sink.taken()
                .starts_with(b"found 224\nnot found 224\nsha256 ")
        );
    }
    Ok(())
}
