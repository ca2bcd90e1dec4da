//! Frames with the exact places of errors, and the bytes of replies.

ghost use Rattle.std.specs.Prelude.{◌<◌, ◌^◌};

use crate::{Body, EndBy, Got, Reply, Request, Sent, read_request, write_reply};
use std::alloc::Global;
use std::process::Abort;
use std::test::Fail;
use tx_bytes::{Bytes, MemSink, MemSource, Sink, Source};

/// A source of these bytes, of which the calls with these numbers fail.
fn source_of(alloc: Global, bytes: &str, failing: &[u64]) -> Result<MemSource, Fail> {
    Ok(MemSource::new(bytes.as_bytes().to_vec(alloc)?, failing.to_vec(alloc)?))
}

/// The next request of any source.
pub fn next<L: Source>(alloc: Global, from: &mut L, at: u64) -> Got
    requires { at < 2 ^ 63 }
{
    read_request(alloc, from, at)
}

/// Writes to any sink.
fn write<L: Sink>(alloc: Global, to: &mut L, reply: &Reply) -> Sent {
    write_reply(alloc, to, reply)
}

/// What is read of this input first breaks at this place, and so many bytes are then left.
fn breaks<R: Abort>(
    rt: &R,
    alloc: Global,
    input: &str,
    place: u64,
    left: usize,
) -> Result<(), Fail> {
    let mut source = source_of(alloc, input, &[])?;
    let Got::Bad(found) = next(alloc, &mut source, 0) else {
        panic!(rt; "{input} is taken");
    };
    assert_eq!(rt; found, place, "{input}");
    assert_eq!(rt; source.left().len(), left, "{input}");
    Ok(())
}

#[test]
fn inputs_break_at_their_places(rt: HostRuntime) -> Result<(), Fail> {
    let alloc = rt.alloc();
    breaks(&rt, alloc, "x", 0, 0)?;
    breaks(&rt, alloc, "BYx\n", 2, 1)?;
    breaks(&rt, alloc, "RE", 2, 0)?;
    breaks(&rt, alloc, "REGION  5", 7, 1)?;
    breaks(&rt, alloc, "REGION 0 5", 7, 2)?;
    breaks(&rt, alloc, "REGION 01 5", 7, 3)?;
    breaks(&rt, alloc, "REGION \n", 7, 0)?;
    breaks(&rt, alloc, "REGION 10000001 5", 14, 2)?;
    breaks(&rt, alloc, "REGION 10000000 5", 17, 0)?;
    breaks(&rt, alloc, "REGION 5", 8, 0)?;
    breaks(&rt, alloc, "REGION 5\n", 8, 0)?;
    breaks(&rt, alloc, "REGION 5  4", 9, 1)?;
    breaks(&rt, alloc, "REGION 5 00", 10, 0)?;
    breaks(&rt, alloc, "REGION 5 1048577\n", 15, 1)?;
    breaks(&rt, alloc, "REGION 5 1048576\n", 17, 0)?;
    breaks(&rt, alloc, "REGION 5 4\nab", 13, 0)?;
    Ok(())
}

#[test]
fn frames_one_after_another(rt: HostRuntime) -> Result<(), Fail> {
    let alloc = rt.alloc();
    let mut source = source_of(alloc, "REGION 5 2\nabREGION 10000000 0\nREGION 7 1\n", &[])?;
    let Got::Request(first) = next(alloc, &mut source, 0) else {
        panic!(rt; "no first request");
    };
    assert_eq!(rt; first.budget, 5);
    assert_eq!(rt; first.text.as_slice(), b"ab".as_slice());
    let Got::Request(second) = next(alloc, &mut source, 13) else {
        panic!(rt; "no second request");
    };
    assert_eq!(rt; second.budget, 10_000_000);
    assert!(rt; second.text.is_empty());
    let Got::Bad(place) = next(alloc, &mut source, 31) else {
        panic!(rt; "a third request");
    };
    assert_eq!(rt; place, 42);
    Ok(())
}

#[test]
fn ends_and_faults(rt: HostRuntime) -> Result<(), Fail> {
    let alloc = rt.alloc();
    let mut source = source_of(alloc, "", &[])?;
    let Got::End(EndBy::Bytes) = next(alloc, &mut source, 0) else {
        panic!(rt; "no end of the bytes");
    };
    let mut source = source_of(alloc, "BYE\nzz", &[])?;
    let Got::End(EndBy::Bye) = next(alloc, &mut source, 0) else {
        panic!(rt; "no end by BYE");
    };
    assert_eq!(rt; source.left(), b"zz".as_slice());
    let mut source = source_of(alloc, "REGION 5 2\nab", &[3])?;
    let Got::ReadFault = next(alloc, &mut source, 0) else {
        panic!(rt; "no fault in the header");
    };
    let mut source = source_of(alloc, "REGION 5 2\nab", &[11])?;
    let Got::ReadFault = next(alloc, &mut source, 0) else {
        panic!(rt; "no fault in the text");
    };
    assert_eq!(rt; source.left(), b"ab".as_slice());
    Ok(())
}

/// A body of 23 steps and one page with the DVI `d` and the log `y`, `x`.
fn body(alloc: Global) -> Result<Body, Fail> {
    Ok(Body {
        steps: 23,
        pages: 1,
        dvi: Bytes::from_slice(alloc, b"d")?,
        log: Bytes::from_slice(alloc, b"y\nx\n")?,
    })
}

#[test]
fn replies_are_written(rt: HostRuntime) -> Result<(), Fail> {
    let alloc = rt.alloc();
    let mut sink = MemSink::new(alloc, Vec::new(alloc));
    assert_eq!(rt;
        write(alloc, &mut sink, &Reply::Done(body(alloc)?)),
        Sent::All
    );
    assert_eq!(rt;
        write(alloc, &mut sink, &Reply::Fail(body(alloc)?)),
        Sent::All
    );
    assert_eq!(rt;
        write(alloc, &mut sink, &Reply::Spent(body(alloc)?)),
        Sent::All
    );
    assert_eq!(rt; write(alloc, &mut sink, &Reply::Memory), Sent::All);
    assert_eq!(rt; write(alloc, &mut sink, &Reply::Full), Sent::All);
    assert_eq!(rt; write(alloc, &mut sink, &Reply::Bad(7)), Sent::All);
    let written =
        "DONE 23 1 1 4\ndy\nx\nFAIL 23 1 1 4\ndy\nx\nSPENT 23 1 1 4\ndy\nx\nMEMORY 0 0 0 0\nFULL\nBAD 7\n";
    assert_eq!(rt; sink.got(), written.as_bytes());
    let mut sink = MemSink::new(alloc, vec![in alloc; 0]?);
    assert_eq!(rt; write(alloc, &mut sink, &Reply::Full), Sent::WriteFault);
    assert_eq!(rt; sink.got(), b"FU".as_slice());
    Ok(())
}
