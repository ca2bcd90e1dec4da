//! Each public call once, by the traits where a trait has it.

ghost use Rattle.std.specs.Prelude.{◌≡◌, ◌<◌, length, true};

use crate::{
    Bound, Bytes, File, Files, Gate, Knock, Link, LinkPlan, Look, MemLink, MemPort, MemShelf,
    MemSink, MemSource, NoGate, Port, Put, Shelf, Sink, Source, StdShelf, StdSink, StdSource, Took,
    Word,
};
use std::alloc::Global;
use std::fs;
use std::test::Fail;

fn read<S: Source>(source: &mut S, buffer: &mut [u8; 4]) -> Took {
    source.read(buffer)
}

fn write<S: Sink>(sink: &mut S, bytes: &str) -> Put {
    sink.write(bytes.as_bytes())
}

fn look<S: Shelf>(shelf: &mut S, name: &str, out: &mut Vec<u8>) -> Look {
    shelf.read(name, 2, out)
}

fn pass<G: Gate + Sync>(gate: &G) {
    gate.pass(0, 0, 0, 0);
}

fn is_sent<T: Send>(_value: &T) {}

fn port_is_sent<P: Port + Send>(_port: &P) {}

fn link_is_sent<L: Link + Send>(_link: &L) {}

fn bytes(alloc: Global, text: &str) -> Result<Bytes, Fail> {
    Ok(Bytes::from_slice(alloc, text.as_bytes())?)
}

#[test]
fn words_and_bytes(rt: HostRuntime) -> Result<(), Fail> {
    let alloc = rt.alloc();
    let word = Word::new(String::from_str(alloc, "once")?);
    assert_eq!(rt; word.as_str(), "once");
    assert!(rt; Bytes::new(alloc).is_empty());
    let bytes = bytes(alloc, "abc")?;
    assert_eq!(rt; bytes.as_slice(), b"abc".as_slice());
    assert_eq!(rt; bytes.len(), 3);
    Ok(())
}

#[test]
fn a_source_of_which_the_second_call_fails(rt: HostRuntime) -> Result<(), Fail> {
    let alloc = rt.alloc();
    let mut source = MemSource::new(bytes(alloc, "abcdef")?.0, vec![in alloc; 1]?);
    let mut buffer = [0; 4];
    assert_eq!(rt; read(&mut source, &mut buffer), Took::Bytes(4));
    assert_eq!(rt; buffer, *b"abcd");
    assert_eq!(rt; read(&mut source, &mut buffer), Took::Failed);
    assert_eq!(rt; source.left(), b"ef".as_slice());
    assert_eq!(rt; read(&mut source, &mut buffer), Took::Bytes(2));
    assert_eq!(rt; buffer, *b"efcd");
    assert_eq!(rt; read(&mut source, &mut buffer), Took::End);
    assert_eq!(rt; source.faults(), 1);
    Ok(())
}

#[test]
fn a_sink_of_which_the_second_call_fails(rt: HostRuntime) -> Result<(), Fail> {
    let alloc = rt.alloc();
    let mut sink = MemSink::new(alloc, vec![in alloc; 1]?);
    assert_eq!(rt; write(&mut sink, "abc"), Put::All);
    assert_eq!(rt; write(&mut sink, "defgh"), Put::Failed);
    assert_eq!(rt; write(&mut sink, "i"), Put::All);
    assert_eq!(rt; sink.got(), b"abcdei".as_slice());
    assert_eq!(rt; sink.faults(), 1);
    Ok(())
}

fn two_files(alloc: Global) -> Result<Files, Fail> {
    let mut entries = Vec::new(alloc);
    for (name, content) in [("a", "1"), ("b", "222"), ("a", "4")] {
        let name = bytes(alloc, name)?;
        let content = bytes(alloc, content)?;
        entries.push(File { name, content })?;
    }
    Ok(Files { entries })
}

#[test]
fn a_shelf_of_which_the_fourth_call_fails(rt: HostRuntime) -> Result<(), Fail> {
    let alloc = rt.alloc();
    let mut shelf = MemShelf::new(two_files(alloc)?, vec![in alloc; 3]?);
    let mut out = vec![in alloc; 9]?;
    assert_eq!(rt; look(&mut shelf, "a", &mut out), Look::Found);
    assert_eq!(rt; out.as_slice(), b"1".as_slice());
    assert_eq!(rt; look(&mut shelf, "b", &mut out), Look::Long);
    assert_eq!(rt; look(&mut shelf, "c", &mut out), Look::Absent);
    assert_eq!(rt; shelf.faults(), 0);
    assert_eq!(rt; look(&mut shelf, "a", &mut out), Look::Failed);
    assert!(rt; out.is_empty());
    assert_eq!(rt; shelf.faults(), 1);
    Ok(())
}

fn two_links(alloc: Global) -> Result<Vec<LinkPlan>, Fail> {
    let mut links = Vec::new(alloc);
    links.push(LinkPlan {
        bytes: bytes(alloc, "ab")?.0,
        failing: vec![in alloc; 0]?,
    })?;
    links.push(LinkPlan {
        bytes: bytes(alloc, "cd")?.0,
        failing: Vec::new(alloc),
    })?;
    Ok(links)
}

// Binds the port, takes its first link and reads of it.
fn first_read<P: Port>(port: &mut P) -> Option<(P::L, Took)> {
    let Bound::Ready = port.bind(7) else {
        return None;
    };
    let Knock::Link(mut link) = port.accept() else {
        return None;
    };
    let took = read(&mut link, &mut [0; 4]);
    Some((link, took))
}

#[test]
fn a_port_through_its_bound(rt: HostRuntime) -> Result<(), Fail> {
    let alloc = rt.alloc();
    let mut port = MemPort::new(alloc, two_links(alloc)?, Vec::new(alloc));
    let (link, took) = first_read(&mut port).expect(&rt, "a link");
    link_is_sent(&link);
    assert_eq!(rt; took, Took::Failed);
    assert_eq!(rt; link.faults(), 1);
    Ok(())
}

#[test]
fn a_port_with_two_links_of_which_one_fails(rt: HostRuntime) -> Result<(), Fail> {
    let alloc = rt.alloc();
    let mut port = MemPort::new(alloc, two_links(alloc)?, vec![in alloc; 0, 2]?);
    port_is_sent(&port);
    assert_eq!(rt; port.bind(7), Bound::Failed);
    let Bound::Ready = port.bind(7) else {
        panic!(rt; "not bound");
    };
    let Knock::Failed = port.accept() else {
        panic!(rt; "no fault");
    };
    let Knock::Link(mut first) = port.accept() else {
        panic!(rt; "no first link");
    };
    let Knock::Link(mut second) = port.accept() else {
        panic!(rt; "no second link");
    };
    assert_eq!(rt; read(&mut first, &mut [0; 4]), Took::Failed);
    assert_eq!(rt; write(&mut first, "xy"), Put::All);
    assert_eq!(rt; read(&mut second, &mut [0; 4]), Took::Bytes(2));
    let Knock::Closed = port.accept() else {
        panic!(rt; "not closed");
    };
    assert_eq!(rt; port.handed(), 2);
    port.done(second);
    port.done(first);
    let back = port.back();
    assert_eq!(rt; back.len(), 2);
    assert_eq!(rt; back[0].left(), b"".as_slice());
    assert_eq!(rt; back[0].faults(), 0);
    assert_eq!(rt; back[1].left(), b"ab".as_slice());
    assert_eq!(rt; back[1].got(), b"xy".as_slice());
    assert_eq!(rt; back[1].faults(), 1);
    assert_eq!(rt; port.faults(), 2);
    Ok(())
}

#[test]
fn a_link_through_its_bound(rt: HostRuntime) -> Result<(), Fail> {
    let alloc = rt.alloc();
    let mut link = MemLink::new(bytes(alloc, "ab")?.0, vec![in alloc; 1]?);
    is_sent(&link);
    let mut buffer = [0; 4];
    assert_eq!(rt; read(&mut link, &mut buffer), Took::Bytes(2));
    assert_eq!(rt; write(&mut link, "xyz"), Put::Failed);
    assert_eq!(rt; link.got(), b"x".as_slice());
    assert_eq!(rt; read(&mut link, &mut buffer), Took::End);
    Ok(())
}

#[test]
fn a_source_and_a_sink_over_files(rt: HostRuntime) -> Result<(), Fail> {
    let name = "tx_bytes_test.txt";
    let mut sink = StdSink::new(fs::create(&rt, name)?);
    assert_eq!(rt; write(&mut sink, "abcde"), Put::All);
    assert_eq!(rt; write(&mut sink, "f"), Put::All);
    assert_eq!(rt; sink.faults(), 0);

    let mut source = StdSource::new(fs::open(&rt, name)?);
    let mut buffer = [0; 4];
    assert_eq!(rt; read(&mut source, &mut buffer), Took::Bytes(4));
    assert_eq!(rt; buffer, *b"abcd");
    assert_eq!(rt; read(&mut source, &mut buffer), Took::Bytes(2));
    assert_eq!(rt; buffer, *b"efcd");
    assert_eq!(rt; read(&mut source, &mut buffer), Took::End);
    assert_eq!(rt; source.faults(), 0);

    // A file that was opened to read takes no bytes.
    let mut sink = StdSink::new(fs::open(&rt, name)?);
    assert_eq!(rt; write(&mut sink, "g"), Put::Failed);
    assert_eq!(rt; sink.faults(), 1);
    fs::remove_file(&rt, name)?;
    Ok(())
}

#[test]
fn a_shelf_over_files(rt: HostRuntime) -> Result<(), Fail> {
    let name = "tx_bytes_shelf.txt";
    let mut shelf = StdShelf::new(&rt);
    let mut out = vec![in rt.alloc(); 9]?;
    assert_eq!(rt; look(&mut shelf, name, &mut out), Look::Absent);
    fs::write(&rt, name, "ab")?;
    assert_eq!(rt; look(&mut shelf, name, &mut out), Look::Found);
    assert_eq!(rt; out.as_slice(), b"ab".as_slice());
    fs::write(&rt, name, "abc")?;
    assert_eq!(rt; look(&mut shelf, name, &mut out), Look::Long);
    assert!(rt; out.is_empty());
    assert_eq!(rt; shelf.faults(), 0);

    // A folder can be opened, and not read.
    assert_eq!(rt; look(&mut shelf, ".", &mut out), Look::Failed);
    assert_eq!(rt; shelf.faults(), 1);
    fs::remove_file(&rt, name)?;
    Ok(())
}

#[test]
fn a_gate_lets_pass() {
    pass(&NoGate);
}
