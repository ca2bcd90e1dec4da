//! The program over objects in memory.

use crate::top::texd;
use std::alloc::Global;
use std::process::Abort;
use std::sync::Wait;
use std::test::Fail;
use std::thread::Threads;
use tx_bytes::{Bytes, File, Files, MemPort, MemShelf, MemSink, MemSource, NoGate, Word};

/// The numbers of the calls that are to fail, of the shelf, the input and the output.
#[derive(Clone, Copy)]
struct Failing<'a> {
    looks: &'a [u64],
    reads: &'a [u64],
    writes: &'a [u64],
}

/// No call fails.
const NONE: Failing<'static> = Failing {
    looks: &[],
    reads: &[],
    writes: &[],
};

/// A file of this name.
fn file(alloc: Global, name: &[u8], content: &[u8]) -> Result<File, Fail> {
    Ok(File {
        name: Bytes::from_slice(alloc, name)?,
        content: Bytes::from_slice(alloc, content)?,
    })
}

/// A run of the program with these words on this input, where the shelf has these files: the status, and
/// what was written.
fn play<R: Threads + Wait + Send + Sync>(
    rt: &R,
    alloc: Global,
    words: &[&str],
    files: Vec<File>,
    input: &[u8],
    failing: Failing<'_>,
) -> Result<(u8, Vec<u8>), Fail> {
    let mut list = Vec::new(alloc);
    for word in words {
        list.push(Word::new(String::from_str(alloc, word)?))?;
    }
    let mut shelf = MemShelf::new(Files { entries: files }, failing.looks.to_vec(alloc)?);
    let mut port = MemPort::new(alloc, Vec::new(alloc), Vec::new(alloc));
    let mut source = MemSource::new(input.to_vec(alloc)?, failing.reads.to_vec(alloc)?);
    let mut sink = MemSink::new(alloc, failing.writes.to_vec(alloc)?);
    let status = texd(
        rt,
        alloc,
        list.as_slice(),
        &mut shelf,
        &mut source,
        &mut sink,
        &mut port,
        &NoGate,
    );
    Ok((status, sink.got().to_vec(alloc)?))
}

/// What `once` writes for one input, and its status, where no call fails.
fn check<R: Threads + Wait + Send + Sync + Abort>(
    rt: &R,
    alloc: Global,
    input: &str,
    status: u8,
    output: &str,
) -> Result<(), Fail> {
    let (code, written) = play(
        rt,
        alloc,
        &["once"],
        Vec::new(alloc),
        input.as_bytes(),
        NONE,
    )?;
    assert_eq!(rt; code, status, "{input}");
    assert_eq!(rt; written.as_slice(), output.as_bytes(), "{input}");
    Ok(())
}

#[test]
fn regions(rt: HostRuntime) -> Result<(), Fail> {
    check(&rt, rt.alloc(), "", 0, "")?;
    check(&rt, rt.alloc(), "REGION 100 0\n", 0, "DONE 0 0 0 0\n")?;
    check(&rt, rt.alloc(), "REGION 1 6\n\\relax", 0, "DONE 1 0 0 0\n")?;
    check(
        &rt,
        rt.alloc(),
        "REGION 1 12\n\\relax\\relax",
        0,
        "SPENT 1 0 0 0\n",
    )?;
    check(
        &rt,
        rt.alloc(),
        "REGION 1000 1\nx",
        0,
        "FAIL 1 0 0 37\n! This command is not built yet.\nl.1\n",
    )?;
    check(
        &rt,
        rt.alloc(),
        "REGION 1000 14\n\\par  \n\n \\zz\nx",
        0,
        "FAIL 3 0 0 34\n! Undefined control sequence.\nl.3\n",
    )
}

#[test]
fn messages_and_definitions(rt: HostRuntime) -> Result<(), Fail> {
    check(
        &rt,
        rt.alloc(),
        "REGION 100 44\n\\def\\a{x}{\\def\\a{y}\\message{\\a}}\\message{\\a}",
        0,
        "DONE 23 0 0 4\ny\nx\n",
    )?;
    check(
        &rt,
        rt.alloc(),
        "REGION 1000 20\n\\message{\u{e9}\\relax{}}",
        0,
        "DONE 9 0 0 18\n^^c3^^a9\\relax {}\n",
    )?;
    check(
        &rt,
        rt.alloc(),
        "REGION 10000 12\n\\def\\a{\\a}\\a",
        0,
        "SPENT 10000 0 0 0\n",
    )
}

#[test]
fn groups(rt: HostRuntime) -> Result<(), Fail> {
    check(
        &rt,
        rt.alloc(),
        "REGION 1000 1\n}",
        0,
        "FAIL 1 0 0 20\n! Too many }'s.\nl.1\n",
    )?;
    check(
        &rt,
        rt.alloc(),
        "REGION 1000 1\n{",
        0,
        "FAIL 2 0 0 46\n! Region ended inside a group at level 1.\nl.1\n",
    )
}

#[test]
fn bytes_of_lines(rt: HostRuntime) -> Result<(), Fail> {
    check(
        &rt,
        rt.alloc(),
        "REGION 1000 17\n\\message{^^41^^J}REGION 1000 4\n^^7f",
        0,
        "DONE 6 0 0 5\nA^^J\nFAIL 0 0 0 47\n! Text line contains an invalid character.\nl.1\n",
    )?;
    check(
        &rt,
        rt.alloc(),
        "REGION 1000 35\n% \\zz\n^^5crel^^61x\\message{$&#_^~}\n",
        0,
        "DONE 11 0 0 8\n$&##_^~\n",
    )
}

/// After FAIL, SPENT and a group's error the state is the one before the region, names included.
#[test]
fn sessions(rt: HostRuntime) -> Result<(), Fail> {
    check(
        &rt,
        rt.alloc(),
        "REGION 1000 12\n\\def\\a{\\a}\\aREGION 1000 2\n\\a",
        0,
        "SPENT 1000 0 0 0\nFAIL 1 0 0 34\n! Undefined control sequence.\nl.1\n",
    )?;
    check(
        &rt,
        rt.alloc(),
        "REGION 1000 9\n\\def\\a{1}REGION 1000 26\n{{{\\def\\a{2}\\def\\b{3}}\\zz}REGION 1000 18\n\\message{\\a}\\def\\bREGION 1000 12\n\\message{\\a}",
        0,
        "DONE 6 0 0 0\nFAIL 15 0 0 34\n! Undefined control sequence.\nl.1\nFAIL 7 0 0 39\n1\n! This command is not built yet.\nl.1\nDONE 6 0 0 2\n1\n",
    )
}

#[test]
fn ends_of_sessions(rt: HostRuntime) -> Result<(), Fail> {
    check(&rt, rt.alloc(), "BYE\nzz", 0, "")?;
    check(
        &rt,
        rt.alloc(),
        "REGION 1 0\nBYE\nREGION 1 0\n",
        0,
        "DONE 0 0 0 0\n",
    )
}

#[test]
fn inputs_that_break_the_grammar(rt: HostRuntime) -> Result<(), Fail> {
    check(&rt, rt.alloc(), "REGION 0 5", 7, "BAD 7\n")?;
    check(&rt, rt.alloc(), "REGION 10000001 5", 7, "BAD 14\n")?;
    check(&rt, rt.alloc(), "REGION 01 5", 7, "BAD 7\n")?;
    check(&rt, rt.alloc(), "REGION 5 4\nab", 7, "BAD 13\n")?;
    check(
        &rt,
        rt.alloc(),
        "REGION 1 0\nREGION 5 1048577\n",
        7,
        "DONE 0 0 0 0\nBAD 26\n",
    )?;
    check(
        &rt,
        rt.alloc(),
        "REGION 1 0\n\n",
        7,
        "DONE 0 0 0 0\nBAD 11\n",
    )?;
    check(&rt, rt.alloc(), "BY", 7, "BAD 2\n")
}

/// The same bytes so many times.
fn repeated(alloc: Global, bytes: &[u8], count: u32) -> Result<Vec<u8>, Fail> {
    let mut all = Vec::new(alloc);
    for _ in 0..count {
        all.extend_from_slice(bytes)?;
    }
    Ok(all)
}

#[test]
fn more_regions_than_a_session_has(rt: HostRuntime) -> Result<(), Fail> {
    let alloc = rt.alloc();
    let input = repeated(alloc, b"REGION 1 0\n", 65_537)?;
    let (code, written) = play(
        &rt,
        alloc,
        &["once"],
        Vec::new(alloc),
        input.as_slice(),
        NONE,
    )?;
    let mut due = repeated(alloc, b"DONE 0 0 0 0\n", 65_536)?;
    due.extend_from_slice(b"FULL\n")?;
    assert_eq!(rt; code, 0);
    assert!(rt; written.as_slice() == due.as_slice());
    Ok(())
}

/// What `once` with one file writes, and its status.
fn check_file<R: Threads + Wait + Send + Sync + Abort>(
    rt: &R,
    alloc: Global,
    content: &[u8],
    input: &[u8],
    status: u8,
    output: &str,
) -> Result<(), Fail> {
    let mut files = Vec::new(alloc);
    files.push(file(alloc, b"a.tex", content)?)?;
    let (code, written) = play(rt, alloc, &["once", "a.tex"], files, input, NONE)?;
    assert_eq!(rt; code, status);
    assert_eq!(rt; written.as_slice(), output.as_bytes());
    Ok(())
}

#[test]
fn preambles(rt: HostRuntime) -> Result<(), Fail> {
    check_file(
        &rt,
        rt.alloc(),
        b"\\def\\a{x}\n",
        b"REGION 1000 12\n\\message{\\a}",
        0,
        "DONE 6 0 0 2\nx\n",
    )?;
    check_file(
        &rt,
        rt.alloc(),
        b"\\par\\zz",
        b"REGION 1 0\n",
        3,
        "PREAMBLE FAIL 2 34\n! Undefined control sequence.\nl.1\n",
    )?;
    check_file(
        &rt,
        rt.alloc(),
        b"\\def\\a{x\\a}\\message{q}\\def\\b{\\b}\\b",
        b"REGION 1 0\n",
        3,
        "PREAMBLE SPENT 100000000 2\nq\n",
    )
}

/// The words `once` and so many names of one file.
#[test]
fn files_that_cannot_be_read(rt: HostRuntime) -> Result<(), Fail> {
    let alloc = rt.alloc();
    let frame = b"REGION 1 0\n".as_slice();
    let (code, written) = play(&rt, alloc, &["once", "a.tex"], Vec::new(alloc), frame, NONE)?;
    assert_eq!(rt; code, 4);
    assert_eq!(rt; written.as_slice(), b"ABSENT a.tex\n".as_slice());
    let mut files = Vec::new(alloc);
    files.push(file(alloc, b"a", b"")?)?;
    let long = repeated(alloc, b"0123456789abcdef", 1_048_577)?;
    files.push(file(alloc, b"b", long.as_slice())?)?;
    let (code, written) = play(&rt, alloc, &["once", "a", "b", "c"], files, frame, NONE)?;
    assert_eq!(rt; code, 10);
    assert_eq!(rt; written.as_slice(), b"LONG file b\n".as_slice());
    Ok(())
}

#[test]
fn files_that_are_too_long_together(rt: HostRuntime) -> Result<(), Fail> {
    let alloc = rt.alloc();
    let frame = b"REGION 1 0\n".as_slice();
    let mut files = Vec::new(alloc);
    let long = repeated(alloc, b"0123456789abcdef", 1_048_576)?;
    files.push(file(alloc, b"a", long.as_slice())?)?;
    files.push(file(alloc, b"b", b"%")?)?;
    let names = &[
        "once", "a", "a", "a", "a", "a", "a", "a", "a", "a", "a", "a", "a", "a", "a", "a", "a", "b",
    ];
    let (code, written) = play(&rt, alloc, names, files, frame, NONE)?;
    assert_eq!(rt; code, 10);
    assert_eq!(rt; written.as_slice(), b"LONG files\n".as_slice());
    Ok(())
}

/// Words that are refused, on an input that is one frame.
fn refused<R: Threads + Wait + Send + Sync + Abort>(
    rt: &R,
    alloc: Global,
    words: &[&str],
) -> Result<(), Fail> {
    let (code, written) = play(rt, alloc, words, Vec::new(alloc), b"REGION 1 0\n", NONE)?;
    assert_eq!(rt; code, 2);
    assert_eq!(rt; written.len(), 0);
    Ok(())
}

#[test]
fn words_that_are_refused(rt: HostRuntime) -> Result<(), Fail> {
    let alloc = rt.alloc();
    refused(&rt, alloc, &[])?;
    refused(&rt, alloc, &["twice"])?;
    refused(&rt, alloc, &["batch", "--workers", "0"])?;
    let mut words = Vec::new(alloc);
    words.push("once")?;
    for _ in 0..257 {
        words.push("a")?;
    }
    refused(&rt, alloc, words.as_slice())
}

/// A run on one frame of which some calls fail.
fn check_failing<R: Threads + Wait + Send + Sync + Abort>(
    rt: &R,
    alloc: Global,
    words: &[&str],
    failing: Failing<'_>,
    status: u8,
    output: &str,
) -> Result<(), Fail> {
    let mut files = Vec::new(alloc);
    files.push(file(alloc, b"a", b"")?)?;
    let (code, written) = play(rt, alloc, words, files, b"REGION 1 0\n", failing)?;
    assert_eq!(rt; code, status);
    assert_eq!(rt; written.as_slice(), output.as_bytes());
    Ok(())
}

#[test]
fn calls_that_fail(rt: HostRuntime) -> Result<(), Fail> {
    let alloc = rt.alloc();
    let looks = Failing {
        looks: &[0],
        ..NONE
    };
    check_failing(&rt, alloc, &["once", "a"], looks, 5, "")?;
    let reads = Failing {
        reads: &[11],
        ..NONE
    };
    check_failing(&rt, alloc, &["once"], reads, 5, "DONE 0 0 0 0\n")?;
    let writes = Failing {
        writes: &[0],
        ..NONE
    };
    check_failing(&rt, alloc, &["once"], writes, 6, "DONE 0")?;
    check_failing(&rt, alloc, &["once", "b"], writes, 6, "ABSE")
}
