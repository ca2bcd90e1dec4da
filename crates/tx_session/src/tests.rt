//! Regions over a plain store, by what they print.

use crate::{begin_session, has_reading, run_region};
use std::test::Fail;
use tx_bytes::Bytes;
use tx_engine::End;
use tx_format::bare;
use tx_store::PlainStore;

#[test]
fn a_session(rt: HostRuntime) -> Result<(), Fail> {
    let alloc = rt.alloc();
    let format = bare(alloc)?;
    let mut store = PlainStore::new(alloc, &format)?;
    let mut engine = begin_session(alloc, &store, &format);
    let first = Bytes::from_slice(alloc, b"\\def\\a{x}\\toks0{\\a\\b}\\edef\\b{\\the\\toks0}")?;
    let ended = run_region(&(), &mut store, &format, &mut engine, first, 100);
    assert_eq!(rt; ended, End::Done);
    let second = Bytes::from_slice(alloc, b"\\global\\let\\a=\\b\\def\\c{}\\zz")?;
    let ended = run_region(&(), &mut store, &format, &mut engine, second, 100);
    assert_eq!(rt; ended, End::Failed);
    assert_eq!(rt;
        engine.log(),
        b"! Undefined control sequence.\nl.1\n".as_slice()
    );
    let third = Bytes::from_slice(
        alloc,
        b"\\message{\\a:\\meaning\\b}{\\def\\a{y}\\global\\advance\\count9 by 7}",
    )?;
    let ended = run_region(&(), &mut store, &format, &mut engine, third, 100);
    assert_eq!(rt; ended, End::Done);
    assert_eq!(rt; engine.log(), b"x:macro:->\\a \\b \n".as_slice());
    let fourth = Bytes::from_slice(alloc, b"\\message{\\the\\count9\\a}")?;
    let ended = run_region(&(), &mut store, &format, &mut engine, fourth, 10);
    assert_eq!(rt; ended, End::Done);
    assert_eq!(rt; engine.log(), b"7x\n".as_slice());
    assert_eq!(rt; engine.steps(), 10);
    let fifth = Bytes::from_slice(alloc, b"\\message{\\the\\count9\\a}")?;
    let ended = run_region(&(), &mut store, &format, &mut engine, fifth, 9);
    assert_eq!(rt; ended, End::Spent);
    has_reading(&store);
    Ok(())
}
