//! Each call of a plain store, by the trait.

use crate::{PlainStore, Store};
use std::alloc::AllocError;
use std::test::Fail;
use tx_format::bare;

/// The number of a name, whose text comes behind `out`.
fn name<S: Store>(
    store: &mut S,
    rt: &S::Rt,
    text: &[u8],
    out: &mut Vec<u8>,
) -> Result<u64, AllocError> {
    let number = store.intern(rt, text)?;
    store.text(rt, number, out)?;
    Ok(number)
}

#[test]
fn names(rt: HostRuntime) -> Result<(), Fail> {
    let format = bare(rt.alloc())?;
    let mut store = PlainStore::new(rt.alloc(), &format)?;
    let mut out = Vec::new(rt.alloc());
    let number = name(&mut store, &(), b"title", &mut out)?;
    assert!(rt; number == 297);
    assert!(rt; out.as_slice() == b"title".as_slice());
    Ok(())
}
