//! Tests.

use crate::{Both, Call};
use std::alloc::{AllocError, Global};
use std::test::Fail;
use tx_eqtb::{Addr, AddrKind, Entries, Frozen, Meaning};

/// How many registers a script sets.
const REGISTERS: u64 = 6;

/// A count register.
fn count(no: u64) -> Addr {
    Addr {
        kind: AddrKind::Count,
        no,
    }
}

/// A frozen table with 7 in count register 1.
fn frozen(alloc: Global) -> Result<Frozen<u8>, AllocError> {
    let mut entries = Vec::new(alloc);
    entries.push((count(1), Meaning::Int(7)))?;
    Frozen::new(alloc, Entries(entries))
}

/// The number after this one in a row that looks random.
fn next(seed: u64) -> u64 {
    seed.wrapping_mul(6_364_136_223_846_793_005)
        .wrapping_add(1_442_695_040_888_963_407)
}

/// The call that a number stands for.
fn call(seed: u64) -> Call {
    let kind = (seed >> 33) % 16;
    let no = (seed >> 40) % REGISTERS;
    let n = ((seed >> 48) % 1000) as i32;
    match kind {
        0..=2 => Call::Begin,
        3..=5 => Call::Close,
        6 => Call::Keep,
        7 => if no == 0 { Call::Undo } else { Call::Close },
        8 | 9 => Call::Assign(count(no), n, true),
        _ => Call::Assign(count(no), n, false),
    }
}

/// Whether all registers mean the same on both sides.
fn agree(both: &Both, table: &Frozen<u8>) -> bool {
    (0..REGISTERS).all(|no| both.integer(table, count(no)) == both.listed(table, count(no)))
}

#[test]
fn long_script(rt: HostRuntime) -> Result<(), Fail> {
    let table = frozen(rt.alloc())?;
    let mut both = Both::new(rt.alloc());
    let mut seed = 1;
    for _ in 0..2000 {
        seed = next(seed);
        both = both.step(call(seed))?;
        assert!(rt; agree(&both, &table));
    }
    Ok(())
}

#[test]
fn short_script(rt: HostRuntime) -> Result<(), Fail> {
    let table = frozen(rt.alloc())?;
    let script = [
        Call::Assign(count(1), 8, false),
        Call::Keep,
        Call::Begin,
        Call::Assign(count(1), 9, false),
        Call::Assign(count(2), 5, true),
        Call::Close,
    ];
    let both = Both::new(rt.alloc()).play(&script)?;
    both.agrees();
    assert!(rt; agree(&both, &table));
    assert_eq!(rt; both.integer(&table, count(1)), Some(8));
    assert_eq!(rt; both.integer(&table, count(2)), Some(5));
    let both = both.step(Call::Undo)?;
    assert_eq!(rt; both.integer(&table, count(2)), Some(0));
    assert_eq!(rt; both.integer(&table, count(1)), Some(8));
    Ok(())
}
