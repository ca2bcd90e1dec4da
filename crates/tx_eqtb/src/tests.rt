//! Tests.

use crate::{Addr, AddrKind, Entries, Frozen, Meaning, Old, Overlay};
use std::alloc::{AllocError, Global};
use std::test::Fail;

/// A count register.
fn count(no: u64) -> Addr {
    Addr {
        kind: AddrKind::Count,
        no,
    }
}

/// An integer that an address means.
fn integer(m: &Meaning<u8>) -> Option<i32> {
    match m {
        Meaning::Int(n) => Some(*n),
        _ => None,
    }
}

/// The integer at a count register.
fn read(overlay: &Overlay<u8>, frozen: &Frozen<u8>, no: u64) -> Option<i32> {
    integer(overlay.get(frozen, count(no)))
}

/// A frozen table with 7 in count register 1.
fn frozen(alloc: Global) -> Result<Frozen<u8>, AllocError> {
    let mut entries = Vec::new(alloc);
    entries.push((count(1), Meaning::Int(7)))?;
    Frozen::new(alloc, Entries(entries))
}

/// Undoes all.
fn undo_all(overlay: &mut Overlay<u8>) {
    while let Some(_) = overlay.undo() {}
}

/// Keeps all.
fn keep_all(overlay: &mut Overlay<u8>) {
    while let Some(_) = overlay.keep() {}
}

#[test]
fn frozen_table(rt: HostRuntime) -> Result<(), Fail> {
    let table = frozen(rt.alloc())?;
    assert_eq!(rt; integer(table.get(count(1))), Some(7));
    assert_eq!(rt; integer(table.get(count(2))), Some(0));
    Ok(())
}

#[test]
fn first_changes(rt: HostRuntime) -> Result<(), Fail> {
    let table = frozen(rt.alloc())?;
    let mut overlay = Overlay::new(rt.alloc());
    assert!(rt; matches!(overlay.set(count(1), Meaning::Int(8)), Ok(Old::Frozen)));
    assert!(rt;
        matches!(
            overlay.set(count(1), Meaning::Int(9)),
            Ok(Old::Moved(Meaning::Int(8)))
        )
    );
    assert_eq!(rt; read(&overlay, &table, 1), Some(9));
    assert!(rt; matches!(overlay.undo(), Some(Meaning::Int(9))));
    assert!(rt; overlay.undo().is_none());
    assert_eq!(rt; read(&overlay, &table, 1), Some(7));
    Ok(())
}

#[test]
fn later_changes(rt: HostRuntime) -> Result<(), Fail> {
    let table = frozen(rt.alloc())?;
    let mut overlay = Overlay::new(rt.alloc());
    overlay.set(count(1), Meaning::Int(8)).ok();
    assert!(rt; overlay.keep().is_none());
    assert!(rt; matches!(overlay.set(count(1), Meaning::Int(9)), Ok(Old::Kept)));
    assert!(rt; matches!(overlay.keep(), Some(Meaning::Int(8))));
    assert_eq!(rt; read(&overlay, &table, 1), Some(9));
    Ok(())
}

#[test]
fn put_back(rt: HostRuntime) -> Result<(), Fail> {
    let table = frozen(rt.alloc())?;
    let mut overlay = Overlay::new(rt.alloc());
    let at = count(1);
    if let Ok(old) = overlay.set(at, Meaning::Int(8)) {
        assert!(rt; matches!(overlay.put_back(at, old), Meaning::Int(8)));
    }
    assert_eq!(rt; read(&overlay, &table, 1), Some(7));
    Ok(())
}

#[test]
fn emptied(rt: HostRuntime) {
    let mut overlay: Overlay<u8> = Overlay::new(rt.alloc());
    assert!(rt; overlay.empty().is_none());
}

/// How a region of the script ends.
#[derive(Clone, Copy, Debug)]
enum End {
    /// It does not end here.
    Open,
    /// What it set stays.
    Kept,
    /// What it set is undone.
    Undone,
}

#[test]
fn against_lists(rt: HostRuntime) -> Result<(), Fail> {
    let table = frozen(rt.alloc())?;
    let mut overlay = Overlay::new(rt.alloc());
    let mut plain = Vec::new(rt.alloc());
    let mut first = 0;
    for (no, n, end) in [
        (1, 2, End::Open),
        (2, 3, End::Kept),
        (1, 4, End::Open),
        (1, 5, End::Open),
        (3, 6, End::Undone),
        (2, 8, End::Kept),
    ] {
        overlay.set(count(no), Meaning::Int(n)).ok();
        plain.push((no, n))?;
        match end {
            End::Open => {}
            End::Kept => {
                keep_all(&mut overlay);
                first = plain.len();
            }
            End::Undone => {
                undo_all(&mut overlay);
                plain.truncate(first);
            }
        }
        assert!(rt; agree(&overlay, &table, plain.as_slice()));
    }
    Ok(())
}

/// Whether the registers are what the last pair for each says, or else what the frozen table says.
fn agree(overlay: &Overlay<u8>, table: &Frozen<u8>, pairs: &[(u64, i32)]) -> bool {
    let plain = |no: u64| pairs.iter().rev().find(|p| p.0 == no).map(|p| p.1);
    read(overlay, table, 1) == Some(plain(1).unwrap_or(7))
        && read(overlay, table, 2) == Some(plain(2).unwrap_or(0))
        && read(overlay, table, 3) == Some(plain(3).unwrap_or(0))
}
