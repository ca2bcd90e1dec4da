//! Tests.

use crate::{Format, bare, start};
use std::test::Fail;
use tx_eqtb::{Addr, AddrKind, Meaning};
use tx_num::Sp;

/// The integer that an address means.
fn integer(format: &Format, kind: AddrKind, no: u64) -> Option<i32> {
    match format.frozen().get(Addr { kind, no }) {
        Meaning::Int(n) => Some(*n),
        _ => None,
    }
}

#[test]
fn values_in_bare(rt: HostRuntime) -> Result<(), Fail> {
    let format = bare(rt.alloc())?;
    assert_eq!(rt; integer(&format, AddrKind::CatCode, 123), Some(1));
    assert_eq!(rt; integer(&format, AddrKind::CatCode, 255), Some(12));
    assert_eq!(rt; integer(&format, AddrKind::LcCode, 65), Some(97));
    assert_eq!(rt; integer(&format, AddrKind::UcCode, 122), Some(90));
    assert_eq!(rt; integer(&format, AddrKind::SfCode, 90), Some(999));
    assert_eq!(rt; integer(&format, AddrKind::MathCode, 97), Some(29025));
    assert_eq!(rt; integer(&format, AddrKind::DelCode, 46), Some(0));
    assert_eq!(rt; integer(&format, AddrKind::IntParam, 1), Some(200));
    assert_eq!(rt; integer(&format, AddrKind::Count, 7), Some(0));
    let Meaning::Dim(width) = format.frozen().get(Addr {
        kind: AddrKind::DimenParam,
        no: 4,
    })
    else {
        panic!(rt; "no dimension");
    };
    assert_eq!(rt; *width, Sp(22_609_920));
    let Meaning::Glue(skip) = format.frozen().get(Addr {
        kind: AddrKind::GlueParam,
        no: 14,
    })
    else {
        panic!(rt; "no glue");
    };
    assert_eq!(rt; skip.stretch, Sp::POINT);
    Ok(())
}

#[test]
fn values_at_the_start(rt: HostRuntime) -> Result<(), Fail> {
    let format = start(rt.alloc())?;
    assert_eq!(rt; integer(&format, AddrKind::CatCode, 123), Some(12));
    assert_eq!(rt; integer(&format, AddrKind::CatCode, 92), Some(0));
    assert_eq!(rt; integer(&format, AddrKind::IntParam, 1), Some(10000));
    assert_eq!(rt; integer(&format, AddrKind::IntParam, 21), Some(1776));
    Ok(())
}

#[test]
fn names_lists_and_files(rt: HostRuntime) -> Result<(), Fail> {
    let format = bare(rt.alloc())?;
    format.is_sound();
    assert_eq!(rt; format.names_len(), 297);
    let number = format.number_of(b"relax").expect(&rt, "a primitive");
    assert!(rt; number < format.names_len());
    assert_eq!(rt; format.text(number), b"relax".as_slice());
    let Meaning::Prim(place) = format.frozen().get(Addr {
        kind: AddrKind::Name,
        no: number,
    })
    else {
        panic!(rt; "no primitive");
    };
    assert_eq!(rt; u64::from(*place), number);
    assert!(rt; format.number_of(b"hbox ").is_none());
    assert!(rt; format.list_number(&[]).is_none());
    assert!(rt; format.files().entries.is_empty());
    Ok(())
}
