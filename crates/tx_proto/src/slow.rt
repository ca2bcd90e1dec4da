//! Where a header breaks, found by trying each first part of it on the forms of lawful headers.

use crate::Got;
use crate::tests::next;
use std::alloc::Global;
use std::process::Abort;
use std::test::Fail;
use tx_bytes::MemSource;

/// The bytes of which inputs are made.
const LETTERS: [char; 8] = ['0', '1', '6', '7', ' ', '\n', 'E', 'B'];

/// Whether this is a number from `least` to `most` as it is printed.
fn is_number(alloc: Global, text: &str, least: u64, most: u64) -> Result<bool, Fail> {
    match text.parse::<u64>() {
        Ok(number) => {
            let printed = number.to_string(alloc)?;
            Ok(printed.as_str() == text && least <= number && number <= most)
        }
        Err(_) => Ok(false),
    }
}

/// Whether some lawful input begins so, where the first header is looked at alone.
fn can_go_on(alloc: Global, text: &str) -> Result<bool, Fail> {
    if "REGION ".starts_with(text) || "BYE\n".starts_with(text) || text.starts_with("BYE\n") {
        return Ok(true);
    }
    let Some(numbers) = text.strip_prefix("REGION ") else {
        return Ok(false);
    };
    let Some((budget, behind)) = numbers.split_once(' ') else {
        return is_number(alloc, numbers, 1, 10_000_000);
    };
    if !is_number(alloc, budget, 1, 10_000_000)? {
        return Ok(false);
    }
    match behind.split_once('\n') {
        Some((length, _)) => is_number(alloc, length, 0, 1_048_576),
        None => {
            let open = behind.is_empty();
            Ok(is_number(alloc, behind, 0, 1_048_576)? || open)
        }
    }
}

/// The place of the first byte with which no lawful input begins, if there is one.
fn place_of(alloc: Global, text: &str) -> Result<Option<u64>, Fail> {
    for place in 0..text.len() {
        if let Some(front) = text.get(..place + 1) {
            if !can_go_on(alloc, front)? {
                return Ok(Some(place as u64));
            }
        }
    }
    Ok(None)
}

/// The place at which this input breaks, if it does so before its end, as `read_request` says it.
fn place_read(alloc: Global, text: &str) -> Result<Option<u64>, Fail> {
    let mut source = MemSource::new(text.as_bytes().to_vec(alloc)?, Vec::new(alloc));
    let length = text.len() as u64;
    match next(alloc, &mut source, 0) {
        Got::Bad(place) => {
            if place < length {
                Ok(Some(place))
            } else {
                Ok(None)
            }
        }
        _ => Ok(None),
    }
}

/// Compares both for these bytes and each three letters behind them.
fn compare<R: Abort>(rt: &R, alloc: Global, start: &str) -> Result<(), Fail> {
    for number in 0..512usize {
        let mut text = String::from_str(alloc, start)?;
        text.push(LETTERS[number / 64 % 8])?;
        text.push(LETTERS[number / 8 % 8])?;
        text.push(LETTERS[number % 8])?;
        let expected = place_of(alloc, text.as_str())?;
        let found = place_read(alloc, text.as_str())?;
        assert_eq!(rt; found, expected, "{text}");
    }
    Ok(())
}

#[test]
fn places_by_trying(rt: HostRuntime) -> Result<(), Fail> {
    let alloc = rt.alloc();
    compare(&rt, alloc, "")?;
    compare(&rt, alloc, "R")?;
    compare(&rt, alloc, "BY")?;
    compare(&rt, alloc, "REGION ")?;
    compare(&rt, alloc, "REGION 1")?;
    compare(&rt, alloc, "REGION 1000000")?;
    compare(&rt, alloc, "REGION 6 ")?;
    compare(&rt, alloc, "REGION 6 104857")?;
    Ok(())
}
