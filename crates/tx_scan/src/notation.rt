//! The notation of a byte by two equal superscripts.

ghost use Rattle.std.specs.Prelude.{◌≡◌, ℕ, ◌<◌, ◌≤◌, List, ◌∷◌, length, drop, IfSome};
ghost use Rattle.tx_model.specs.Scanner.{hex_value as hex_value_of, hex_byte as hex_byte_of, shifted as shifted_of, after_superscripts as after_superscripts_of, noted, fronted};
ghost use Rattle.tx_scan.specs.Scans.{category_by, from_front, from_found, GoesOn, Begins};

use crate::cats::Cats;
use tx_model::Cat;

/// A byte that the scanner reads in a line, and where the bytes behind it begin.
#[derive(Clone, Copy)]
pub struct Front {
    pub byte: u8,
    pub behind: usize,
}

/// The byte that the scanner reads at a place of a line: the one that stands there, or, where a notation
/// stands there, the one that it stands for. *TeX: The Program*, part 24.
pub fn front_at(cats: &Cats, line: &[u8], at: usize) -> Option<Front>
    requires { at ≤ length line.now }
    ensures goes_on { GoesOn line.now at result }
    ensures begins { Begins (fronted (category_by cats.now) (drop at line.now)) line.now result }
{
    if at == line.len() {
        return None;
    }
    let mut front = Front {
        byte: line[at],
        behind: at + 1,
    };
    'notations: while let Some(stands) = notation(cats, line, front) {
        front = stands;
    }
    Some(front)
}

/// What a notation that begins with this byte stands for, where one does.
pub fn notation(cats: &Cats, line: &[u8], first: Front) -> Option<Front>
    requires { first.behind ≤ length line.now }
    ensures goes_on { GoesOn line.now first.behind result }
    ensures stands { noted (category_by cats.now) (from_front line.now first) ≡ from_found line.now result }
{
    let second = first.behind;
    if second == line.len() {
        return None;
    }
    if cats.of(first.byte) == Cat::Superscript && line[second] == first.byte {
        after_superscripts(line, second + 1)
    } else {
        None
    }
}

/// What the bytes after two equal superscripts stand for, if they stand for a byte.
fn after_superscripts(line: &[u8], at: usize) -> Option<Front>
    requires { at ≤ length line.now }
    ensures goes_on { GoesOn line.now at result }
    ensures stands { after_superscripts_of (drop at line.now) ≡ from_found line.now result }
{
    match &line[at..] {
        [] => None,
        [byte] => shifted_front(*byte, at + 1),
        [high, low, ..] => match hex_byte(*high, *low) {
            Some(byte) => Some(Front {
                byte,
                behind: at + 2,
            }),
            None => shifted_front(*high, at + 1),
        },
    }
}

/// The byte that two hex digits write.
fn hex_byte(high: u8, low: u8) -> Option<u8>
    ensures { result ≡ hex_byte_of (hex_value_of high) (hex_value_of low) }
{
    match (hex_value(high), hex_value(low)) {
        (Some(high), Some(low)) => Some(16 * high + low),
        _ => None,
    }
}

/// The value of a lower-case hex digit.
fn hex_value(byte: u8) -> Option<u8>
    ensures is { result ≡ hex_value_of byte }
    ensures small { IfSome result (λ value. value < 16) }
{
    match byte {
        b'0'..=b'9' => Some(byte - b'0'),
        b'a'..=b'f' => Some(byte - b'a' + 10),
        _ => None,
    }
}

/// What stands for this byte after two equal superscripts, before the bytes from that place on.
fn shifted_front(byte: u8, behind: usize) -> Option<Front>
    ensures stands { (line : List ℕ) → shifted_of byte (drop behind line) ≡ from_found line result }
    ensures behind { IfSome result (λ front. front.behind ≡ behind) }
{
    if byte < 64 {
        Some(Front {
            byte: byte + 64,
            behind,
        })
    } else if byte < 128 {
        Some(Front {
            byte: byte - 64,
            behind,
        })
    } else {
        None
    }
}
