//! The places for lists.

ghost use Rattle.std.specs.Prelude.{◌≡◌, ◌≢◌, ◌+◌, ◌-◌, ◌<◌, ◌^◌, ◌++◌, ◌==◌, [], None, position, IsSome, IfOk, OnOk, OnErr};
ghost use Rattle.tx_store.specs.Steps.{count_of, content_of};
ghost use Rattle.tx_store.specs.Plain.{held_at, total, SlotHolds};

use std::alloc::AllocError;
use tx_tok::{Tok, Toks};

/// A place for a list, and how many references there are to it. Without any it is free.
#[derive(Debug, Drop)]
pub struct Slot {
    content: Toks,
    count: u32,
}

/// The place of a new list with one reference. The only error is want of memory, which changes nothing.
pub(crate) fn hold(slots: &mut Vec<Slot>, content: &[Tok]) -> Result<u64, AllocError>
    ensures free { IfOk result (λ id. held_at slots.old.items id ≡ None) }
    ensures ok { IfOk result (λ id. SlotHolds slots.old.items id content.now 1 (total slots.old.items + 1) slots.new.items) }
    ensures err { OnErr result (slots.new.items ≡ slots.old.items) }
{
    let slot = Slot {
        content: Toks(content.to_vec(*slots.allocator())?),
        count: 1,
    };
    match free_place(slots.as_slice()) {
        Some(place) => {
            slots[place] = slot;
            Ok(place as u64)
        }
        None => {
            let place = slots.as_slice().len();
            slots.push(slot)?;
            Ok(place as u64)
        }
    }
}

/// The first place that is free.
fn free_place(slots: &[Slot]) -> Option<usize>
    ensures { result ≡ position (λ slot. slot.count == 0) slots.now }
{
    slots.iter().position(|slot| slot.count == 0)
}

/// One reference more.
pub(crate) fn take(slots: &mut Vec<Slot>, id: u64)
    requires held { IsSome (held_at slots.old.items id) }
    requires room { total slots.old.items < 2 ^ 28 - 1 }
    ensures { SlotHolds slots.old.items id (content_of (held_at slots.old.items id)) (count_of (held_at slots.old.items id) + 1) (total slots.old.items + 1) slots.new.items }
{
    slots[id as usize].count += 1;
}

/// One reference less.
pub(crate) fn release(slots: &mut Vec<Slot>, id: u64)
    requires { IsSome (held_at slots.old.items id) }
    ensures { SlotHolds slots.old.items id (content_of (held_at slots.old.items id)) (count_of (held_at slots.old.items id) - 1) (total slots.old.items - 1) slots.new.items }
{
    slots[id as usize].count -= 1;
}

/// The list at a place.
pub(crate) fn content(slots: &[Slot], id: u64) -> &[Tok]
    requires { IsSome (held_at slots.now id) }
    ensures { result.now ≡ content_of (held_at slots.now id) }
{
    slots[id as usize].content.as_slice()
}
