//! Changes of maps from addresses that need no memory.

ghost use Rattle.std.specs.Prelude.{◌≡◌, ℕ, ◌∷◌, ◌++◌, [], ◌+◌, ◌<◌, ◌≤◌, None, Some, IsSome, IfSome, IfNone, length, sum_by};
ghost use Rattle.std.specs.Map.{values_of};
ghost use Rattle.indexmap.specs.IndexMap.{spare};
ghost use Rattle.tx_eqtb.specs.declared.addr.Addr.{Addr};
ghost use Rattle.tx_eqtb.specs.Addresses.{entry_at, update};

use crate::addr::Addr;
use indexmap::IndexMap;

/// Adds an entry at an address that has none.
pub(crate) fn add<V>(map: &mut IndexMap<Addr, V>, at: Addr, value: V)
    requires room { 0 < spare map.old }
    requires absent { entry_at map.old.entries at ≡ None }
    ensures entries { map.new.entries ≡ map.old.entries ++ (at, value) ∷ [] }
    ensures found { (q : Addr) → entry_at map.new.entries q ≡ update (entry_at map.old.entries) at (Some value) q }
    ensures spare { spare map.old ≤ spare map.new + 1 }
{
    if let Some(_) = map.insert(at, value).unwrap() {
        unreachable!()
    }
}

/// Puts a value in the place of the one at an address, and hands that one out.
pub(crate) fn replace<V>(map: &mut IndexMap<Addr, V>, at: Addr, value: V) -> V
    requires { IsSome (entry_at map.old.entries at) }
    ensures value { entry_at map.old.entries at ≡ Some result }
    ensures found { (q : Addr) → entry_at map.new.entries q ≡ update (entry_at map.old.entries) at (Some value) q }
    ensures sums { (f : V → ℕ) → sum_by f (values_of map.new.entries) + f result ≡ sum_by f (values_of map.old.entries) + f value }
{
    map.insert(at, value).unwrap().unwrap()
}

/// Takes the entry at an address out.
pub(crate) fn remove<V>(map: &mut IndexMap<Addr, V>, at: Addr) -> V
    requires { IsSome (entry_at map.old.entries at) }
    ensures value { entry_at map.old.entries at ≡ Some result }
    ensures found { (q : Addr) → entry_at map.new.entries q ≡ update (entry_at map.old.entries) at None q }
    ensures sums { (f : V → ℕ) → sum_by f (values_of map.new.entries) + f result ≡ sum_by f (values_of map.old.entries) }
{
    map.swap_remove(&at).unwrap()
}

/// Takes the last entry out.
pub(crate) fn pop<V>(map: &mut IndexMap<Addr, V>) -> Option<(Addr, V)>
    ensures none { IfNone result (map.old.entries ≡ []) }
    ensures unchanged { IfNone result (map.new.entries ≡ map.old.entries) }
    ensures value { IfSome result (λ p. entry_at map.old.entries p.0 ≡ Some p.1) }
    ensures found { IfSome result (λ p. (q : Addr) → entry_at map.new.entries q ≡ update (entry_at map.old.entries) p.0 None q) }
    ensures sums { IfSome result (λ p. (f : V → ℕ) → sum_by f (values_of map.new.entries) + f p.1 ≡ sum_by f (values_of map.old.entries)) }
    ensures fewer { IfSome result (λ p. length map.new.entries < length map.old.entries) }
{
    map.pop()
}
