//! A fact on plain stores, for callers.

ghost use Rattle.tx_scene.specs.Scenes.{Ground};
ghost use Rattle.tx_store.specs.Plain.{session_of};
ghost use Rattle.tx_engine.specs.Agreement.{Agrees};

use tx_store::{PlainStore, Store};

/// A fact for callers; it does nothing. Some reading of the numbers agrees with what the session of a plain store knows
/// and holds.
pub fn has_reading(store: &PlainStore)
    ensures { (g : Ground) × Agrees (session_of store.now) g }
{
    store.is_sound();
}
