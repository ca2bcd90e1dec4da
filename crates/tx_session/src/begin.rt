//! The beginning of a session.

ghost use Rattle.std.specs.Prelude.{◌≡◌, false, true, length, [], List};
ghost use Rattle.std.specs.List.{list_any};
ghost use Rattle.std.specs.Str.{bytes_eq};
ghost use Rattle.tx_eqtb.specs.Meanings.{meanings};
ghost use Rattle.tx_views.specs.Views.{IsView};
ghost use Rattle.tx_views.specs.Meanings.{map_in};
ghost use Rattle.tx_input.specs.Worlds.{IsOfFormat};
ghost use Rattle.tx_scene.specs.Scenes.{Ground, state_in};
ghost use Rattle.tx_store.specs.Sessions.{IsNew};
ghost use Rattle.tx_engine.specs.Standing.{IsReady, Serves};

use std::alloc::Global;
use tx_engine::{Engine, Phase};
use tx_format::Format;
use tx_store::Store;

/// The engine of a session that begins over a new store, in the state that the format stands for.
pub fn begin_session<S: Store>(alloc: Global, store: &S, format: &Format) -> Engine
    requires { IsNew format.now (S.session store.now) }
    ensures serves { Serves (S.session store.now) result }
    ensures ready { IsReady (meanings format.now.frozen) result }
    ensures phase { result.phase ≡ Phase.Idle }
    ensures preamble { result.preamble ≡ false }
    ensures state { (g : Ground) → IsView g.view → IsOfFormat g.formats g.view (length format.now.names) → state_in g (meanings format.now.frozen) result.run.scene ≡ record { map = map_in g.view (meanings format.now.frozen); frozen = λ text. list_any (bytes_eq text) g.formats; names = [] } }
{
    format.is_sound();
    Engine::new(alloc, format)
}
