//! What a master's frame has for each slave of a ring, as octets give it, and what the frame's return or loss makes of each life. No running
//! code: each function here does nothing, and its contract states a law.

ghost use Rattle.std.specs.Prelude.{◌≡◌, ◌++◌, ◌∷◌, [], ℕ, List};
ghost use Rattle.al_state.specs.of_datagrams.Datagram as Raw;
ghost use Rattle.life_model.specs.Lives.{Spot};
ghost use Rattle.frame_view.specs.Frames.{IsNotFor, AllNotFor};

/// A frame without a datagram for a slave has none either once another slave's stands behind it.
pub fn none_law()
    ensures { (spot : Spot) (ds : List Raw.Datagram) (d : Raw.Datagram) → AllNotFor spot ds → IsNotFor spot d → AllNotFor spot (ds ++ d ∷ []) }
{}
