//! A law of what a connection gives.
ghost use Rattle.std.specs.Prelude.{◌≡◌, ◌<◌, ◌+◌, ◌∷◌, ◌++◌, ℕ, List, length};
ghost use Rattle.sn_ports.specs.Limits.{most_count};
ghost use Rattle.sn_pcm.specs.declared.settings.Settings.{Settings};
ghost use Rattle.sn_ports.specs.Links.{LinkEvent, bytes};
ghost use Rattle.sn_server.specs.PlayEvents.{bytes_in, play_events};

/// Joining two neighbouring pieces of what comes changes nothing, while fewer than 2^62 bytes came before the second.
pub fn joined_pieces()
    ensures { (s : Settings) (base : ℕ) (es fs : List LinkEvent) (a b : List ℕ) → bytes_in es + length a < most_count
        → play_events s base (es ++ bytes a ∷ bytes b ∷ fs) ≡ play_events s base (es ++ bytes (a ++ b) ∷ fs) }
{}
