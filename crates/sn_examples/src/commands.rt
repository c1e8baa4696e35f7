//! What commands do in a world that was just opened.
#![tactic(auto, unfolding(sn_fixed::specs::Literal::literal, sn_def::specs::Reading::defaults_at, sn_world::specs::Addresses::command_of, sn_world::specs::Opening::opening))]

ghost use Rattle.std.specs.Prelude.{◌≡◌, [], ◌∷◌, pos};
ghost use Rattle.sn_examples.specs.Values.{samples};
ghost use Rattle.sn_examples.specs.Commanding.{called, saying, answers, bus_after, nodes_after};

/// `/c_set` sets buses, and is not answered. `/c_get` asks for values, of which all are 0 at first.
pub fn control_buses()
    ensures set { bus_after (called "/c_set" "3 5" ∷ []) (pos 3) ≡ pos 5 }
    ensures silent { answers (called "/c_set" "3 5" ∷ []) ≡ [] }
    ensures get { answers (called "/c_set" "3 5" ∷ called "/c_get" "3 4" ∷ []) ≡ called "/c_set" "3 5 4 0" ∷ [] }
    ensures run { answers (called "/c_setn" "3 2 7 8" ∷ called "/c_get" "2 3 4 5" ∷ []) ≡ called "/c_set" "2 0 3 7 4 8 5 0" ∷ [] }
{}

/// An address that calls no command, and arguments that are none of its command, are refused.
pub fn refusals()
    ensures unknown { answers (called "/nothing" "1" ∷ []) ≡ saying "/fail" ("/nothing" ∷ "unknown command" ∷ []) ∷ [] }
    ensures odd { answers (called "/c_set" "3" ∷ []) ≡ saying "/fail" ("/c_set" ∷ "arguments" ∷ []) ∷ [] }
    ensures node { answers (called "/n_free" "7" ∷ []) ≡ saying "/fail" ("/n_free" ∷ "no such node" ∷ []) ∷ [] }
    ensures bus { answers (called "/c_set" "3 5 1024 6" ∷ []) ≡ saying "/fail" ("/c_set" ∷ "bus" ∷ []) ∷ [] }
    ensures unchanged { bus_after (called "/c_set" "3 5 1024 6" ∷ []) (pos 3) ≡ pos 0 }
{}

/// `/sync` is answered by its number.
pub fn sync()
    ensures { answers (called "/sync" "7" ∷ []) ≡ called "/synced" "7" ∷ [] }
{}

/// `/g_new` puts groups at the head of the root or at its tail; the server chooses an id for -1.
pub fn new_groups()
    ensures tail { nodes_after (called "/g_new" "1 1 0 2 1 0 3 1 0" ∷ []) ≡ samples "0 1 2 3" }
    ensures head { nodes_after (called "/g_new" "1 0 0 2 0 0 3 0 0" ∷ []) ≡ samples "0 3 2 1" }
    ensures below { nodes_after (called "/g_new" "1 1 0 2 1 0 3 1 1" ∷ []) ≡ samples "0 1 3 2" }
    ensures chosen { nodes_after (called "/g_new" "-1 1 0 -1 1 0" ∷ []) ≡ samples "0 -2 -3" }
{}

/// Three groups after a node went before another one, after it, or to the head of a group; a node goes with all below
/// it.
pub fn moves()
    ensures before { nodes_after (called "/g_new" "1 1 0 2 1 0 3 1 0" ∷ called "/n_before" "3 1" ∷ []) ≡ samples "0 3 1 2" }
    ensures after { nodes_after (called "/g_new" "1 1 0 2 1 0 3 1 0" ∷ called "/n_after" "1 3" ∷ []) ≡ samples "0 2 3 1" }
    ensures head { nodes_after (called "/g_new" "1 1 0 2 1 0 3 1 2" ∷ called "/g_head" "0 2" ∷ []) ≡ samples "0 2 3 1" }
    ensures inside { answers (called "/g_new" "1 1 0 2 1 1" ∷ called "/n_before" "1 2" ∷ []) ≡ saying "/fail" ("/n_before" ∷ "inside itself" ∷ []) ∷ [] }
{}

/// `/n_free` frees a node and all below it, and `/g_freeAll` all below a group.
pub fn ends()
    ensures free { nodes_after (called "/g_new" "1 1 0 2 1 1 3 1 0" ∷ called "/n_free" "1" ∷ []) ≡ samples "0 3" }
    ensures below { nodes_after (called "/g_new" "1 1 0 2 1 1 3 1 0" ∷ called "/g_freeAll" "1" ∷ []) ≡ samples "0 1 3" }
{}
