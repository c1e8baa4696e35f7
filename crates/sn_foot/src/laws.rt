//! Laws of footprints and of their words.
ghost use Rattle.std.specs.Prelude.{◌≡◌, ◌<◌, ◌+◌, ◌∷◌, [], ℕ, List, Option, true};
ghost use Rattle.std.specs.List.{All};
ghost use Rattle.sn_mem.specs.declared.buffers.BufferPlace.{BufferPlace};
ghost use Rattle.sn_mem.specs.declared.extents.Extent.{Extent};
ghost use Rattle.sn_mem.specs.declared.extents.Foot.{Foot};
ghost use Rattle.sn_foot.specs.declared.reach.Reach.{Reach};
ghost use Rattle.sn_mem.specs.Words.{has, touches};
ghost use Rattle.sn_foot.specs.Reaches.{unmoved};
ghost use Rattle.sn_io.specs.ByFoot.{IsByFoot, IsPart};
ghost use Rattle.sn_tree.specs.Trees.{Label};
ghost use Rattle.sn_world.specs.WalkWords.{walk_words};
ghost use Rattle.sn_world.specs.declared.stage.Held.{Held};
ghost use Rattle.sn_foot.specs.Canonical.{IsCanonical};
ghost use Rattle.sn_foot.specs.Footprints.{AreItsWords, foot_of};
ghost use Rattle.sn_foot.specs.Suffices.{AreOfWorld, Suffices, held_by};

/// A law: the words of nodes are just those of the resources of their footprint and, among the writes, of their states;
/// and each list is the canonical one of its words.
pub fn foot_has_its_words()
    ensures words { (buffers : List (Option BufferPlace)) (hs : List Held) → AreItsWords buffers hs (foot_of buffers hs) }
    ensures canonical { (buffers : List (Option BufferPlace)) (hs : List Held) → IsCanonical (foot_of buffers hs).reads × IsCanonical (foot_of buffers hs).writes × IsCanonical (foot_of buffers hs).mixes }
{}

/// A law: two canonical lists of the same words are the same list.
pub fn one_canonical()
    ensures { (first second : List Extent) → IsCanonical first → IsCanonical second → ((x : ℕ) → has first x ≡ has second x) → first ≡ second }
{}

/// A law: a foot that has the words of some nodes of a world, and may write what they mix, suffices for each of them.
pub fn foot_suffices()
    ensures { (rate : ℕ) (region : Extent) (buffers : List (Option BufferPlace)) (hs : List Held) (reach : Reach) → AreOfWorld rate region buffers hs → AreItsWords buffers hs reach → All (Suffices (unmoved reach) buffers) hs }
{}

/// A law: so does a wider foot.
pub fn wider_foot_suffices()
    ensures { (part whole : Foot) (buffers : List (Option BufferPlace)) (h : Held) → IsPart part whole → Suffices part buffers h → Suffices whole buffers h }
{}

/// A law: a foot that has the words of some nodes, and may write what they mix, has those of each.
pub fn foot_has_each()
    ensures { (buffers : List (Option BufferPlace)) (hs : List Held) (reach : Reach) → AreItsWords buffers hs reach → All (λ h. IsPart (unmoved (foot_of buffers (h ∷ []))) (unmoved reach)) hs }
{}

/// A law: the words of some nodes of a world lie in those of the buses and of the pool.
pub fn foot_lies_in_memory()
    ensures { (rate : ℕ) (region : Extent) (buffers : List (Option BufferPlace)) (hs : List Held) (reach : Reach) (x : ℕ) → AreOfWorld rate region buffers hs → AreItsWords buffers hs reach → touches (unmoved reach) x ≡ true → x < region.at + region.len }
{}

/// A law: with a foot that suffices for some nodes of a world, what they make of words one after the other sees and
/// changes the foot alone.
pub fn nodes_run_by_foot()
    ensures { (rate b : ℕ) (region : Extent) (buffers : List (Option BufferPlace)) (foot : Foot) (ls : List (Label Held)) → AreOfWorld rate region buffers (held_by ls) → All (Suffices foot buffers) (held_by ls) → IsByFoot foot (walk_words rate b buffers ls) }
{}
