//! Where nodes can be put, and why they can't.
ghost use Rattle.std.specs.Prelude.{◌≡◌, ◌≤◌, ◌&&◌, None, Some, [], ◌∷◌, MatchResult};
ghost use Rattle.sn_forest.specs.Walking.{behind_tree};
ghost use Rattle.sn_tree.specs.declared.node.TreeFault.TheVariants.{IsRoot, NotGroup};
ghost use Rattle.sn_tree.specs.Faults.{first_fault, spot_fault, insert_fault, replace_fault, detach_fault, move_fault, attach_fault, is_beside_root, is_inside, is_synth};
ghost use Rattle.sn_tree.specs.Keyed.{labels, front, named, placed};
ghost use Rattle.sn_tree.specs.Stored.{IsSpot, IsMovable, IsAttachable};

use crate::node::{AddAction, NodeKind, Spot, TreeFault};
use crate::store::Store;
use sn_forest::Place;
use sn_ports::limits::MOST_NODES;

/// Whether it is the kind of a synth.
fn is_synth(kind: NodeKind) -> bool
    ensures { result ≡ is_synth kind }
{
    match kind {
        NodeKind::Synth => true,
        NodeKind::Group | NodeKind::Parallel => false,
    }
}

fn is_inside(action: AddAction) -> bool
    ensures { result ≡ is_inside action }
{
    match action {
        AddAction::Head | AddAction::Tail => true,
        AddAction::Before | AddAction::After => false,
    }
}

/// Why no new node can be put at such a spot at an attached target of this kind.
fn fault_at(kind: NodeKind, spot: Spot) -> Option<TreeFault>
    ensures { result ≡ first_fault ((is_beside_root spot.action spot.target, IsRoot) ∷ (is_inside spot.action && is_synth kind, NotGroup) ∷ []) }
{
    let inside = is_inside(spot.action);
    if !inside && spot.target == 0 {
        return Some(TreeFault::IsRoot);
    }
    if inside && is_synth(kind) {
        return Some(TreeFault::NotGroup);
    }
    None
}

/// The place of a spot, by its target's key.
fn place_at(action: AddAction, key: usize) -> Place
    ensures { result ≡ placed action key }
{
    match action {
        AddAction::Head => Place::First(key),
        AddAction::Tail => Place::Last(key),
        AddAction::Before => Place::Before(key),
        AddAction::After => Place::After(key),
    }
}

impl Store {
    /// The place of a spot, whose target has this key, or why nothing can be put there.
    fn place_by(&self, spot: Spot, key: usize) -> Result<Place, TreeFault>
        requires { 1 ≤ named spot.target key (front self.now) }
        ensures { MatchResult result (λ place. (spot_fault spot.action spot.target (labels (front self.now)) ≡ None) × (place ≡ placed spot.action key)) (λ fault. spot_fault spot.action spot.target (labels (front self.now)) ≡ Some fault) }
    {
        self.keys_differ();
        self.is_sound();
        let Some(item) = self.item(key) else {
            return Err(TreeFault::NoNode);
        };
        match fault_at(item.kind, spot) {
            Some(fault) => Err(fault),
            None => Ok(place_at(spot.action, key)),
        }
    }

    /// The place of a spot, or why nothing can be put there.
    fn place_of(&self, spot: Spot) -> Result<Place, TreeFault>
        ensures { MatchResult result (λ place. (spot_fault spot.action spot.target (labels (front self.now)) ≡ None) × IsSpot self.now spot.action spot.target place) (λ fault. spot_fault spot.action spot.target (labels (front self.now)) ≡ Some fault) }
    {
        match self.find(spot.target) {
            Some(key) => self.place_by(spot, key),
            None => Err(TreeFault::NoNode),
        }
    }

    /// Where a new node goes, or why it can't be put.
    pub fn place_for_new(&self, id: i32, spot: Spot) -> Result<Place, TreeFault>
        ensures { MatchResult result (λ place. (insert_fault id spot.action spot.target (labels (front self.now)) ≡ None) × IsSpot self.now spot.action spot.target place) (λ fault. insert_fault id spot.action spot.target (labels (front self.now)) ≡ Some fault) }
    {
        if self.find(id).is_some() {
            return Err(TreeFault::InUse);
        }
        let place = match self.place_of(spot) {
            Ok(place) => place,
            Err(fault) => return Err(fault),
        };
        if self.len() >= MOST_NODES {
            return Err(TreeFault::TooMany);
        }
        Ok(place)
    }

    /// The key of the node whose place a new one takes, or why it can't.
    pub fn target_to_replace(&self, id: i32, target: i32) -> Result<usize, TreeFault>
        ensures { MatchResult result (λ key. (replace_fault id target (labels (front self.now)) ≡ None) × (1 ≤ named target key (front self.now))) (λ fault. replace_fault id target (labels (front self.now)) ≡ Some fault) }
    {
        if self.find(id).is_some() {
            return Err(TreeFault::InUse);
        }
        self.detachable(target)
    }

    /// The key of a node that can be taken out.
    pub fn detachable(&self, id: i32) -> Result<usize, TreeFault>
        ensures { MatchResult result (λ key. (detach_fault id (labels (front self.now)) ≡ None) × (1 ≤ named id key (front self.now))) (λ fault. detach_fault id (labels (front self.now)) ≡ Some fault) }
    {
        let Some(key) = self.find(id) else {
            return Err(TreeFault::NoNode);
        };
        if id == 0 {
            return Err(TreeFault::IsRoot);
        }
        Ok(key)
    }

    /// The key of a node that can be moved to this spot, and the spot's place.
    pub fn movable(&self, id: i32, spot: Spot) -> Result<(usize, Place), TreeFault>
        ensures { MatchResult result (λ found. (move_fault id spot.action spot.target (labels (front self.now)) ≡ None) × IsMovable self.now id spot.action spot.target found.0 found.1) (λ fault. move_fault id spot.action spot.target (labels (front self.now)) ≡ Some fault) }
    {
        self.keys_differ();
        self.is_sound();
        let Some(key) = self.find(id) else {
            return Err(TreeFault::NoNode);
        };
        let Some(target) = self.find(spot.target) else {
            return Err(TreeFault::NoNode);
        };
        if id == 0 {
            return Err(TreeFault::IsRoot);
        }
        let place = match self.place_by(spot, target) {
            Ok(place) => place,
            Err(fault) => return Err(fault),
        };
        if self.is_inside(target, key) {
            return Err(TreeFault::Inside);
        }
        Ok((key, place))
    }

    /// The key of the detached subtree that can be put at this spot, and the spot's place.
    pub fn attachable(&self, id: i32, spot: Spot) -> Result<(usize, Place), TreeFault>
        ensures { MatchResult result (λ found. (attach_fault id spot.action spot.target (labels (front self.now)) (labels (behind_tree self.now)) ≡ None) × IsAttachable self.now id spot.action spot.target found.0 found.1) (λ fault. attach_fault id spot.action spot.target (labels (front self.now)) (labels (behind_tree self.now)) ≡ Some fault) }
    {
        self.keys_differ();
        self.is_sound();
        let Some(key) = self.last_top(id) else {
            return Err(TreeFault::NoNode);
        };
        let Some(count) = self.newcomers(key) else {
            return Err(TreeFault::InUse);
        };
        let place = match self.place_of(spot) {
            Ok(place) => place,
            Err(fault) => return Err(fault),
        };
        let room = 4096_usize.saturating_sub(self.len());
        if count > room {
            return Err(TreeFault::TooMany);
        }
        Ok((key, place))
    }
}
