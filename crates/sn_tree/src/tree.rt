//! The tree of nodes.
ghost use Rattle.std.specs.Prelude.{◌≡◌, ◌≤◌, ℕ, reverse, None, Some, IfOk, IfErr, OnOk, OnErr, ℤ, pos, false};
ghost use Rattle.std.specs.Option.{option_map, option_copied, option_copied_mut};
ghost use Rattle.std.specs.Borrow.{sem};
ghost use Rattle.sn_tree.specs.declared.node.NodeKind.TheVariants.{Group};
ghost use Rattle.sn_tree.specs.Trees.{none, count, holds, ids, next_after, first_of, children, label_of, leaf, running_labels, first_label, subtree, payloads, view_of};
ghost use Rattle.sn_tree.specs.Faults.{attach_fault, insert_fault, insert_fault_of, replace_fault, returned, detach_fault, move_fault, set_run_fault, fault_of};
ghost use Rattle.std.specs.List.{All};
ghost use Rattle.std.specs.Ordering.{int_eq};
ghost use Rattle.sn_ports.specs.Limits.{most_nodes};
ghost use Rattle.sn_tree.specs.declared.node.NodeView.{NodeView};
ghost use Rattle.sn_tree.specs.Steps.{AllDistinct, HasRoom, IsOpen, IsOpened, inserted, replaced, detached, attached, moved, running, undone, committed, freed};
ghost use Rattle.sn_tree.specs.Kept.{times};
ghost use Rattle.sn_tree.specs.Ordered.{fault_among, fault_in};
ghost use Rattle.sn_tree.specs.Views.{views_below};
ghost use Rattle.sn_tree.specs.Members.{members};
ghost use Rattle.sn_tree.specs.Below.{top_ids, synth_ids};
ghost use Rattle.sn_tree.specs.Reworking.{changed_below};
ghost use Rattle.sn_tree.specs.Tallies.{gathered};
ghost use Rattle.slab.specs.Slab.{get};

use crate::cursor::{first_id, list_tops};
use crate::members::Members;
use crate::node::{NodeKind, NodeView, Spot, TreeFault, Uninserted};
use crate::order::{Order, Refused};
use crate::payloads::{ChangePayload, change_rows};
use crate::reading::synths_in;
use crate::rows::Rows;
use crate::tally::{Tally, tally_rows};
use crate::walk::Walk;
use slab::Slab;
use sn_ports::NoMemory;
use std::alloc::Global;
use std::marker::Model;

/// A tree of synths and groups, each with a payload. The root is a group with id 0.
#[derive(Drop)]
pub struct Tree<P> {
    root: P,
    payloads: Slab<P>,
    order: Order,
}

impl<P> Model for Tree<P> {
    ghost use Rattle.sn_tree.specs.Model.{NodeTree, tree_code};

    ghost Value = { NodeTree P };

    ghost coded = { tree_code P.code };

    ghost use Rattle.sn_tree.specs.Kept.{shown, IsKept};

    ghost view = { λ t. shown t.root t.payloads.slots t.order.now t.order.saved };

    ghost invariant = { λ t. IsKept t.payloads.slots t.order.now t.order.saved };
}

/// Drops the payloads under these keys, and no other.
fn remove_all<P: Drop>(payloads: &mut Slab<P>, keys: Vec<usize>)
    ensures others { (key : ℕ) → times (Some key) (reverse keys.items) ≡ 0 → get payloads.new key ≡ get payloads.old key }
    ensures dropped { (key : ℕ) → 1 ≤ times (Some key) (reverse keys.items) → get payloads.new key ≡ None }
{
    let mut keys = keys;
    while let Some(key) = keys.pop() {
        payloads.try_remove(key);
    }
}

/// Why a node is not put in.
fn uninserted<P>(refused: Refused, payload: P) -> Uninserted<P>
    ensures fault { fault_in result ≡ fault_among refused }
    ensures returned { returned result ≡ payload }
{
    match refused {
        Refused::NoMemory => Uninserted::NoMemory(payload),
        Refused::Fault(fault) => Uninserted::Fault(fault, payload),
    }
}

/// Why a node is not put in if there is no room for its payload: its fault comes before `NoMemory`.
fn unreserved<P>(fault: Option<TreeFault>, payload: P) -> Uninserted<P>
    ensures fault { fault_in result ≡ fault }
    ensures returned { returned result ≡ payload }
{
    match fault {
        Some(fault) => Uninserted::Fault(fault, payload),
        None => Uninserted::NoMemory(payload),
    }
}

impl<P: Drop> Tree<P> {
    ghost use Rattle.sn_tree.specs.Lends.{lends_payload};

    /// The root alone, which runs.
    pub fn new(alloc: Global, root: P) -> Result<Tree<P>, NoMemory>
        ensures { IfOk result (λ t. t ≡ record { attached = leaf (pos 0) Group root; detached = none; journal = None }) }
    {
        let order = Order::new(alloc)?;
        let payloads = Slab::new(alloc);
        Ok(Tree {
            root,
            payloads,
            order,
        })
    }

    /// Why a new node can't be put at a spot, or `None` if nothing but `NoMemory` can refuse it.
    pub fn refusal(&self, id: i32, spot: Spot) -> Option<TreeFault>
        ensures { result ≡ insert_fault id spot.action spot.target self.now.attached }
    {
        self.order.refusal(id, spot)
    }

    /// Puts a new node, which runs, at a spot. Any number that no attached node has may be its id, -1 too, which stands
    /// for no node in a `NodeView`. A refusal changes nothing and hands the payload back.
    pub fn insert(
        &mut self,
        id: i32,
        kind: NodeKind,
        spot: Spot,
        payload: P,
    ) -> Result<(), Uninserted<P>>
        ensures fault { insert_fault_of result ≡ insert_fault id spot.action spot.target self.old.attached }
        ensures ok { OnOk result (self.new ≡ inserted id kind spot.action spot.target payload self.old) }
        ensures refused { OnErr result (self.new ≡ self.old) }
        ensures returned { IfErr result (λ u. returned u ≡ payload) }
    {
        match self.payloads.reserve(1) {
            Ok(()) => {}
            Err(_) => return Err(unreserved(self.order.refusal(id, spot), payload)),
        }
        let key = self.payloads.vacant_key();
        match self.order.insert(id, kind, spot, key) {
            Ok(()) => {
                let _ = self.payloads.insert_reserved(payload);
                Ok(())
            }
            Err(refused) => Err(uninserted(refused, payload)),
        }
    }

    /// Why a new node can't take the place of another, or `None` if nothing but `NoMemory` can refuse it.
    pub fn refusal_to_replace(&self, id: i32, target: i32) -> Option<TreeFault>
        ensures { result ≡ replace_fault id target self.now.attached }
    {
        self.order.refusal_to_replace(id, target)
    }

    /// Puts a new node, which runs, in the place of the target. That one is taken out with all below it and kept aside,
    /// after what was detached before. A refusal changes nothing and hands the payload back.
    pub fn replace(
        &mut self,
        id: i32,
        kind: NodeKind,
        target: i32,
        payload: P,
    ) -> Result<(), Uninserted<P>>
        requires room { HasRoom self.old.journal }
        ensures fault { insert_fault_of result ≡ replace_fault id target self.old.attached }
        ensures ok { OnOk result (self.new ≡ replaced id kind target payload self.old) }
        ensures refused { OnErr result (self.new ≡ self.old) }
        ensures returned { IfErr result (λ u. returned u ≡ payload) }
    {
        match self.payloads.reserve(1) {
            Ok(()) => {}
            Err(_) => {
                return Err(unreserved(self.order.refusal_to_replace(id, target), payload));
            }
        }
        let key = self.payloads.vacant_key();
        match self.order.replace(id, kind, target, key) {
            Ok(()) => {
                let _ = self.payloads.insert_reserved(payload);
                Ok(())
            }
            Err(refused) => Err(uninserted(refused, payload)),
        }
    }

    /// Takes a node and all below it out of the tree, and keeps them aside, after what was detached before. It takes no
    /// memory. A refusal changes nothing.
    pub fn detach(&mut self, id: i32) -> Result<(), TreeFault>
        requires room { HasRoom self.old.journal }
        ensures fault { fault_of result ≡ detach_fault id self.old.attached }
        ensures ok { OnOk result (self.new ≡ detached id self.old) }
        ensures refused { OnErr result (self.new ≡ self.old) }
    {
        self.order.detach(id)
    }

    /// Puts a detached node back in at a spot, with all below it: of those with this id the one that was detached last.
    /// It takes no memory. A refusal changes nothing.
    pub fn attach(&mut self, id: i32, spot: Spot) -> Result<(), TreeFault>
        requires room { HasRoom self.old.journal }
        ensures fault { fault_of result ≡ attach_fault id spot.action spot.target self.old.attached self.old.detached }
        ensures ok { OnOk result (self.new ≡ attached id spot.action spot.target self.old) }
        ensures refused { OnErr result (self.new ≡ self.old) }
    {
        self.order.attach(id, spot)
    }

    /// Takes a node with all below it out and puts it in at a spot. It takes no memory. A refusal changes nothing.
    pub fn move_to(&mut self, id: i32, spot: Spot) -> Result<(), TreeFault>
        requires room { HasRoom self.old.journal }
        ensures fault { fault_of result ≡ move_fault id spot.action spot.target self.old.attached }
        ensures ok { OnOk result (self.new ≡ moved id spot.action spot.target self.old) }
        ensures refused { OnErr result (self.new ≡ self.old) }
    {
        self.order.move_to(id, spot)
    }

    /// Sets the run flag of an attached node. It takes no memory. A refusal changes nothing.
    pub fn set_run(&mut self, id: i32, on: bool) -> Result<(), TreeFault>
        requires room { HasRoom self.old.journal }
        ensures fault { fault_of result ≡ set_run_fault id self.old.attached }
        ensures ok { OnOk result (self.new ≡ running id on self.old) }
        ensures refused { OnErr result (self.new ≡ self.old) }
    {
        self.order.set_run(id, on)
    }

    /// Opens a journal with room for `steps` calls of `replace`, `detach`, `attach`, `move_to` and `set_run`. After
    /// `NoMemory` the tree is as it was.
    pub fn begin(&mut self, steps: u32) -> Result<(), NoMemory>
        requires closed { self.old.journal ≡ None }
        ensures ok { OnOk result (IsOpened steps self.old self.new) }
        ensures err { OnErr result (self.new ≡ self.old) }
    {
        self.order.begin(steps)
    }

    /// Restores the nodes as they were when the open journal was opened, and drops the payloads that were put in since.
    /// What was written through `payload_mut` stays. It takes no memory.
    pub fn undo(&mut self)
        requires open { IsOpen self.old.journal }
        ensures { self.new ≡ undone self.old }
    {
        match self.order.undo() {
            Some(made) => remove_all(&mut self.payloads, made),
            None => {}
        }
    }

    /// Closes the open journal, and keeps what was done.
    pub fn commit(&mut self)
        requires open { IsOpen self.old.journal }
        ensures { self.new ≡ committed self.old }
    {
        self.order.commit();
    }

    /// Ends one detached node and gives its payload, in the order of detaching and then of the walk. Those just below
    /// it then stand by themselves. If nothing is detached, it gives none. It takes no memory.
    pub fn free(&mut self) -> Option<P>
        requires closed { self.old.journal ≡ None }
        ensures value { result ≡ option_map (λ l. l.payload) (first_label self.old.detached) }
        ensures rest { self.new ≡ freed self.old }
    {
        match self.order.free() {
            None => None,
            // The root, which is never detached.
            Some(None) => None,
            Some(Some(key)) => self.payloads.try_remove(key),
        }
    }

    /// The payload of an attached node.
    pub fn payload(&self, id: i32) -> Option<&P>
        ensures { option_copied result ≡ option_map (λ l. l.payload) (label_of id self.now.attached) }
    {
        match self.order.key_of(id) {
            None => None,
            Some(None) => Some(&self.root),
            Some(Some(key)) => self.payloads.get(key),
        }
    }

    /// The payload of an attached node, as `payload` gives it. The node is looked for at place `near` of an index by ids
    /// first, and `near` then becomes the place after it: so nodes whose ids rise are found without a search. Whatever
    /// `near` is, the payload is the same.
    pub fn payload_near(&self, id: i32, near: &mut usize) -> Option<&P>
        ensures { option_copied result ≡ option_map (λ l. l.payload) (label_of id self.now.attached) }
    {
        match self.order.key_near(id, near) {
            None => None,
            Some(None) => Some(&self.root),
            Some(Some(key)) => self.payloads.get(key),
        }
    }

    /// The payload of an attached node, for writing. What is written through it becomes that node's payload, and all
    /// else stays as it was.
    pub fn payload_mut(&mut self, id: i32) -> Option<&mut P>
        ensures* writes_back { sem 𝓛 (lends_payload P.row self.entry id result) }
        ensures value { option_copied_mut result ≡ option_map (λ l. l.payload) (label_of id self.old.attached) }
    {
        match self.order.key_of(id) {
            None => None,
            Some(None) => Some(&mut self.root),
            Some(Some(key)) => self.payloads.get_mut(key),
        }
    }

    /// Changes the payload of an attached node and of each node below it. If no such node is attached, nothing changes.
    pub fn change_below<C: ChangePayload<P>>(&mut self, id: i32, change: &C)
        requires closed { self.old.journal ≡ None }
        ensures { self.new ≡ changed_below (C.changed change.now) id self.old }
    {
        let rows = Rows::new(self.order.cursor(id));
        change_rows(&mut self.root, &mut self.payloads, rows, change);
    }

    /// The walk over the running nodes: a node comes before those below it, and these before those after it.
    /// What is below a paused node is left out with it.
    pub fn walk(&self) -> Walk<'_, P>
        ensures { result ≡ running_labels self.now.attached }
    {
        Walk {
            root: &self.root,
            payloads: &self.payloads,
            rest: self.order.cursor(0),
        }
    }

    /// The walk over an attached node and all below it. Those that are paused are left out, with what is below them. If
    /// no such node is attached, it reaches none.
    pub fn walk_at(&self, id: i32) -> Walk<'_, P>
        ensures { result ≡ running_labels (subtree id self.now.attached) }
    {
        Walk {
            root: &self.root,
            payloads: &self.payloads,
            rest: self.order.cursor(id),
        }
    }

    /// Goes over the payloads of all attached nodes, in the order of the walk.
    pub fn tally<T: Tally<P>>(&self, tally: &mut T)
        ensures { tally.new ≡ gathered T.with_one tally.old (payloads self.now.attached) }
    {
        let rows = Rows::new(self.order.cursor(0));
        tally_rows(&self.root, &self.payloads, rows, tally);
    }

    /// An attached node as it stands in the tree.
    pub fn node(&self, id: i32) -> Option<NodeView>
        ensures { result ≡ view_of id self.now.attached }
    {
        self.order.node(id)
    }

    /// An attached node and all below it as they stand in the tree, by their ids, in the order of the walk. If no such
    /// node is attached, there are none.
    pub fn views(&self, id: i32) -> Result<Vec<(i32, NodeView)>, NoMemory>
        ensures { IfOk result (λ views. views.items ≡ views_below id self.now.attached) }
    {
        self.order.views(id)
    }

    /// An attached node and all nodes below it, running or not, in the order of the walk. If no such node is attached,
    /// there are none.
    pub fn members(&self, id: i32) -> Members<'_, P>
        ensures { result ≡ members (subtree id self.now.attached) }
    {
        Members {
            root: &self.root,
            payloads: &self.payloads,
            rest: self.order.cursor(id),
        }
    }

    /// The first child of an attached group.
    pub fn first(&self, group: i32) -> Option<i32>
        ensures { result ≡ first_of (children group self.now.attached) }
    {
        first_id(&self.order.cursor(group).below())
    }

    /// The ids of the nodes just below an attached one, from the head on.
    pub fn children(&self, id: i32) -> Result<Vec<i32>, NoMemory>
        ensures { IfOk result (λ found. found.items ≡ top_ids (children id self.now.attached)) }
    {
        list_tops(self.order.alloc(), self.order.cursor(id).below())
    }

    /// The ids of all synths below an attached node, in the order of the walk.
    pub fn synths_below(&self, id: i32) -> Result<Vec<i32>, NoMemory>
        ensures { IfOk result (λ found. found.items ≡ synth_ids (children id self.now.attached)) }
    {
        let rows = Rows::new(self.order.cursor(id).below());
        synths_in(self.order.alloc(), rows)
    }

    /// The node after an attached one in the order of the walk: a node comes before those below it, and these before
    /// those after it.
    pub fn next_in_walk(&self, id: i32) -> Option<i32>
        ensures { result ≡ next_after id (ids self.now.attached) }
    {
        self.order.next_of(id)
    }

    /// A law: no two attached nodes have the same id.
    pub fn ids_are_distinct(&self)
        ensures { AllDistinct int_eq (ids self.now.attached) }
    {
        let _ = &self.order;
    }

    /// A law: all attached nodes are the root and those below it.
    pub fn root_holds_all(&self)
        ensures { subtree (pos 0) self.now.attached ≡ self.now.attached }
    {
        let _ = &self.order;
    }

    /// A law: the root is attached, and is a group.
    pub fn root_is_a_group(&self)
        ensures { option_map (λ l. l.kind) (label_of (pos 0) self.now.attached) ≡ Some Group }
    {
        let _ = &self.order;
    }

    /// A law: the root lies below no node.
    pub fn root_is_on_top(&self, id: i32)
        ensures { holds (pos 0) (children id self.now.attached) ≡ false }
    {
        let _ = &self.order;
    }

    /// A law: what `views` lists of a node is what `node` says of it.
    pub fn views_agree(&self, id: i32)
        ensures { All (λ (v : ℤ × NodeView). view_of v.0 self.now.attached ≡ Some v.1) (views_below id self.now.attached) }
    {
        let _ = &self.order;
    }

    /// How many nodes are attached, the root among them: 1 to 4,096.
    pub fn len(&self) -> u32
        ensures value { result ≡ count self.now.attached }
        ensures some { 1 ≤ result }
        ensures bound { result ≤ most_nodes }
    {
        self.order.len() as u32
    }
}
