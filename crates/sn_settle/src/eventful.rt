//! The synths of which triggers or ends may come when a block is settled.
ghost use Rattle.std.specs.Prelude.{◌≡◌, ◌++◌, map, IfOk, OnOk};
ghost use Rattle.sn_settle.specs.Eventful.{IsEventfulOf, eventful_held, synth_at};

use crate::room::{held_room, settling_room};
use sn_def::Def;
use sn_mem::Extent;
use sn_ports::NoMemory;
use sn_world::{Held, Stage};
use std::alloc::Global;
use std::sync::Arc;

/// A synth of which triggers or ends may come.
#[derive(Drop)]
pub struct EventfulSynth {
    /// Its node.
    pub node: i32,
    /// Its definition.
    pub def: Arc<Def, Global>,
    /// Where the words of its units' states are.
    pub state: Extent,
}

/// The synths of a stage that run and of which triggers or ends may come, in the order of the walk. They stay the same
/// while the nodes and their run flags do.
#[derive(Drop)]
pub struct Eventful {
    synths: Vec<EventfulSynth>,
    // How many triggers and ends may come of a block.
    room: u32,
}

/// Appends the synth of a node, if triggers or ends may come of it.
fn put(synths: &mut Vec<EventfulSynth>, node: &i32, held: &Held) -> Result<(), NoMemory>
    ensures { OnOk result (map synth_at synths.new.items ≡ map synth_at synths.old.items ++ eventful_held node.now held.now) }
{
    if held_room(held) == 0 {
        return Ok(());
    }
    match held {
        Held::Group => Ok(()),
        Held::Synth { def, state, .. } => {
            let def = Arc::try_clone(def)?;
            let synth = EventfulSynth {
                node: *node,
                def,
                state: *state,
            };
            synths.push(synth)?;
            Ok(())
        }
    }
}

impl Eventful {
    /// No synths.
    pub fn nothing(alloc: Global) -> Self {
        Eventful {
            synths: Vec::new(alloc),
            room: 0,
        }
    }

    /// Those of a stage.
    pub fn of(alloc: Global, stage: &Stage) -> Result<Self, NoMemory>
        ensures { IfOk result (IsEventfulOf stage.now) }
    {
        let mut synths = Vec::new(alloc);
        for visit in stage.tree.walk() {
            put(&mut synths, &visit.id, visit.payload)?;
        }
        let room = settling_room(stage);
        Ok(Eventful { synths, room })
    }

    /// How many triggers and ends may come of a block.
    pub fn room(&self) -> u32
        ensures { result ≡ self.now.room }
    {
        self.room
    }

    /// The synths in order.
    pub(crate) fn as_slice(&self) -> &[EventfulSynth]
        ensures { result.now ≡ self.now.synths.items }
    {
        &self.synths
    }
}
