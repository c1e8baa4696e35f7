//! A watch on the layout while messages act.
ghost use Rattle.std.specs.Prelude.{◌≡◌, true, List, ℕ};
ghost use Rattle.sn_osc.specs.Shape.{body_of, message_of};
ghost use Rattle.sn_reply.specs.Replies.{ReplyShape};
ghost use Rattle.sn_world.specs.Addresses.{command_of};
ghost use Rattle.sn_world.specs.World.{turn_of};
ghost use Rattle.sn_layout.specs.Leaving.{LeavesLayout, asked_leaves, holds_laid};

use crate::leaving::leaves_layout;
use sn_osc::Message;
use sn_world::Stage;

/// How many units are looked at in all. A watch that has looked at this many says that the layout may change.
const MOST_LOOKS: u32 = 262_144;

/// Whether the layout surely stays as it is while messages act.
#[derive(Clone, Copy, Debug)]
pub struct Watch {
    /// Whether it stayed so far.
    pub stays: bool,
    /// How many units may still be looked at.
    pub looks: u32,
}

impl Watch {
    /// A watch that has seen no message.
    pub fn new(stays: bool) -> Watch
        ensures { result.stays ≡ stays }
    {
        Watch {
            stays,
            looks: MOST_LOOKS,
        }
    }

    /// Whether the layout stayed so far, and a message surely leaves it.
    fn still_stays(&mut self, stage: &Stage, message: &Message) -> bool
        ensures so_far { result ≡ true → self.old.stays ≡ true }
        ensures leaves { result ≡ true → asked_leaves holds_laid stage.now.tree.attached (command_of message.now.address.bytes) (body_of message.now.body) ≡ true }
    {
        if !self.stays {
            return false;
        }
        leaves_layout(stage, message, &mut self.looks)
    }

    /// Sees a message that is about to act. If the layout stays, the message leaves it, and no completion
    /// message acts after it.
    pub fn see(&mut self, stage: &Stage, message: &Message)
        ensures so_far { self.new.stays ≡ true → self.old.stays ≡ true }
        ensures leaves { self.new.stays ≡ true → (words : List ℕ) (replies : List ReplyShape) → LeavesLayout (message_of message.now) (turn_of stage.now words replies) }
    {
        let stays = self.still_stays(stage, message);
        self.stays = stays;
    }
}
