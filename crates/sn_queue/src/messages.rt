ghost use Rattle.std.specs.Prelude.{◌≡◌, List};

use sn_osc::Message;
use std::marker::Model;

/// A list of messages.
#[derive(Debug, Drop)]
pub struct Messages {
    items: Vec<Message>,
}

impl Model for Messages {
    ghost use Rattle.std.specs.Prelude.{List};
    ghost use Rattle.sn_osc.specs.declared.packet.Message.{Message};

    ghost Value = { List Message };

    ghost view = { λ m. m.items.items };
}

impl Messages {
    /// The messages of a vector.
    pub fn from_vec(items: Vec<Message>) -> Self
        ensures { result ≡ items.items }
    {
        Messages { items }
    }

    /// The messages, in order.
    pub fn as_slice(&self) -> &[Message]
        ensures { result.now ≡ self.now }
    {
        &self.items
    }

    /// The messages, as a vector.
    pub fn into_vec(self) -> Vec<Message>
        ensures { result.items ≡ self }
    {
        self.items
    }
}
