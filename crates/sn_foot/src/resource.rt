//! What units use besides their own states.
ghost use Rattle.std.specs.Prelude.{◌≡◌};
ghost use Rattle.sn_foot.specs.declared.resource.Resource.TheVariants as resources;
ghost use Rattle.sn_foot.specs.Footprints.{is_there};
ghost use Rattle.sn_foot.specs.Putting.{resource};

use sn_def::Bank;
use sn_mem::Buffers;
use sn_ports::limits::{AUDIO_BUS_COUNT, BUFFER_COUNT, CONTROL_BUS_COUNT};

/// An audio bus, a control bus or a buffer, by its number.
#[derive(Clone, Copy, Debug, PartialEq, Eq)]
pub enum Resource {
    /// An audio bus, 0 to 127.
    Audio(u32),
    /// A control bus, 0 to 1,023.
    Control(u32),
    /// A buffer, 0 to 1,023, that is allocated.
    Buffer(u32),
}

/// Whether there is a buffer of a number.
fn is_allocated(buffers: &Buffers, number: u32) -> bool
    ensures { result ≡ is_there buffers.now (resources.Buffer number) }
{
    number < BUFFER_COUNT && buffers.place(number).is_some()
}

impl Resource {
    /// The one of a bank that has this number.
    pub fn of(bank: Bank, number: u32) -> Resource
        ensures { result ≡ resource bank number }
    {
        match bank {
            Bank::Audio => Resource::Audio(number),
            Bank::Control => Resource::Control(number),
            Bank::Buffer => Resource::Buffer(number),
        }
    }

    /// Whether there is such a bus, or such a buffer is allocated.
    pub fn is_there(self, buffers: &Buffers) -> bool
        ensures { result ≡ is_there buffers.now self }
    {
        match self {
            Resource::Audio(number) => number < AUDIO_BUS_COUNT,
            Resource::Control(number) => number < CONTROL_BUS_COUNT,
            Resource::Buffer(number) => is_allocated(buffers, number),
        }
    }
}
