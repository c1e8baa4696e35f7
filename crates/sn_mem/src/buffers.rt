//! Where the buffers are.
ghost use Rattle.std.specs.Prelude.{◌≡◌, ◌<◌, None, length, replicate, slice_index_or, slice_set, IfOk};
ghost use Rattle.sn_ports.specs.Limits.{buffer_count};

use crate::extents::Extent;
use sn_ports::NoMemory;
use sn_ports::limits::BUFFER_COUNT;
use std::alloc::Global;
use std::marker::Model;

/// Where a buffer's samples stand, frame by frame. Its users ask for 1 to 8 channels, at least one
/// frame, and a word for each sample.
#[derive(Clone, Copy)]
pub struct BufferPlace {
    /// The words of its samples.
    pub extent: Extent,
    /// The number of its frames.
    pub frames: u32,
    /// The number of samples in a frame.
    pub channels: u32,
}

/// The place of each buffer that is allocated, by its number.
#[derive(Drop)]
pub struct Buffers {
    places: Vec<Option<BufferPlace>>,
}

impl Model for Buffers {
    ghost use Rattle.std.specs.Prelude.{List, Option};
    ghost use Rattle.sn_mem.specs.declared.buffers.BufferPlace.{BufferPlace};

    ghost Value = { List (Option BufferPlace) };

    ghost view = { λ b. b.places.items };
}

/// `numbers` numbers without a buffer.
fn none_allocated(alloc: Global, numbers: u32) -> Result<Vec<Option<BufferPlace>>, NoMemory>
    ensures { IfOk result (λ places. places.items ≡ replicate numbers None) }
{
    Ok(vec![in alloc; None; numbers as usize]?)
}

impl Buffers {
    /// No buffer is allocated.
    pub fn new(alloc: Global) -> Result<Buffers, NoMemory>
        ensures { IfOk result (λ b. b ≡ replicate buffer_count None) }
    {
        Ok(Buffers {
            places: none_allocated(alloc, BUFFER_COUNT)?,
        })
    }

    /// Where a buffer is, or `None` if none is allocated by this number.
    pub fn place(&self, number: u32) -> Option<BufferPlace>
        ensures { result ≡ slice_index_or self.now number None }
    {
        self.places.get(number as usize).copied().unwrap_or(None)
    }

    /// Sets where a buffer is, or that it is not allocated any more.
    pub fn set(&mut self, number: u32, place: Option<BufferPlace>)
        requires number { number < length self.old }
        ensures { self.new ≡ slice_set self.old number place }
    {
        self.places[number as usize] = place;
    }
}
