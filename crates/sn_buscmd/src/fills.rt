//! Repetitions that set places in a row to one value.
ghost use Rattle.std.specs.Prelude.{◌≡◌, map, IfOk};
ghost use Rattle.sn_buscmd.specs.Fills.{bus_places, sample_places};

use sn_fills::Fill;
use sn_ports::NoMemory;
use sn_world::{BusFill, SampleFill};
use std::alloc::Global;

/// What sets places in a row, from one that is not below 0 on, to one value.
pub trait Filling {
    ghost use Rattle.std.specs.Prelude.{◌≡◌};
    ghost use Rattle.sn_fills.specs.declared.fill.Fill.{Fill};

    ghost fill: { Self → Fill };

    /// The places and their value.
    fn fill(&self) -> Fill
        ensures { result ≡ fill self.now };
}

impl Filling for BusFill {
    ghost fill = { bus_places };

    fn fill(&self) -> Fill {
        Fill {
            first: self.bus.unsigned_abs(),
            count: self.count,
            value: self.value,
        }
    }
}

impl Filling for SampleFill {
    ghost fill = { sample_places };

    fn fill(&self) -> Fill {
        Fill {
            first: self.first.unsigned_abs(),
            count: self.count,
            value: self.value,
        }
    }
}

/// The fills of all repetitions.
pub fn fills_of<R: Filling>(alloc: Global, all: &[R]) -> Result<Vec<Fill>, NoMemory>
    ensures { IfOk result (λ fills. fills.items ≡ map R.fill all.now) }
{
    let mut fills = Vec::new(alloc);
    for repetition in all {
        fills.push(repetition.fill())?;
    }
    Ok(fills)
}
