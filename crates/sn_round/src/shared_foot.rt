//! Words that several jobs may touch, kept once.
ghost use Rattle.std.specs.Prelude.{◌≡◌, IfOk};

use sn_mem::Foot;
use sn_ports::NoMemory;
use std::alloc::Global;
use std::marker::Model;
use std::sync::Arc;

/// The words that a job may touch. The jobs of several blocks share them, and so do copies of a plan.
///
/// Contracts see the foot.
#[derive(Drop)]
pub struct SharedFoot {
    foot: Arc<Foot>,
}

impl Model for SharedFoot {
    ghost use Rattle.std.specs.Arc.{arc_value};
    ghost use Rattle.sn_mem.specs.declared.extents.Foot.{Foot};

    ghost Value = { Foot };

    ghost view = { λ s. arc_value s.foot };
}

impl SharedFoot {
    /// A foot that can be shared.
    pub fn new(alloc: Global, foot: Foot) -> Result<SharedFoot, NoMemory>
        ensures { IfOk result (λ shared. shared ≡ foot) }
    {
        Ok(SharedFoot {
            foot: Arc::new(alloc, foot)?,
        })
    }

    /// The same foot, not a copy.
    pub fn again(&self) -> Result<SharedFoot, NoMemory>
        ensures { IfOk result (λ shared. shared ≡ self.now) }
    {
        Ok(SharedFoot {
            foot: Arc::try_clone(&self.foot)?,
        })
    }

    /// The foot.
    pub fn as_foot(&self) -> &Foot
        ensures { result.now ≡ self.now }
    {
        &self.foot
    }
}
