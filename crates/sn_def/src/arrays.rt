//! The arrays of controls of a definition.
ghost use Rattle.std.specs.Prelude.{◌≡◌, List};

use std::marker::Model;

/// An array: `len` controls that follow each other, of which the first has the number `first`.
#[derive(Clone, Copy, Debug)]
pub struct Run {
    /// The number of its first control, from 0.
    pub first: u32,
    /// How many controls it has, 1 to 64.
    pub len: u32,
}

/// The arrays of a definition, in the order of the text.
#[derive(Debug, Drop)]
pub struct Runs {
    items: Vec<Run>,
}

impl Model for Runs {
    ghost use Rattle.std.specs.Prelude.{List};
    ghost use Rattle.sn_def.specs.declared.arrays.Run.{Run};

    ghost Value = { List Run };

    ghost view = { λ s. s.items.items };
}

impl Runs {
    /// The arrays in this order.
    pub fn from_vec(items: Vec<Run>) -> Self
        ensures { result ≡ items.items }
    {
        Runs { items }
    }

    /// The arrays, in their order.
    pub fn as_slice(&self) -> &[Run]
        ensures { result.now ≡ self.now }
    {
        &self.items
    }
}
