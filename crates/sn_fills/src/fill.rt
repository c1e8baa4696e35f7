//! Fills.
ghost use Rattle.std.specs.Prelude.{◌≡◌, ◌<◌, ◌+◌, ◌^◌};

/// A run of places that are set to one value.
#[derive(Clone, Copy, Debug)]
pub struct Fill {
    /// The first place.
    pub first: u32,
    /// How many places there are.
    pub count: u32,
    /// What each is set to.
    pub value: i32,
}

impl Fill {
    /// The place after the last one.
    pub fn end(&self) -> u32
        requires { self.now.first + self.now.count < 2 ^ 32 }
        ensures { result ≡ self.now.first + self.now.count }
    {
        self.first + self.count
    }
}
