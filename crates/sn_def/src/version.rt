//! The versions of definition texts.
ghost use Rattle.std.specs.Prelude.{◌≡◌, ◌≤◌};
ghost use Rattle.sn_ports.specs.Limits.{most_wires};
ghost use Rattle.sn_def.specs.Versions.{title, version_of, most_controls, has_arrays};

use sn_ports::limits::MOST_WIRES;

/// The version of a definition text.
#[derive(Clone, Copy, Debug, PartialEq, Eq)]
pub enum Version {
    /// Up to 128 controls.
    One,
    /// Up to 512 controls, which may stand in arrays.
    Two,
}

impl Version {
    /// The version that the first line of a text names.
    pub fn of(line: &[u8]) -> Option<Self>
        ensures { result ≡ version_of line.now }
    {
        if line == b"snova 1".as_slice() {
            return Some(Version::One);
        }
        if line == b"snova 2".as_slice() {
            return Some(Version::Two);
        }
        None
    }

    /// The first line of a text.
    pub fn title(self) -> &'static [u8]
        ensures { result.now ≡ title self }
    {
        match self {
            Version::One => b"snova 1",
            Version::Two => b"snova 2",
        }
    }

    /// How many controls a definition may have.
    pub fn most_controls(self) -> usize
        ensures count { result ≡ most_controls self }
        ensures few { result ≤ most_wires }
    {
        match self {
            Version::One => 128,
            Version::Two => MOST_WIRES,
        }
    }

    /// Whether controls may stand in arrays.
    pub fn has_arrays(self) -> bool
        ensures { result ≡ has_arrays self }
    {
        match self {
            Version::One => false,
            Version::Two => true,
        }
    }
}
