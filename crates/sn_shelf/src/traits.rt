ghost use Rattle.std.specs.Prelude.{◌≡◌, ◌⊎◌, ◌≤◌, List, ℕ, Err};
ghost use Rattle.std.specs.Io.{ReadsAtMost};
ghost use Rattle.std.specs.declared.option.Option.{Option};
ghost use Rattle.sn_ports.specs.Causes.{Rose};
ghost use Rattle.sn_shelf.specs.Files.{File, ReadsNamed};

use sn_ports::Text;

/// Why a shelf gave nothing of a file.
#[derive(Clone, Copy, Debug, PartialEq, Eq)]
pub enum Unshelved {
    /// There is no file with this name.
    Missing,
    /// The shelf failed, and has counted it.
    Failed,
}

/// Files, which are read by their names.
pub trait Shelf {
    /// The files on it, if they are known.
    ghost files: { Self → Option (List File) };

    /// A count of failures: only a call that fails raises it, while it is below 2^64 - 1.
    ghost faults: { Self → ℕ };

    /// Moves bytes of the file with this name, from byte `at` on, into `into`. `Ok(0)` with room means that none stand
    /// there.
    fn read(&mut self, name: &Text, at: u32, into: &mut [u8]) -> Result<usize, Unshelved>
        ensures bound { ReadsAtMost result into.new }
        ensures bytes { ReadsNamed (files self.old) name.now.bytes at result into.new }
        ensures kept { files self.new ≡ files self.old }
        ensures later { faults self.old ≤ faults self.new }
        ensures failed { result ≡ Err Unshelved.Failed → Rose (faults self.old) (faults self.new) }
        ensures unfailed { (result ≡ Err Unshelved.Failed) ⊎ (faults self.new ≡ faults self.old) };
}
