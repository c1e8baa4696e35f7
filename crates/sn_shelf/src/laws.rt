//! What a WAV file is, by how it is written.
ghost use Rattle.std.specs.Prelude.{◌≡◌, ℕ, List, Some};
ghost use Rattle.sn_shelf.specs.Waves.{Wave, wave_in};
ghost use Rattle.sn_shelf.specs.WaveForm.{IsWave};

/// What is found in bytes is what stands there as a WAV file, and what stands there so is found.
pub fn one_wave()
    ensures found { (bytes : List ℕ) (w : Wave) → wave_in bytes ≡ Some w → IsWave bytes w }
    ensures only { (bytes : List ℕ) (w : Wave) → IsWave bytes w → wave_in bytes ≡ Some w }
{}
