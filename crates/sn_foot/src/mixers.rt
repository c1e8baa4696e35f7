//! Units that mix.
ghost use Rattle.std.specs.Prelude.{◌≡◌};
ghost use Rattle.sn_foot.specs.Mixers.{mixes_audio};

use sn_def::Kind;

/// Whether units of a kind add their signals to what audio buses hold.
pub fn mixes_audio(kind: Kind) -> bool
    ensures { result ≡ mixes_audio kind }
{
    match kind {
        Kind::Outar => true,
        _ => false,
    }
}
