//! Natural numbers in decimal.
ghost use Rattle.std.specs.Prelude.{◌≡◌};
ghost use Rattle.sn_fixed.specs.Natural.{fits_32, natural};

use crate::literals::{is_positive, is_zero, number};

fn fits_32(value: u64) -> Option<u32>
    ensures { result ≡ fits_32 value }
{
    u32::try_from(value).ok()
}

/// The number of decimal digits without a leading zero. `None` comes exactly if the text is something else, or the
/// number is 2^32 or more.
#[tactic(auto, unfolding(crate::specs::Natural::natural))]
pub fn natural(text: &[u8]) -> Option<u32>
    ensures { result ≡ natural text.now }
{
    if is_zero(text) {
        Some(0)
    } else if is_positive(text) {
        fits_32(number(text))
    } else {
        None
    }
}
