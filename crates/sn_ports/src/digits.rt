ghost use Rattle.std.specs.Prelude.{◌≡◌, IfOk};
ghost use Rattle.std.specs.Fmt.{signed_decimal};

use crate::failed::NoMemory;
use crate::text::Text;
use std::alloc::Global;

/// The decimal digits of `x`, with `-` before them if it is negative.
pub fn show(alloc: Global, x: i32) -> Result<Text, NoMemory>
    ensures { IfOk result (λ text. text.bytes ≡ signed_decimal x) }
{
    Ok(Text::from_vec(format!(in alloc; "{x}")?.into_bytes()))
}
