//! Each place is set once.
ghost use Rattle.std.specs.Prelude.{◌≡◌, ◌≤◌, ◌<◌, ◌+◌, ◌^◌, ℕ, IfOk};
ghost use Rattle.std.specs.List.{All};
ghost use Rattle.sn_fills.specs.Fills.{last_at, AreApart};

use crate::fill::Fill;
use crate::order::in_order;
use sn_ports::NoMemory;
use std::alloc::Global;

/// Fills that have the same effect as these, one after the other, and set each place once. None of them is empty.
///
/// For n fills its time grows with n log n.
pub fn once_each(alloc: Global, fills: &[Fill]) -> Result<Vec<Fill>, NoMemory>
    requires { All (λ f. f.first + f.count < 2 ^ 32) fills.now }
    ensures same { IfOk result (λ once. (n : ℕ) → last_at n once.items ≡ last_at n fills.now) }
    ensures apart { IfOk result (λ once. AreApart once.items) }
    ensures some { IfOk result (λ once. All (λ f. 0 < f.count) once.items) }
    ensures within { (end : ℕ) → All (λ f. f.first + f.count ≤ end) fills.now → IfOk result (λ once. All (λ f. f.first + f.count ≤ end) once.items) }
{
    in_order(alloc, fills)
}
