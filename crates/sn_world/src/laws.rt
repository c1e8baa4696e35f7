//! Laws of how arguments are read, and of what rows mean.
ghost use Rattle.std.specs.Prelude.{◌≡◌, ◌↔◌, ℕ, List, Some, length};
ghost use Rattle.sn_osc.specs.Shape.{Argument};
ghost use Rattle.sn_world.specs.World.{Turn};
ghost use Rattle.sn_world.specs.Rows.{pairs, triples};
ghost use Rattle.sn_world.specs.Runs.{ValuesAt, value_runs, run_arguments};
ghost use Rattle.sn_world.specs.BufferSamples.{of_buffer, set_row, sample_value, value_refusal, set_value, setn_row, right_runs, values_refusal, set_values, fill_row, sample_fill, fill_refusal, fill_values};
ghost use Rattle.sn_world.specs.ControlRuns.{ControlRun, values_run, repeated, control_run_arguments, asked_of};
ghost use Rattle.sn_world.specs.Mappings.{mapping, map_row};
ghost use Rattle.sn_world.specs.Folds.{changing_each, mapping_each};
ghost use Rattle.sn_world.specs.Commands.{deepest};

use crate::command::MOST_COMPLETIONS;

/// Runs of values are read from arguments exactly if the arguments are theirs, one run after the other.
pub fn value_runs_are_read()
    ensures { (xs : List Argument) (rs : List ValuesAt) → (value_runs xs ≡ Some rs) ↔ (xs ≡ run_arguments rs) }
{}

/// Runs of values for controls are read from arguments exactly if the arguments are theirs, one run after the other.
pub fn control_runs_are_read()
    ensures { (xs : List Argument) (rs : List ControlRun) → (repeated values_run (length xs) xs ≡ Some rs) ↔ (xs ≡ control_run_arguments rs) }
{}

/// A law: `/b_set`, `/b_setn` and `/b_fill` judge one repetition after the other, each in the world that the earlier
/// ones left, and change the samples by it.
pub fn samples_change_in_turn()
    ensures set { (from : ℕ) (xs : List Argument) (t : Turn) → set_row from xs t ≡ of_buffer (pairs sample_value) (changing_each value_refusal set_value) xs t }
    ensures setn { (from : ℕ) (xs : List Argument) (t : Turn) → setn_row from xs t ≡ of_buffer (λ ys. right_runs (value_runs ys)) (changing_each values_refusal set_values) xs t }
    ensures fill { (from : ℕ) (xs : List Argument) (t : Turn) → fill_row from xs t ≡ of_buffer (triples sample_fill) (changing_each fill_refusal fill_values) xs t }
{}

/// A law: `/n_map` judges one mapping after the other, each in the world that the earlier ones left, and maps the
/// control.
pub fn controls_are_mapped_in_turn()
    ensures { (from : ℕ) (xs : List Argument) (t : Turn) → map_row from xs t ≡ mapping_each (asked_of (pairs mapping) xs) t }
{}

/// A law: `MOST_COMPLETIONS` is how deep completion messages may nest.
pub fn most_completions_are_deepest() -> u32
    ensures { result ≡ deepest }
{
    MOST_COMPLETIONS
}
