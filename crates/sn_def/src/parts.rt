//! The parts of a unit line.
ghost use Rattle.std.specs.Prelude.{◌≡◌, ◌&&◌, codes, position, Option};
ghost use Rattle.std.specs.Option.{option_map};
ghost use Rattle.std.specs.Str.{bytes_eq};
ghost use Rattle.sn_def.specs.Reading.{unit_parts, parts_from, counts_fit};
ghost use Rattle.sn_def.specs.Rows.{row_seen};
ghost use Rattle.sn_def.specs.Parts.{parts_seen};
ghost use Rattle.sn_def.specs.Answers.{texts};

use crate::table::Row;

/// The parts of a unit line: the names of its outputs, the unit's name, and its inputs.
#[derive(Clone, Copy)]
pub(crate) struct Parts<'f, 'a> {
    /// The names of its outputs.
    pub outputs: &'f [&'a [u8]],
    /// The unit's name.
    pub unit: &'a [u8],
    /// The inputs, as they are written.
    pub inputs: &'f [&'a [u8]],
}

fn equals_sign<'f, 'a>(fields: &'f [&'a [u8]]) -> Option<usize>
    ensures { result ≡ position (λ f. bytes_eq f.now (codes "=")) fields.now }
{
    fields.iter().position(|field| *field == b"=".as_slice())
}

fn parts_from<'f, 'a>(outputs: &'f [&'a [u8]], fields: &'f [&'a [u8]]) -> Option<Parts<'f, 'a>>
    ensures { option_map parts_seen result ≡ parts_from (texts outputs.now) (texts fields.now) }
{
    match fields {
        [] => None,
        [unit, inputs @ ..] => Some(Parts {
            outputs,
            unit,
            inputs,
        }),
    }
}

/// The parts of a unit line. Outputs stand before the first `=`.
pub(crate) fn unit_parts<'f, 'a>(fields: &'f [&'a [u8]]) -> Option<Parts<'f, 'a>>
    ensures { option_map parts_seen result ≡ unit_parts (texts fields.now) }
{
    match equals_sign(fields) {
        None => parts_from(&fields[..0], &*fields),
        Some(0) => None,
        Some(at) => parts_from(&fields[..at], &fields[at + 1..]),
    }
}

/// Whether a unit takes `inputs` inputs and gives `outputs` outputs.
pub(crate) fn counts_fit(row: &Row, inputs: usize, outputs: usize) -> bool
    ensures { result ≡ counts_fit (row_seen row.now) inputs outputs }
{
    let fixed = row.inputs.len();
    let least = if row.signals == 0 { fixed } else { fixed + 1 };
    least <= inputs
        && inputs <= fixed + row.signals as usize
        && row.least as usize <= outputs
        && outputs <= row.most as usize
}
