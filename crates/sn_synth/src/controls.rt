//! The values of a synth's controls in a block.
ghost use Rattle.std.specs.Prelude.{◌≡◌, ◌≤◌, length};
ghost use Rattle.std.specs.List.{All};
ghost use Rattle.sn_ports.specs.Limits.{most_wires};
ghost use Rattle.sn_mem.specs.Words.{SameButWords};
ghost use Rattle.sn_mem.specs.Buses.{control_buses};
ghost use Rattle.sn_synth.specs.Synths.{control_value, control_values};
ghost use Rattle.sn_io.specs.Conditions.{MayReadControl};
ghost use Rattle.sn_synth.specs.Conditions.{IsFollowed, MayFollow};

use sn_def::Control;
use sn_mem::{Places, Port, Values, sample_of};

/// The value of a control: that of the control bus that it follows, or its own.
pub fn control_value<P: Port>(port: &mut P, control: Control) -> i32
    requires bus { IsFollowed control.bus }
    requires reads { MayReadControl (P.foot port.old) control.bus }
    ensures value { result ≡ control_value (control_buses (P.words port.old)) control }
    ensures words { P.words port.new ≡ P.words port.old }
    ensures port { SameButWords P.foot P.rest port.old port.new }
{
    let Some(bus) = control.bus else {
        return control.value;
    };
    let place = Places::control(bus);
    let word = port.load(place.at + 1);
    sample_of(word)
}

/// Reads each control once.
pub(crate) fn read_controls<P: Port>(port: &mut P, controls: &[Control], values: &mut Values)
    requires few { length controls.now ≤ most_wires }
    requires buses { All (λ c. IsFollowed c.bus) controls.now }
    requires reads { MayFollow (P.foot port.old) controls.now }
    ensures values { values.new ≡ control_values (control_buses (P.words port.old)) controls.now }
    ensures words { P.words port.new ≡ P.words port.old }
    ensures port { SameButWords P.foot P.rest port.old port.new }
{
    values.clear();
    for control in controls {
        values.push(control_value(port, *control));
    }
}
