//! The table of units.
ghost use Rattle.std.specs.Prelude.{◌≡◌};
ghost use Rattle.sn_def.specs.Units.{row_of};
ghost use Rattle.sn_def.specs.Rows.{row_seen};

use crate::kind::Kind;

/// What a unit asks of an input.
#[derive(Clone, Copy, Debug)]
pub enum Mark {
    /// 64 samples: a literal, a control or a wire.
    Signal,
    /// The number of a bus or of a buffer: a literal or a control.
    Index,
    /// A literal.
    Constant,
    /// A literal, of milliseconds from 0 to 60,000.
    Longest,
}

/// How many words of state a unit has.
#[derive(Clone, Copy, Debug)]
pub enum StateSize {
    /// So many.
    Fixed(u32),
    /// The frames of its `Longest` input, and 2 more.
    Delay,
    /// The frames of its `Longest` input, at least 1, and 2 more.
    Comb,
    /// The frames of its `Longest` input, at least 1, and 3 more.
    DampedComb,
}

/// The families of units.
#[derive(Clone, Copy, Debug)]
pub enum Family {
    /// Oscillators, noise, ramps and envelopes.
    Generator,
    /// Units without a state, from sample to sample.
    Arithmetic,
    /// Units whose output depends on earlier samples of their inputs.
    Filter,
    /// Units on audio and control buses.
    Bus,
    /// Units whose state words tell what is to be settled after a block.
    Trigger,
    /// Units on buffers.
    Buffer,
}

/// How a resource is used.
#[derive(Clone, Copy, Debug)]
pub enum Access {
    /// It is read.
    Read,
    /// It is written.
    Write,
}

/// A sort of resources.
#[derive(Clone, Copy, Debug)]
pub enum Bank {
    /// Audio buses.
    Audio,
    /// Control buses.
    Control,
    /// Buffers.
    Buffer,
}

/// What a unit uses from its index on, which is its first input: the buses of its channels, or its
/// buffer.
#[derive(Clone, Copy, Debug)]
pub struct Use {
    /// How it uses them.
    pub access: Access,
    /// What they are.
    pub bank: Bank,
}

/// Whether a unit ends, and its done action: 1 pauses its synth, 2 frees it, any other does nothing.
#[derive(Clone, Copy, Debug)]
pub enum Ends {
    /// It does not end.
    Never,
    /// The action is the literal at the input of this number, from 0.
    Input(u32),
    /// The action is always this one.
    Always(i32),
}

/// A row of the table of units.
#[derive(Clone, Copy, Debug)]
pub struct Row {
    /// The family that the unit belongs to.
    pub family: Family,
    /// The unit's name in the text.
    pub name: &'static [u8],
    /// The inputs that it always has.
    pub inputs: &'static [Mark],
    /// How many signals may follow these inputs, 0 or 8. If they may, there is at least one.
    pub signals: u32,
    /// The fewest outputs.
    pub least: u32,
    /// The most outputs.
    pub most: u32,
    /// The number of words of state.
    pub words: StateSize,
    /// What the unit reads or writes, if anything.
    pub uses: Option<Use>,
    /// Whether the unit ends, and what it does then.
    pub ends: Ends,
    /// Whether the unit sends triggers.
    pub sends: bool,
}

/// All kinds, in the order of the table.
pub(crate) const KINDS: [Kind; 62] = [
    Kind::SinOsc,
    Kind::Sine,
    Kind::LFSaw,
    Kind::Saw,
    Kind::Blip,
    Kind::LFPulse,
    Kind::LFTri,
    Kind::Impulse,
    Kind::WhiteNoise,
    Kind::PinkNoise,
    Kind::Phasor,
    Kind::Line,
    Kind::Linen,
    Kind::Add,
    Kind::Sub,
    Kind::Mul,
    Kind::MulAdd,
    Kind::Neg,
    Kind::Abs,
    Kind::Min,
    Kind::Max,
    Kind::Clip,
    Kind::Gt,
    Kind::Lt,
    Kind::Pan2,
    Kind::Div,
    Kind::Mod,
    Kind::Exp2,
    Kind::Log2,
    Kind::OnePole,
    Kind::Lag,
    Kind::LagUD,
    Kind::Integrator,
    Kind::Delay1,
    Kind::DelayN,
    Kind::DelayL,
    Kind::CombN,
    Kind::CombL,
    Kind::SOS,
    Kind::SVF,
    Kind::Latch,
    Kind::Gate,
    Kind::PulseCount,
    Kind::Stepper,
    Kind::Trig,
    Kind::Inar,
    Kind::InFeedback,
    Kind::Inkr,
    Kind::Outar,
    Kind::ReplaceOut,
    Kind::Outkr,
    Kind::PlayBuf,
    Kind::PlayBufL,
    Kind::RecordBuf,
    Kind::BufRd,
    Kind::BufRdL,
    Kind::BufWr,
    Kind::BufFrames,
    Kind::SendTrig,
    Kind::DetectSilence,
    Kind::FreeSelf,
    Kind::PauseSelf,
];

/// A unit with a number of outputs. It reads and writes no bus and no buffer, doesn't end, and sends nothing.
macro_rules! row {
    ($family:ident $name:literal [$($mark:ident),*] => $outputs:literal, $words:ident$(($count:literal))?) => {
        Row {
            family: Family::$family,
            name: $name,
            inputs: &[$(Mark::$mark),*],
            signals: 0,
            least: $outputs,
            most: $outputs,
            words: StateSize::$words$(($count))?,
            uses: None,
            ends: Ends::Never,
            sends: false,
        }
    };
}

/// It reads a channel for each of its outputs, which may be up to 8.
macro_rules! reading {
    ($bank:ident, $row:expr) => {
        Row {
            most: 8,
            uses: Some(Use { access: Access::Read, bank: Bank::$bank }),
            ..$row
        }
    };
}

/// It writes a channel for each of the signals that follow its inputs, 1 to 8.
macro_rules! writing {
    ($bank:ident, $row:expr) => {
        Row {
            signals: 8,
            uses: Some(Use { access: Access::Write, bank: Bank::$bank }),
            ..$row
        }
    };
}

/// It ends, with this done action.
macro_rules! ending {
    ($ends:ident($action:literal), $row:expr) => {
        Row { ends: Ends::$ends($action), ..$row }
    };
}

/// It sends triggers.
macro_rules! sending {
    ($row:expr) => {
        Row { sends: true, ..$row }
    };
}

/// The rows in the order of the kinds: a unit's family, name and inputs => outputs, words of state; and
/// what it reads or writes, its done action, and whether it sends triggers.
static ROWS: [Row; 62] = [
    row!(Generator b"SinOsc" [Signal, Signal] => 1, Fixed(1)),
    row!(Generator b"Sine" [Signal, Signal] => 1, Fixed(1)),
    row!(Generator b"LFSaw" [Signal, Signal] => 1, Fixed(1)),
    row!(Generator b"Saw" [Signal, Signal] => 1, Fixed(1)),
    row!(Generator b"Blip" [Signal, Signal, Signal] => 1, Fixed(1)),
    row!(Generator b"LFPulse" [Signal, Signal, Signal] => 1, Fixed(1)),
    row!(Generator b"LFTri" [Signal, Signal] => 1, Fixed(1)),
    row!(Generator b"Impulse" [Signal] => 1, Fixed(2)),
    row!(Generator b"WhiteNoise" [] => 1, Fixed(1)),
    row!(Generator b"PinkNoise" [] => 1, Fixed(19)),
    row!(Generator b"Phasor" [Signal, Signal, Signal, Signal, Signal] => 1, Fixed(3)),
    ending!(
        Input(3),
        row!(Generator b"Line" [Signal, Signal, Signal, Constant] => 1, Fixed(5))
    ),
    ending!(
        Input(4),
        row!(Generator b"Linen" [Signal, Signal, Signal, Signal, Constant] => 1, Fixed(7))
    ),
    row!(Arithmetic b"Add" [Signal, Signal] => 1, Fixed(0)),
    row!(Arithmetic b"Sub" [Signal, Signal] => 1, Fixed(0)),
    row!(Arithmetic b"Mul" [Signal, Signal] => 1, Fixed(0)),
    row!(Arithmetic b"MulAdd" [Signal, Signal, Signal] => 1, Fixed(0)),
    row!(Arithmetic b"Neg" [Signal] => 1, Fixed(0)),
    row!(Arithmetic b"Abs" [Signal] => 1, Fixed(0)),
    row!(Arithmetic b"Min" [Signal, Signal] => 1, Fixed(0)),
    row!(Arithmetic b"Max" [Signal, Signal] => 1, Fixed(0)),
    row!(Arithmetic b"Clip" [Signal, Signal, Signal] => 1, Fixed(0)),
    row!(Arithmetic b"Gt" [Signal, Signal] => 1, Fixed(0)),
    row!(Arithmetic b"Lt" [Signal, Signal] => 1, Fixed(0)),
    row!(Arithmetic b"Pan2" [Signal, Signal, Signal] => 2, Fixed(0)),
    row!(Arithmetic b"Div" [Signal, Signal] => 1, Fixed(0)),
    row!(Arithmetic b"Mod" [Signal, Signal] => 1, Fixed(0)),
    row!(Arithmetic b"Exp2" [Signal] => 1, Fixed(0)),
    row!(Arithmetic b"Log2" [Signal] => 1, Fixed(0)),
    row!(Filter b"OnePole" [Signal, Signal] => 1, Fixed(1)),
    row!(Filter b"Lag" [Signal, Signal] => 1, Fixed(2)),
    row!(Filter b"LagUD" [Signal, Signal, Signal] => 1, Fixed(2)),
    row!(Filter b"Integrator" [Signal, Signal] => 1, Fixed(1)),
    row!(Filter b"Delay1" [Signal] => 1, Fixed(1)),
    row!(Filter b"DelayN" [Signal, Longest, Signal] => 1, Delay),
    row!(Filter b"DelayL" [Signal, Longest, Signal] => 1, Delay),
    row!(Filter b"CombN" [Signal, Longest, Signal, Signal] => 1, Comb),
    row!(Filter b"CombL" [Signal, Longest, Signal, Signal, Signal] => 2, DampedComb),
    row!(Filter b"SOS" [Signal, Signal, Signal, Signal, Signal, Signal] => 1, Fixed(4)),
    row!(Filter b"SVF" [Signal, Signal, Signal] => 3, Fixed(2)),
    row!(Filter b"Latch" [Signal, Signal] => 1, Fixed(2)),
    row!(Filter b"Gate" [Signal, Signal] => 1, Fixed(1)),
    row!(Filter b"PulseCount" [Signal, Signal] => 1, Fixed(3)),
    row!(Filter b"Stepper" [Signal, Signal, Signal, Signal, Signal, Signal] => 1, Fixed(4)),
    row!(Filter b"Trig" [Signal, Signal] => 1, Fixed(3)),
    reading!(Audio, row!(Bus b"In.ar" [Index] => 1, Fixed(0))),
    reading!(Audio, row!(Bus b"InFeedback" [Index] => 1, Fixed(0))),
    reading!(Control, row!(Bus b"In.kr" [Index] => 1, Fixed(0))),
    writing!(Audio, row!(Bus b"Out.ar" [Index] => 0, Fixed(0))),
    writing!(Audio, row!(Bus b"ReplaceOut" [Index] => 0, Fixed(0))),
    writing!(Control, row!(Bus b"Out.kr" [Index] => 0, Fixed(0))),
    ending!(
        Input(5),
        reading!(
            Buffer,
            row!(Buffer b"PlayBuf" [Index, Signal, Signal, Signal, Signal, Constant] => 1, Fixed(4))
        )
    ),
    ending!(
        Input(5),
        reading!(
            Buffer,
            row!(Buffer b"PlayBufL" [Index, Signal, Signal, Signal, Signal, Constant] => 1, Fixed(4))
        )
    ),
    ending!(
        Input(3),
        writing!(
            Buffer,
            row!(Buffer b"RecordBuf" [Index, Signal, Signal, Constant] => 0, Fixed(2))
        )
    ),
    reading!(Buffer, row!(Buffer b"BufRd" [Index, Signal] => 1, Fixed(0))),
    reading!(
        Buffer,
        row!(Buffer b"BufRdL" [Index, Signal, Signal, Signal] => 1, Fixed(0))
    ),
    writing!(Buffer, row!(Buffer b"BufWr" [Index, Signal] => 0, Fixed(0))),
    row!(Buffer b"BufFrames" [Index] => 1, Fixed(0)),
    sending!(row!(Trigger b"SendTrig" [Signal, Signal, Signal] => 0, Fixed(4))),
    ending!(
        Input(3),
        row!(Trigger b"DetectSilence" [Signal, Signal, Signal, Constant] => 1, Fixed(2))
    ),
    ending!(Always(2), row!(Trigger b"FreeSelf" [Signal] => 0, Fixed(1))),
    ending!(
        Always(1),
        row!(Trigger b"PauseSelf" [Signal] => 0, Fixed(1))
    ),
];

/// The row of a kind, as the table has it.
#[tactic(auto, unfolding(crate::specs::Units::row_of))]
fn table_row(kind: Kind) -> &'static Row
    ensures { row_seen result.now ≡ row_of kind }
{
    &ROWS[kind as usize]
}

/// The unit's row.
pub fn row_of(kind: Kind) -> Row
    ensures { row_seen result ≡ row_of kind }
{
    *table_row(kind)
}

/// The family of a kind.
pub fn family_of(kind: Kind) -> Family
    ensures { result ≡ (row_of kind).family }
{
    table_row(kind).family
}

/// Whether units of a kind send triggers.
pub(crate) fn sends(kind: Kind) -> bool
    ensures { result ≡ (row_of kind).sends }
{
    table_row(kind).sends
}

/// Whether units of a kind end, and their done action.
pub(crate) fn ends_of(kind: Kind) -> Ends
    ensures { result ≡ (row_of kind).ends }
{
    table_row(kind).ends
}
