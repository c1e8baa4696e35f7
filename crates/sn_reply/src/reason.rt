/// Why a command, a packet or a definition is refused.
#[derive(Clone, Copy, Debug, PartialEq, Eq)]
pub enum Reason {
    /// No command has the address.
    UnknownCommand,
    /// The arguments have tags that are not read.
    ArgumentType,
    /// The number, the kinds or the ranges of the arguments are not those of the command.
    Arguments,
    /// No node has the id.
    NoSuchNode,
    /// A node has the id, or no id is left to choose.
    IdInUse,
    /// No add action has the number.
    AddAction,
    /// The node is a synth, but a group is asked for.
    NotGroup,
    /// The root can't be moved, replaced or freed.
    Root,
    /// A node can't be moved into itself.
    InsideItself,
    /// No definition has the name.
    NoSuchDefinition,
    /// No control bus has the number.
    Bus,
    /// The number is none of 0 to 1,023, or no buffer has it although one is asked for.
    Buffer,
    /// A sample's index lies outside the buffer.
    SampleIndex,
    /// The pool has no place that is large enough.
    PoolFull,
    /// There would be more than 4,096 nodes.
    TooManyNodes,
    /// The text of a definition has a fault in the line with this number.
    DefinitionLine(u32),
    /// The control numbers a bus or a buffer for a unit, so it can't follow a bus.
    IndexControl,
    /// As many entries wait as may.
    QueueFull,
    /// The bytes spell no packet.
    BadPacket,
    /// The node is a group, but a synth is asked for.
    NotSynth,
    /// A file is named where no file is read, or its samples can't be taken.
    File,
}
