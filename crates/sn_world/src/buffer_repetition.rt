ghost use Rattle.sn_world.specs.BufferCommands.{buffer_number};
ghost use Rattle.sn_world.specs.BufferSamples.{sample_index, sample_value, sample_run, sample_fill};

use crate::arguments::{Pair, Single, Triple};
use sn_osc::Arg;

/// A buffer that is made: its number, its frames, and the samples of each.
#[derive(Clone, Copy, Debug, PartialEq, Eq)]
pub struct NewBuffer {
    pub number: i32,
    pub frames: u32,
    pub channels: u32,
}

/// The number of a buffer.
#[derive(Clone, Copy, Debug, PartialEq, Eq)]
pub struct BufferNumber {
    pub number: i32,
}

/// The index of a sample.
#[derive(Clone, Copy, Debug, PartialEq, Eq)]
pub struct SampleIndex {
    pub index: i32,
}

/// The index of a sample, and its value.
#[derive(Clone, Copy, Debug, PartialEq, Eq)]
pub struct SampleValue {
    pub index: i32,
    pub value: i32,
}

/// Samples in a row, from the index `first` on.
#[derive(Clone, Copy, Debug, PartialEq, Eq)]
pub struct SampleRun {
    pub first: i32,
    pub count: u32,
}

/// Samples in a row, from the index `first` on, and one value for all of them.
#[derive(Clone, Copy, Debug, PartialEq, Eq)]
pub struct SampleFill {
    pub first: i32,
    pub count: u32,
    pub value: i32,
}

impl Single for BufferNumber {
    ghost from_one = { buffer_number };

    fn from_one(number: &Arg) -> Option<BufferNumber> {
        match number {
            Arg::Int(number) => Some(BufferNumber { number: *number }),
            _ => None,
        }
    }
}

impl Single for SampleIndex {
    ghost from_one = { sample_index };

    fn from_one(index: &Arg) -> Option<SampleIndex> {
        match index {
            Arg::Int(index) if *index >= 0 => Some(SampleIndex { index: *index }),
            _ => None,
        }
    }
}

impl Pair for SampleValue {
    ghost from_two = { sample_value };

    fn from_two(index: &Arg, value: &Arg) -> Option<SampleValue> {
        match (index, value) {
            (Arg::Int(index), Arg::Int(value)) if *index >= 0 => Some(SampleValue {
                index: *index,
                value: *value,
            }),
            _ => None,
        }
    }
}

impl Pair for SampleRun {
    ghost from_two = { sample_run };

    fn from_two(first: &Arg, count: &Arg) -> Option<SampleRun> {
        match (first, count) {
            (Arg::Int(first), Arg::Int(count)) if *first >= 0 && *count >= 0 => Some(SampleRun {
                first: *first,
                count: *count as u32,
            }),
            _ => None,
        }
    }
}

impl Triple for SampleFill {
    ghost from_three = { sample_fill };

    fn from_three(first: &Arg, count: &Arg, value: &Arg) -> Option<SampleFill> {
        match (first, count, value) {
            (Arg::Int(first), Arg::Int(count), Arg::Int(value)) if *first >= 0 && *count >= 0 => {
                Some(SampleFill {
                    first: *first,
                    count: *count as u32,
                    value: *value,
                })
            }
            _ => None,
        }
    }
}
