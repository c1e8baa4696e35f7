//! Packets are converted from one form to the other: from a text to a stream, or from a stream to a text.
ghost use Rattle.std.specs.Prelude.{◌≡◌, ◌⊎◌, ◌<◌, ◌^◌, ◌↔◌, ℕ, List, Some, Err, IfOk, IfErr, OnOk, length};
ghost use Rattle.std.specs.Io.KnownBytes.{IsAtEnd, Keeps};
ghost use Rattle.sn_ports.specs.Causes.{Rose};
ghost use Rattle.sn_words.specs.Converting.{convert_words_of};
ghost use Rattle.sn_words.specs.declared.convert.Conversion.TheVariants.{Score, Dump};
ghost use Rattle.sn_top.specs.Converting.{ByConvertWords, Converts, Forms, HasAnswer, IsAnswer, IsUnmade, TakesSource, Writes, converted_status};
ghost use Rattle.sn_top.specs.declared.converting.Converted.{Converted};

use sn_ports::{Sink, Source, Text, Word, write_all};
use sn_score::{Unscored, read_score, write_score, write_stream};
use sn_server::{StreamFault, TOO_MANY_BYTES, Ungathered, Unread, gather, read_stream};
use sn_words::{Conversion, convert_words};
use std::alloc::Global;

/// What came of a conversion.
#[derive(Clone, Copy, Debug, PartialEq, Eq)]
pub enum Converted {
    /// The source was read to its end, and this many packets were written in the other form.
    Done {
        packets: u32,
    },
    /// Memory ran out.
    NoMemory,
    /// The words choose no conversion. The first bad word has this index, from 0.
    BadWords {
        index: u32,
    },
    /// The stream is no list of framed packets. The packet's number counts from 0, and so does the place, in bytes of
    /// the stream.
    BadStream {
        packet: u32,
        place: u64,
        fault: StreamFault,
    },
    /// The source has more than 16,777,216 bytes. 16,777,217 were taken.
    LongStream {
        bytes: u64,
    },
    /// The source failed.
    ReadFault,
    /// The sink failed.
    OutFault,
    /// The text is no score. The first line at fault has this number, from 1.
    BadScore {
        line: u32,
    },
}

impl Converted {
    /// The status of the program.
    pub fn status(&self) -> u8
        ensures { result ≡ converted_status self.now }
    {
        match self {
            Converted::Done { .. } => 0,
            Converted::NoMemory => 1,
            Converted::BadWords { .. } => 2,
            Converted::BadStream { .. } => 3,
            Converted::LongStream { .. } => 4,
            Converted::ReadFault => 6,
            Converted::OutFault => 7,
            Converted::BadScore { .. } => 16,
        }
    }
}

/// Packets in the form to which they are converted.
#[derive(Drop)]
struct Made {
    packets: u32,
    bytes: Text,
}

/// The stream of a text.
fn scored<S: Source>(alloc: Global, source: &mut S) -> Result<Made, Converted>
    ensures forms { IfOk result (λ m. Forms Score (S.left source.old) m.packets m.bytes.bytes) }
    ensures end { OnOk result (IsAtEnd (S.left source.new)) }
    ensures unmade { IfErr result IsUnmade }
    ensures answer { IfErr result (λ e. IsAnswer Score (S.left source.old) e) }
    ensures taken { IfErr result (λ e. TakesSource e (S.left source.old) (S.left source.new)) }
    ensures read { result ≡ Err Converted.ReadFault → Rose (S.faults source.old) (S.faults source.new) }
    ensures unfailed { OnOk result (S.faults source.new ≡ S.faults source.old) }
    ensures refused { IfErr result (λ e. (e ≡ Converted.ReadFault) ⊎ (S.faults source.new ≡ S.faults source.old)) }
{
    let text = match read_stream(alloc, source) {
        Ok(text) => text,
        Err(Unread::NoMemory) => return Err(Converted::NoMemory),
        Err(Unread::TooLong) => return Err(Converted::LongStream {
            bytes: TOO_MANY_BYTES,
        }),
        Err(Unread::Failed) => return Err(Converted::ReadFault),
    };
    let packets = match read_score(alloc, &text) {
        Ok(packets) => packets,
        Err(Unscored::NoMemory) => return Err(Converted::NoMemory),
        Err(Unscored::Bad { line }) => return Err(Converted::BadScore { line }),
    };
    match write_stream(alloc, &packets) {
        Ok(bytes) => Ok(Made {
            packets: packets.len() as u32,
            bytes,
        }),
        Err(_) => Err(Converted::NoMemory),
    }
}

/// The text of a stream.
fn dumped<S: Source>(alloc: Global, source: &mut S) -> Result<Made, Converted>
    ensures forms { IfOk result (λ m. Forms Dump (S.left source.old) m.packets m.bytes.bytes) }
    ensures end { OnOk result (IsAtEnd (S.left source.new)) }
    ensures unmade { IfErr result IsUnmade }
    ensures answer { IfErr result (λ e. IsAnswer Dump (S.left source.old) e) }
    ensures taken { IfErr result (λ e. TakesSource e (S.left source.old) (S.left source.new)) }
    ensures read { result ≡ Err Converted.ReadFault → Rose (S.faults source.old) (S.faults source.new) }
    ensures unfailed { OnOk result (S.faults source.new ≡ S.faults source.old) }
    ensures refused { IfErr result (λ e. (e ≡ Converted.ReadFault) ⊎ (S.faults source.new ≡ S.faults source.old)) }
{
    let packets = match gather(alloc, source) {
        Ok(packets) => packets,
        Err(Ungathered::NoMemory) => return Err(Converted::NoMemory),
        Err(Ungathered::ReadFault) => return Err(Converted::ReadFault),
        Err(Ungathered::LongStream { bytes }) => return Err(Converted::LongStream { bytes }),
        Err(
            Ungathered::BadStream {
                packet,
                place,
                fault,
            },
        ) => return Err(Converted::BadStream {
            packet,
            place,
            fault,
        }),
    };
    match write_score(alloc, &packets) {
        Ok(bytes) => Ok(Made {
            packets: packets.len() as u32,
            bytes,
        }),
        Err(_) => Err(Converted::NoMemory),
    }
}

/// What a source gives, in the other form.
fn other_form<S: Source>(
    alloc: Global,
    conversion: Conversion,
    source: &mut S,
) -> Result<Made, Converted>
    ensures forms { IfOk result (λ m. Forms conversion (S.left source.old) m.packets m.bytes.bytes) }
    ensures end { OnOk result (IsAtEnd (S.left source.new)) }
    ensures unmade { IfErr result IsUnmade }
    ensures answer { IfErr result (λ e. IsAnswer conversion (S.left source.old) e) }
    ensures taken { IfErr result (λ e. TakesSource e (S.left source.old) (S.left source.new)) }
    ensures read { result ≡ Err Converted.ReadFault → Rose (S.faults source.old) (S.faults source.new) }
    ensures unfailed { OnOk result (S.faults source.new ≡ S.faults source.old) }
    ensures refused { IfErr result (λ e. (e ≡ Converted.ReadFault) ⊎ (S.faults source.new ≡ S.faults source.old)) }
{
    match conversion {
        Conversion::Score => scored(alloc, source),
        Conversion::Dump => dumped(alloc, source),
    }
}

/// Reads what a source gives to its end, and writes it in the other form.
fn convert_all<S: Source, O: Sink>(
    alloc: Global,
    conversion: Conversion,
    source: &mut S,
    out: &mut O,
) -> Converted
    ensures done { (n : ℕ) → result ≡ Converted.Done n → Converts conversion (S.left source.old) n (O.taken out.old) (O.taken out.new) }
    ensures taken { TakesSource result (S.left source.old) (S.left source.new) }
    ensures answer { IsAnswer conversion (S.left source.old) result }
    ensures read { result ≡ Converted.ReadFault → Rose (S.faults source.old) (S.faults source.new) }
    ensures out { result ≡ Converted.OutFault → Rose (O.faults out.old) (O.faults out.new) }
    ensures source_unfailed { (result ≡ Converted.ReadFault) ⊎ (S.faults source.new ≡ S.faults source.old) }
    ensures out_unfailed { (result ≡ Converted.OutFault) ⊎ (O.faults out.new ≡ O.faults out.old) }
    ensures written { Writes conversion (S.left source.old) result (O.taken out.old) (O.taken out.new) }
{
    let made = match other_form(alloc, conversion, source) {
        Ok(made) => made,
        Err(refused) => return refused,
    };
    match write_all(out, made.bytes.as_slice()) {
        Ok(()) => Converted::Done {
            packets: made.packets,
        },
        Err(_) => Converted::OutFault,
    }
}

/// Does what the words `score IN OUT` or `dump IN OUT` say: reads the packets of a text and writes their stream, or
/// reads the packets of a stream and writes their text.
///
/// If the words, the text or the stream are refused, the source fails, or memory runs out, the sink takes no byte. If
/// the sink fails, it took a prefix of the other form.
pub fn convert<S: Source, O: Sink>(
    alloc: Global,
    words: &[Word],
    source: &mut S,
    out: &mut O,
) -> Converted
    requires { length words.now < 2 ^ 32 }

    // What was done is the other form of the same packets, whole.
    ensures done { ByConvertWords words.now (λ c. (n : ℕ) → result ≡ Converted.Done n → Converts c (S.left source.old) n (O.taken out.old) (O.taken out.new)) }

    // What was read of the source, at each answer.
    ensures taken { TakesSource result (S.left source.old) (S.left source.new) }

    // Every other answer has its cause, except `NoMemory`.
    ensures words { (i : ℕ) → (result ≡ Converted.BadWords i) ↔ (convert_words_of words.now ≡ Err i) }
    ensures read { result ≡ Converted.ReadFault → Rose (S.faults source.old) (S.faults source.new) }
    ensures out { result ≡ Converted.OutFault → Rose (O.faults out.old) (O.faults out.new) }

    // Each of the two failed only if its fault is the answer.
    ensures source_unfailed { (result ≡ Converted.ReadFault) ⊎ (S.faults source.new ≡ S.faults source.old) }
    ensures out_unfailed { (result ≡ Converted.OutFault) ⊎ (O.faults out.new ≡ O.faults out.old) }

    // If the words choose a conversion, the answer is one that the source's bytes have by it. If no count rises either,
    // it is the one that they have, or memory ran out.
    ensures answer { ByConvertWords words.now (λ c. IsAnswer c (S.left source.old) result) }
    ensures complete { ByConvertWords words.now (λ c. (given : List ℕ) (answer : Converted) → S.left source.old ≡ Some given → HasAnswer c given answer
        → (Rose (S.faults source.old) (S.faults source.new) → ⊥) → (Rose (O.faults out.old) (O.faults out.new) → ⊥) → (result ≡ answer) ⊎ (result ≡ Converted.NoMemory)) }

    // What the sink took at every other answer: nothing, or a prefix of the other form.
    ensures written { ByConvertWords words.now (λ c. Writes c (S.left source.old) result (O.taken out.old) (O.taken out.new)) }
    ensures untouched { (i : ℕ) → result ≡ Converted.BadWords i → Keeps (O.taken out.old) (O.taken out.new) }
{
    match convert_words(words) {
        Ok(conversion) => convert_all(alloc, conversion, source, out),
        Err(bad) => Converted::BadWords { index: bad.index },
    }
}
