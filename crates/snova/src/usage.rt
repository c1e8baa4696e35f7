//! What the words of the command line ask for, and the text that tells what they may be.
ghost use Rattle.std.specs.Prelude.{◌≡◌};
ghost use Rattle.snova.specs.Calls.{alone, by_name, call_of, is_conversion, is_help};

use sn_ports::Word;

/// The version of the program.
pub(crate) const VERSION: &str = "0.1.0";

/// The forms of the commands, their keys, and the statuses.
pub(crate) const USAGE: &str = "\
snova render [key=value ..] COMMANDS SOUND REPLIES
    reads the commands in the file COMMANDS, and writes the WAV file SOUND and
    the file REPLIES
snova serve [key=value ..] PORT SOUND
    takes one connection, or as many as clients says, at the port PORT of this
    machine, 1 to 65535, and writes the sound into the file SOUND, as PCM
    without a header
snova score IN OUT
    reads packets as text in the file IN, and writes them as commands into the
    file OUT
snova dump IN OUT
    reads the commands in the file IN, and writes them as text into the file
    OUT
snova drill [seed=N] [blocks=M] [key=value ..]
    plays M blocks of notes that the seed N chooses, and prints what came of
    them
snova plan [key=value ..] COMMANDS REPORT
    plays the commands in the file COMMANDS, and writes into the file REPORT
    what may run beside what at their end, and the longest chain
snova help, snova --help, snova -h
    prints this text
snova --version
    prints the version

Keys, and the values where no word gives one:
    rate      44100, 48000 or 96000 frames a second    48000
    channels  1 to 8                                   2
    bits      16 or 24 in a sample                     16
    workers   1 to 16                                  4
    memory    65536 to 16777216 words of 8 bytes       1048576
for serve alone:
    clients   1 to 4, all at once                      1
    pace      clock, or sound: a block is due as soon
              as what takes the sound took the last    clock
and for drill alone:
    seed      0 to 4294967295                          1
    blocks    1 to 20000                               1000

Statuses, and the lines that are printed:
    0   done B blocks, done N packets, quit, closed, over,
        drill blocks M sound S replies R sum T
    1   no memory
    2   bad word I
    3   bad stream: packet N, byte P, fault X
    4   stream over 16777216 bytes
    5   sound too long: B blocks
    6   read fault
    7   sound fault, out fault
    8   reply fault
    9   cannot open
    10  cut after K bytes
    11  bad frame size S
    12  link fault
    14  shelf fault
    15  turns full
    16  bad score: line L
    17  worn out";

/// What the words ask for.
#[derive(Clone, Copy)]
pub(crate) enum Call {
    /// The text that tells what the words may be.
    Help,
    /// The version of the program.
    Version,
    /// To serve a connection.
    Serve,
    /// To make a text a stream, or a stream a text.
    Convert,
    /// To play commands that a seed chooses.
    Drill,
    /// To report what may run beside what.
    Plan,
    /// To render a file of commands.
    Render,
}

fn is_help(word: &[u8]) -> bool
    ensures { result ≡ is_help word.now }
{
    word == b"help".as_slice() || word == b"--help".as_slice() || word == b"-h".as_slice()
}

fn is_conversion(word: &[u8]) -> bool
    ensures { result ≡ is_conversion word.now }
{
    word == b"score".as_slice() || word == b"dump".as_slice()
}

/// What a first word asks for that others may follow.
fn by_name(word: &[u8]) -> Call
    ensures { result ≡ by_name word.now }
{
    if word == b"serve".as_slice() {
        Call::Serve
    } else if is_conversion(word) {
        Call::Convert
    } else if word == b"drill".as_slice() {
        Call::Drill
    } else if word == b"plan".as_slice() {
        Call::Plan
    } else {
        Call::Render
    }
}

/// What a word asks for that stands alone.
fn alone(word: &[u8]) -> Call
    ensures { result ≡ alone word.now }
{
    if is_help(word) {
        Call::Help
    } else if word == b"--version".as_slice() {
        Call::Version
    } else {
        by_name(word)
    }
}

/// What the words ask for.
pub(crate) fn call_of(words: &[Word]) -> Call
    ensures { result ≡ call_of words.now }
{
    match words {
        [] => Call::Render,
        [word] => alone(word.as_slice()),
        [word, ..] => by_name(word.as_slice()),
    }
}
