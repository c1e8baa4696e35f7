//! A buffer that is made: its place, and its first samples.
ghost use Rattle.std.specs.Prelude.{◌≡◌, ◌≤◌, ◌<◌, ◌*◌, ◌^◌, ◌∷◌, ◌++◌, [], None, drop, length, IfOk, IfErr, OnOk, OnErr};
ghost use Rattle.sn_osc.specs.Reading.{int_in};
ghost use Rattle.sn_mem.specs.Buffers.{samples_of};
ghost use Rattle.sn_mem.specs.Words.{MayWrite, SameButWords};
ghost use Rattle.sn_pool.specs.Pools.{GivesPlace, with_extent};
ghost use Rattle.sn_pool.specs.Regions.{IsFree, least_place};
ghost use Rattle.sn_reply.specs.declared.replies.To.TheVariants.{Client};
ghost use Rattle.sn_world.specs.World.{turn_of};
ghost use Rattle.sn_world.specs.Pictures.{Pictures, WritesWorld, KeepsOutside};
ghost use Rattle.sn_world.specs.BufferNumbers.{done_message, number_refusal};
ghost use Rattle.sn_world.specs.BufferCommands.{hold};
ghost use Rattle.sn_world.specs.BufferReading.{ints_in};
ghost use Rattle.sn_world.specs.Answers.{Follows, UnlessFollowed};
ghost use Rattle.sn_buscmd.specs.Samples.{IsNew, Places, MayGo, IsGone, IsLive, KeepsAround};
ghost use Rattle.sn_buscmd.specs.Making.{command_of, samples_for, AreWhole};

use crate::buffers::{find, tell_done};
use crate::samples::{fill_samples, set_sample};
use sn_mem::{BufferPlace, Extent, Port};
use sn_pool::{Pool, Untaken};
use sn_ports::NoMemory;
use sn_reply::{Reason, Replies};
use sn_world::{NewBuffer, Stage};
use std::alloc::Global;

/// The first samples of a buffer that is made.
#[derive(Clone, Copy, Debug)]
pub enum FirstSamples<'a> {
    /// Zeros: those of `/b_alloc`.
    Zeros,
    /// Big-endian integers of 4 bytes: those of `/b_allocRead`.
    Read(&'a [u8]),
}

/// Takes a word for each sample.
fn take_words(pool: &mut Pool, new: &NewBuffer) -> Result<Extent, Untaken>
    requires new { IsNew new.now }
    requires bounded { pool.old.region.len < 2 ^ 32 }
    ensures by_trial { GivesPlace result (least_place pool.old.region pool.old.live (new.now.frames * new.now.channels)) }
    ensures size { IfOk result (λ extent. extent.len ≡ new.now.frames * new.now.channels) }
    ensures free { IfOk result (λ extent. IsFree pool.old.region pool.old.live (new.now.frames * new.now.channels) extent.at) }
    ensures taken { IfOk result (λ extent. pool.new ≡ record pool.old { live = with_extent extent pool.old.live }) }
    ensures refused { IfErr result (λ _. pool.new ≡ pool.old) }
{
    let words = u64::from(new.frames) * u64::from(new.channels);
    if words > 4_294_967_295 {
        return Err(Untaken::Full);
    }
    pool.take(words as u32)
}

/// Gives a buffer's words back, if there is one.
fn give_old(pool: &mut Pool, old: Option<BufferPlace>)
    requires may { MayGo old pool.old }
    ensures gone { IsGone old pool.old pool.new }
{
    if let Some(place) = old {
        pool.give_back(place.extent);
    }
}

/// Takes words for a buffer, after those of the buffer with its number were given back. `None` comes if the pool then
/// has no place. If no place was found, the pool is as it was.
fn take_place(
    pool: &mut Pool,
    old: Option<BufferPlace>,
    new: &NewBuffer,
) -> Result<Option<BufferPlace>, NoMemory>
    requires new { IsNew new.now }
    requires closed { pool.old.journal ≡ None }
    requires live { IsLive old pool.old }
    requires bounded { pool.old.region.len < 2 ^ 32 }
    ensures { Places old new.now pool.old pool.new result }
{
    let mark = pool.begin(1)?;
    give_old(pool, old);
    match take_words(pool, new) {
        Ok(extent) => {
            pool.commit(mark);
            Ok(Some(BufferPlace {
                extent,
                frames: new.frames,
                channels: new.channels,
            }))
        }
        Err(fault) => {
            pool.undo(mark);
            match fault {
                Untaken::Full => Ok(None),
                Untaken::NoMemory => Err(NoMemory),
            }
        }
    }
}

/// The big-endian integer of the first 4 bytes.
fn sample_in_front(bytes: &[u8]) -> i32
    requires { 4 ≤ length bytes.now }
    ensures { result ≡ int_in bytes.now }
{
    i32::from_be_bytes([bytes[0], bytes[1], bytes[2], bytes[3]])
}

/// What follows the first 4 bytes.
fn behind_sample(bytes: &[u8]) -> &[u8]
    requires { 4 ≤ length bytes.now }
    ensures { result.now ≡ drop 4 bytes.now }
{
    &bytes[4..]
}

/// Sets all samples, each to a big-endian integer of 4 bytes.
fn set_all<P: Port>(port: &mut P, words: Extent, bytes: &[u8])
    requires foot { MayWrite (P.foot port.old) words.at words.len }
    requires whole { length bytes.now ≡ 4 * words.len }
    ensures samples { samples_of (P.words port.new) words ≡ ints_in words.len bytes.now }
    ensures others { KeepsAround words (P.words port.old) (P.words port.new) }
    ensures port { SameButWords P.foot P.rest port.old port.new }
{
    let mut rest = bytes;
    for index in 0..words.len {
        set_sample(port, words, index, sample_in_front(rest));
        rest = behind_sample(rest);
    }
}

/// Sets the samples of a buffer that is made.
fn set_first<P: Port>(port: &mut P, words: Extent, new: &NewBuffer, samples: &FirstSamples<'_>)
    requires foot { MayWrite (P.foot port.old) words.at words.len }
    requires size { words.len ≡ new.now.frames * new.now.channels }
    requires whole { AreWhole new.now samples.now }
    ensures samples { samples_of (P.words port.new) words ≡ samples_for new.now samples.now }
    ensures others { KeepsAround words (P.words port.old) (P.words port.new) }
    ensures port { SameButWords P.foot P.rest port.old port.new }
{
    match *samples {
        FirstSamples::Zeros => fill_samples(port, words, 0, words.len, 0),
        FirstSamples::Read(bytes) => set_all(port, words, bytes),
    }
}

/// Tells a client that its buffer was made.
fn tell_made(
    alloc: Global,
    samples: &FirstSamples<'_>,
    number: i32,
    from: u32,
    replies: &mut Replies,
) -> Result<(), NoMemory>
    ensures ok { OnOk result (replies.new ≡ replies.old ++ (record { to = Client from; message = done_message (command_of samples.now) number }) ∷ []) }
    ensures err { OnErr result (replies.new ≡ replies.old) }
{
    match *samples {
        FirstSamples::Zeros => tell_done(alloc, b"/b_alloc", number, from, replies),
        FirstSamples::Read(_) => tell_done(alloc, b"/b_allocRead", number, from, replies),
    }
}

/// Makes a buffer, and tells of it.
pub fn make<P: Port>(
    alloc: Global,
    stage: &mut Stage,
    port: &mut P,
    new: &NewBuffer,
    samples: &FirstSamples<'_>,
    from: u32,
    replies: &mut Replies,
) -> Result<Option<Reason>, NoMemory>
    requires new { IsNew new.now }
    requires whole { AreWhole new.now samples.now }
    requires number { number_refusal new.now.number ≡ None }
    requires pictures { Pictures stage.old (P.words port.old) }
    requires foot { WritesWorld (P.foot port.old) stage.old.pool.region }
    ensures row { Follows result (hold (command_of samples.now) (samples_for new.now samples.now) from new.now (turn_of stage.old (P.words port.old) replies.old)) (turn_of stage.new (P.words port.new) replies.new) }
    ensures unchanged { UnlessFollowed result (stage.new ≡ stage.old) }
    ensures untouched { UnlessFollowed result (P.words port.new ≡ P.words port.old) }
    ensures untold { UnlessFollowed result (replies.new ≡ replies.old) }
    ensures pictures { Pictures stage.new (P.words port.new) }
    ensures region { stage.new.pool.region ≡ stage.old.pool.region }
    ensures others { KeepsOutside stage.old.pool.region (P.words port.old) (P.words port.new) }
    ensures len { length (P.words port.new) ≡ length (P.words port.old) }
    ensures port { SameButWords P.foot P.rest port.old port.new }
{
    let told = replies.len();
    tell_made(alloc, samples, new.number, from, replies)?;
    let old = find(&stage.buffers, new.number);
    match take_place(&mut stage.pool, old, new) {
        Ok(Some(place)) => {
            stage.buffers.set(new.number as u32, Some(place));
            set_first(port, place.extent, new, samples);
            Ok(None)
        }
        Ok(None) => {
            replies.truncate(told);
            Ok(Some(Reason::PoolFull))
        }
        Err(fault) => {
            replies.truncate(told);
            Err(fault)
        }
    }
}
