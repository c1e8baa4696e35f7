//! Calls over memory, each with the answer that it gives.
ghost use Rattle.std.specs.Prelude.{◌<◌, ◌^◌, IfOk, vec_len};

use sn_ports::{Calls, Event, MemorySink, MemorySource, NoMemory, Open, PlayedLink, Text, Word};
use sn_server::{Ended, Outcome};
use sn_shelf::MemoryShelf;
use sn_top::{Converted, Served, ShelfOutcome, convert, drill, plan_run, run, run_shelf, serve};
use std::test::Fail;
use std::thread::Threads;

/// `/sync 7`, with its size.
const SYNC: [u8; 20] = *b"\0\0\0\x10/sync\0\0\0,i\0\0\0\0\0\x07";

/// `/synced 7`, with its size.
const SYNCED: [u8; 20] = *b"\0\0\0\x10/synced\0,i\0\0\0\0\0\x07";

/// `/quit`, with its size.
const QUIT: [u8; 16] = *b"\0\0\0\x0c/quit\0\0\0,\0\0\0";

/// `/done /quit`, with its size.
const DONE_QUIT: [u8; 24] = *b"\0\0\0\x14/done\0\0\0,s\0\0/quit\0\0\0";

/// `/b_allocRead 0 a.wav` and `/b_get 0 0`, each with its size.
const ASKED: [u8; 60] =
    *b"\0\0\0\x20/b_allocRead\0\0\0\0,is\0\0\0\0\0a.wav\0\0\0\0\0\0\x14/b_get\0\0,ii\0\0\0\0\0\0\0\0\0";

/// What a run over memory came to.
#[derive(Drop)]
struct Ran {
    outcome: Outcome,
    source: MemorySource,
    sound: MemorySink,
    replies: MemorySink,
}

/// What serving over memory came to.
#[derive(Drop)]
struct Talk {
    served: Served,
    link: PlayedLink,
    sound: MemorySink,
}

/// Fewer than 2^32 words.
fn words<H: AllocGlobal>(rt: &H, texts: &[&str]) -> Result<Vec<Word>, NoMemory>
    ensures { IfOk result (λ words. vec_len words < 2 ^ 32) }
{
    let mut words = Vec::new(rt.alloc());
    for text in texts {
        words.push(Text::from_slice(rt.alloc(), text.as_bytes())?)?;
    }
    if u32::try_from(words.len()).is_err() {
        return Err(NoMemory);
    }
    Ok(words)
}

fn calls<H: AllocGlobal>(rt: &H, numbers: &[u32]) -> Result<Calls, NoMemory> {
    Ok(Calls::from_vec(Vec::from_slice(rt.alloc(), numbers)?))
}

/// Runs `/sync 7` by these words. The calls of each object with these numbers fail.
fn run_words<H: AllocGlobal + Threads + Sync>(
    rt: &H,
    texts: &[&str],
    fails: &[u32],
) -> Result<Ran, NoMemory> {
    let alloc = rt.alloc();
    let words = words(rt, texts)?;
    let mut source = MemorySource::new(Text::from_slice(alloc, &SYNC)?, 3, calls(rt, fails)?);
    let mut sound = MemorySink::new(alloc, 100, 100, calls(rt, fails)?)?;
    let mut replies = MemorySink::new(alloc, 100, 7, calls(rt, fails)?)?;
    let outcome = run(
        rt,
        alloc,
        &words,
        &mut source,
        &mut sound,
        &mut replies,
        &Open,
    );
    Ok(Ran {
        outcome,
        source,
        sound,
        replies,
    })
}

/// Serves `/quit` and one block by these words. The calls of each object with these numbers fail.
fn serve_words<H: AllocGlobal + Threads + Sync>(
    rt: &H,
    texts: &[&str],
    fails: &[u32],
) -> Result<Talk, NoMemory> {
    let alloc = rt.alloc();
    let words = words(rt, texts)?;
    let packet = Event::Bytes(Text::from_slice(alloc, &QUIT)?);
    let events = vec![in alloc; packet, Event::Ticks(1)]?;
    let mut link = PlayedLink::new(alloc, events, 100, calls(rt, fails)?)?;
    let mut sound = MemorySink::new(alloc, 100, 100, calls(rt, fails)?)?;
    let served = serve(rt, alloc, &words, 0, &mut link, &mut sound, &Open);
    Ok(Talk {
        served,
        link,
        sound,
    })
}

#[test]
fn a_stream_is_run(rt: HostRuntime) -> Result<(), Fail> {
    let ran = run_words(&rt, &["render", "a", "b", "c"], &[])?;
    assert_eq!(rt; ran.outcome, Outcome::Done { blocks: 0 });
    assert_eq!(rt; ran.sound.taken().len(), 44);
    assert!(rt; ran.sound.taken().starts_with(b"RIFF\x24\0\0\0WAVE"));
    assert_eq!(rt; ran.replies.taken(), SYNCED.as_slice());
    Ok(())
}

/// Any call of the source or of a sink would be counted, since each fails at its first.
#[test]
fn words_that_are_refused(rt: HostRuntime) -> Result<(), Fail> {
    let rows: [(&[&str], u32); 4] = [
        (&[], 0),
        (&["render", "a", "b"], 3),
        (&["render", "rate=44000", "a", "b", "c"], 1),
        (&["render", "bits=16", "bits=24", "a", "b", "c"], 2),
    ];
    for (texts, index) in rows {
        let ran = run_words(&rt, texts, &[0])?;
        assert_eq!(rt; ran.outcome, Outcome::BadWords { index });
        let faults = [
            ran.source.faults(),
            ran.sound.faults(),
            ran.replies.faults(),
        ];
        assert_eq!(rt; faults, [0, 0, 0]);
    }
    Ok(())
}

#[test]
fn a_connection_is_served(rt: HostRuntime) -> Result<(), Fail> {
    let talk = serve_words(&rt, &["serve", "5000", "out"], &[])?;
    assert_eq!(rt; talk.served, Served::Ran(Ended::Quit));
    assert_eq!(rt; talk.link.sent(), DONE_QUIT.as_slice());
    assert_eq!(rt; talk.sound.taken().len(), 0);
    Ok(())
}

#[test]
fn a_port_that_is_refused(rt: HostRuntime) -> Result<(), Fail> {
    let talk = serve_words(&rt, &["serve", "0", "out"], &[0])?;
    assert_eq!(rt; talk.served, Served::BadWords { index: 1 });
    assert_eq!(rt; [talk.link.faults(), talk.sound.faults()], [0, 0]);
    Ok(())
}

/// Drills by these words, onto a sink whose calls with these numbers fail.
fn drilled<H: AllocGlobal + Threads + Sync>(
    rt: &H,
    texts: &[&str],
    fails: &[u32],
) -> Result<(Outcome, MemorySink), NoMemory> {
    let alloc = rt.alloc();
    let words = words(rt, texts)?;
    let mut out = MemorySink::new(alloc, 100, 20, calls(rt, fails)?)?;
    let outcome = drill(rt, alloc, &words, &mut out, &Open);
    Ok((outcome, out))
}

#[test]
fn a_drill_is_played(rt: HostRuntime) -> Result<(), Fail> {
    let (outcome, out) = drilled(&rt, &["drill", "seed=1", "blocks=1"], &[])?;
    assert_eq!(rt; outcome, Outcome::Done { blocks: 1 });
    assert_eq!(rt;
        out.taken(),
        b"drill blocks 1 sound 300 replies 48 sum 2003\n".as_slice()
    );
    for workers in ["workers=1", "workers=8"] {
        let (outcome, out) = drilled(&rt, &["drill", "seed=1", workers, "blocks=64"], &[])?;
        assert_eq!(rt; outcome, Outcome::Done { blocks: 64 });
        assert_eq!(rt;
            out.taken(),
            b"drill blocks 64 sound 16428 replies 48 sum 1804405\n".as_slice()
        );
    }
    Ok(())
}

/// The first call of the sink fails, or the second, which follows 20 bytes.
#[test]
fn a_drill_that_ends_early(rt: HostRuntime) -> Result<(), Fail> {
    let rows: [(&[&str], u32); 4] = [
        (&[], 0),
        (&["drum"], 0),
        (&["drill", "blocks=20001"], 1),
        (&["drill", "blocks=1", "seed=1", "blocks=1"], 3),
    ];
    for (texts, index) in rows {
        let (outcome, out) = drilled(&rt, texts, &[0])?;
        assert_eq!(rt; outcome, Outcome::BadWords { index });
        assert_eq!(rt; out.faults(), 0);
    }
    for (call, taken) in [(0, 0), (1, 20)] {
        let (outcome, out) = drilled(&rt, &["drill", "blocks=1"], &[call])?;
        assert_eq!(rt; outcome, Outcome::SoundFault);
        assert_eq!(rt; out.taken().len(), taken);
    }
    Ok(())
}

/// The first call of the shelf fails.
#[test]
fn a_shelf_that_fails(rt: HostRuntime) -> Result<(), Fail> {
    let alloc = rt.alloc();
    let words = words(&rt, &["render", "a", "b", "c"])?;
    let mut source = MemorySource::new(Text::from_slice(alloc, &ASKED)?, 60, calls(&rt, &[])?);
    let mut shelf = MemoryShelf::new(Vec::new(alloc), calls(&rt, &[0])?);
    let mut sound = MemorySink::new(alloc, 100, 100, calls(&rt, &[])?)?;
    let mut replies = MemorySink::new(alloc, 100, 100, calls(&rt, &[])?)?;
    let outcome = run_shelf(
        &rt,
        alloc,
        &words,
        &mut source,
        &mut shelf,
        &mut sound,
        &mut replies,
        &Open,
    );
    assert_eq!(rt; outcome, ShelfOutcome::ShelfFault);
    assert_eq!(rt; outcome.status(), 14);
    assert_eq!(rt; [sound.taken().len(), replies.taken().len()], [0, 0]);
    Ok(())
}

#[test]
fn a_stream_is_dumped(rt: HostRuntime) -> Result<(), Fail> {
    let alloc = rt.alloc();
    let words = words(&rt, &["dump", "a", "b"])?;
    let mut source = MemorySource::new(Text::from_slice(alloc, &SYNC)?, 3, calls(&rt, &[])?);
    let mut out = MemorySink::new(alloc, 100, 7, calls(&rt, &[])?)?;
    let converted = convert(alloc, &words, &mut source, &mut out);
    assert_eq!(rt; converted, Converted::Done { packets: 1 });
    assert_eq!(rt; out.taken(), b"/sync 7\n".as_slice());
    Ok(())
}

#[test]
fn a_plan_is_reported(rt: HostRuntime) -> Result<(), Fail> {
    let alloc = rt.alloc();
    let words = words(&rt, &["plan", "a", "b"])?;
    let mut source = MemorySource::new(Text::from_slice(alloc, &SYNC)?, 3, calls(&rt, &[])?);
    let mut out = MemorySink::new(alloc, 100, 7, calls(&rt, &[])?)?;
    let outcome = plan_run(&rt, alloc, &words, &mut source, &mut out, &Open);
    assert_eq!(rt; outcome, Outcome::Done { blocks: 0 });
    assert_eq!(rt;
        out.taken(),
        b"synths 0 units 0 cost 0\nchain -\n".as_slice()
    );
    Ok(())
}
