//! The connection at a port is served, or several of them.
ghost use Rattle.std.specs.Prelude.{◌≡◌, ◌<◌, ◌^◌, ℕ, length, Err, Ok, IfOk};
ghost use Rattle.std.specs.Duration.{as_nanos};
ghost use Rattle.sn_pcm.specs.declared.settings.Settings.{Settings};
ghost use Rattle.sn_server.specs.Served.{GivesEnd};
ghost use Rattle.sn_server.specs.declared.ended.Ended.{Ended};
ghost use Rattle.sn_words.specs.Choices.{numbers};
ghost use Rattle.sn_words.specs.Serving.{serve_words_of};
ghost use Rattle.snova.specs.Clock.{time_tag};
ghost use Rattle.snova.specs.Pacing.{by_sound};
ghost use Rattle.sn_top.specs.Connection.{AreServed};
ghost use Rattle.snova.specs.declared.exit.Exit.{Exit};

use crate::clock::{Reading, now};
use crate::exit::Exit;
use crate::pacing::{open_sound, pace_of};
use crate::reasons::{tell, tell_last, told};
use crate::several::{Names, serve_several};
use sn_files::NotedSink;
use sn_ports::{Link, Open, Sink, Word};
use sn_server::Ended;
use sn_tcp::TcpLink;
use sn_top::{Served, serve};
use sn_words::{ServeWords, serve_words};
use std::io;
use std::io::{Eprint, Read, Write};
use std::net::{Ipv4Addr, Net, OpenListener, OpenStream, TcpListener, TcpStream};
use std::os::fd::AsRawFd;
use std::rt::{Clock, Files};
use std::sync::Wait;
use std::thread::Threads;

/// A link over a socket, at the pace that the words choose.
fn link_over<S: Read + Write + OpenStream + AsRawFd + Drop, C: Clock + Drop>(
    socket: S,
    clock: C,
    chosen: &ServeWords,
) -> io::Result<TcpLink<S, C>>
    ensures { IfOk result (λ link. (link.line.pace.rate ≡ chosen.now.settings.rate) × (link.line.pace.by_sound ≡ by_sound chosen.now.pacing)) }
{
    TcpLink::new(socket, clock, pace_of(chosen))
}

/// Serves what comes over a link. Block 0 is at the time that the clock read.
fn serve_since<H: AllocGlobal + Threads + Sync, L: Link, O: Sink>(
    rt: &H,
    words: &[Word],
    start: Reading,
    link: &mut L,
    sound: &mut O,
) -> Served
    requires room { length words.now < 2 ^ 32 }
    ensures served { (how : Ended) → result ≡ Served.Ran how → (s : Settings) × AreServed words.now s × GivesEnd s (time_tag (as_nanos start.since_1970))
        (L.left link.old) (L.left link.new) (O.taken sound.old) (O.taken sound.new) (L.sent link.old) (L.sent link.new) how }
{
    serve(rt, rt.alloc(), words, start.tag, link, sound, &Open)
}

/// Takes the first connection that comes, and no other.
fn accept_one(listener: TcpListener) -> io::Result<TcpStream> {
    let (stream, _) = listener.accept()?;
    Ok(stream)
}

/// Serves the first connection that comes to the port of this machine, and writes the sound to a file, for words that
/// choose these settings and this port.
fn serve_on_port<
    H: Files
        + Clock
        + Eprint
        + Net<Listener = TcpListener, Stream = TcpStream>
        + AllocGlobal
        + Threads
        + Sync,
>(rt: &H, words: &[Word], chosen: &ServeWords, names: &Names<'_>) -> io::Result<Served>
    requires room { length words.now < 2 ^ 32 }
    requires accepted { serve_words_of words.now ≡ Ok (record { settings = numbers chosen.now.settings; port = chosen.now.port; clients = chosen.now.clients; pacing = chosen.now.pacing }) }
{
    let listener = told(
        rt,
        names.port,
        TcpListener::bind(rt, (Ipv4Addr::LOCALHOST, chosen.port)),
    )?;
    let mut sound = NotedSink::new(told(rt, names.sound, open_sound(rt, names.sound, chosen))?);
    let stream = told(rt, names.port, accept_one(listener))?;
    let start = told(rt, "the clock", now(rt))?;
    let mut link = told(rt, names.port, link_over(stream, rt, chosen))?;
    let served = serve_since(rt, words, start, &mut link, &mut sound);
    tell_last(rt, "the connection", link.faults().last());
    tell_last(rt, names.sound, sound.faults().last());
    if served == Served::Ran(Ended::Closed) && !link.has_heard() {
        tell(
            rt,
            "the connection",
            io::Error::other("closed before a byte came"),
        );
    }
    Ok(served)
}

/// Serves the one connection, or the several at once, that the words choose, and writes the sound at the path that is
/// the last word.
fn serve_chosen<
    H: Files
        + Clock
        + Eprint
        + Net<Listener = TcpListener, Stream = TcpStream>
        + AllocGlobal
        + Threads
        + Wait
        + Sync,
>(rt: &H, args: &[String], words: &[Word], chosen: &ServeWords) -> io::Result<Exit>
    requires room { length words.now < 2 ^ 32 }
    requires accepted { serve_words_of words.now ≡ Ok (record { settings = numbers chosen.now.settings; port = chosen.now.port; clients = chosen.now.clients; pacing = chosen.now.pacing }) }
{
    let [.., port, sound] = args else {
        return Ok(Exit::NotOpened);
    };
    let names = Names {
        port: port.as_str(),
        sound: sound.as_str(),
    };
    if chosen.clients == 1 {
        return Ok(Exit::Served(serve_on_port(rt, words, chosen, &names)?));
    }
    Ok(Exit::Session(serve_several(rt, chosen, &names)?))
}

/// Serves what comes to the port that the words name. If they are refused, nothing is opened.
pub(crate) fn serve_port<
    H: Files
        + Clock
        + Eprint
        + Net<Listener = TcpListener, Stream = TcpStream>
        + AllocGlobal
        + Threads
        + Wait
        + Sync,
>(rt: &H, args: &[String], words: &[Word]) -> Exit
    requires { length words.now < 2 ^ 32 }
    ensures { (i : ℕ) → serve_words_of words.now ≡ Err i → result ≡ Exit.Served (Served.BadWords i) }
{
    match serve_words(words) {
        Ok(chosen) => match serve_chosen(rt, args, words, &chosen) {
            Ok(exit) => exit,
            Err(error) => Exit::unopened(error.kind()),
        },
        Err(bad) => Exit::Served(Served::BadWords { index: bad.index }),
    }
}
