//! The connection of a case, tried.
ghost use Rattle.std.specs.Prelude.{IfOk, IfSome, OnOk};
ghost use Rattle.sn_ports.specs.Links.{ArePlayable, IsPlayable};

use crate::ending::{ended_line, ended_writes};
use crate::trial::{CAPACITY, Came, sink};
use sn_pcm::Settings;
use sn_ports::limits::MOST_TICKS;
use sn_ports::{Event, Events, NoMemory, Open, PlayedLink, Text};
use sn_scripts::{Case, Connection, Step};
use sn_server::serve_one;
use std::alloc::Global;
use std::thread::Threads;

/// The event of a step, if it says something.
fn event_of(alloc: Global, step: &Step) -> Result<Option<Event>, NoMemory>
    ensures { IfOk result (λ found. IfSome found IsPlayable) }
{
    match step {
        Step::Bytes(bytes) => {
            let text = Text::from_slice(alloc, bytes.as_slice())?;
            if text.len() == 0 {
                return Ok(None);
            }
            Ok(Some(Event::Bytes(text)))
        }
        Step::Ticks(count) => {
            let count = *count;
            if count == 0 || count > MOST_TICKS {
                return Ok(None);
            }
            Ok(Some(Event::Ticks(count)))
        }
    }
}

fn put_event(events: &mut Events, event: Event) -> Result<(), NoMemory>
    requires playable { IsPlayable event }
    requires before { ArePlayable events.old.items }
    ensures { OnOk result (ArePlayable events.new.items) }
{
    events.push(event)?;
    Ok(())
}

/// The events of steps.
fn events_of(alloc: Global, steps: &[Step]) -> Result<Events, NoMemory>
    ensures { IfOk result (λ events. ArePlayable events.items) }
{
    let mut events = Vec::new(alloc);
    for step in steps {
        match event_of(alloc, step)? {
            Some(event) => put_event(&mut events, event)?,
            None => {}
        }
    }
    Ok(events)
}

/// Serves the connection of a case in memory.
pub fn served<H: AllocGlobal + Threads + Sync>(
    rt: &H,
    case: &Case,
    connection: &Connection,
    settings: &Settings,
) -> Result<Came, NoMemory> {
    let alloc = rt.alloc();
    let events = events_of(alloc, &connection.steps)?;
    let mut link = PlayedLink::new(alloc, events, CAPACITY, case.reply_port.calls(alloc)?)?;
    let mut sound = sink(alloc, &case.sound_port)?;
    let ended = serve_one(
        rt,
        alloc,
        settings,
        connection.base,
        &mut link,
        &mut sound,
        &Open,
    );
    let line = ended_line(alloc, ended)?;
    Came::of(alloc, line, ended_writes(ended), sound.taken(), link.sent())
}
