//! Serves two clients at once, again and again, and prints whether each session came out as it should.
#![tactic(auto)]

mod meeting;
mod sessions;

use meeting::{blocks_go_on, readers_meet};
use sessions::{answers, deaf_clients, full_turns, mute_sources, quits, silent_sounds};
use sn_ports::NoMemory;
use std::io;
use std::process::ExitCode;

fn print_told(rt: &impl Print, name: &str, told: Result<bool, NoMemory>) -> io::Result<()> {
    match told {
        Ok(told) => println!(rt; "{name}: {told}"),
        Err(_) => println!(rt; "{name}: no memory"),
    }
}

fn main(rt: HostRuntime) -> io::Result<ExitCode> {
    print_told(&rt, "both clients are answered", answers(&rt))?;
    print_told(&rt, "one turn and no more", full_turns(&rt))?;
    print_told(&rt, "a quit at the last boundary", quits(&rt))?;
    print_told(&rt, "a sink for replies that fails", deaf_clients(&rt))?;
    print_told(&rt, "a source that fails", mute_sources(&rt))?;
    print_told(&rt, "a sink for the sound that fails", silent_sounds(&rt))?;
    print_told(&rt, "two readers read at once", readers_meet(&rt))?;
    print_told(
        &rt,
        "blocks go on until a client is heard",
        blocks_go_on(&rt),
    )?;
    Ok(ExitCode::SUCCESS)
}
