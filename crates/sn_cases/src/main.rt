//! Renders scripts of commands, or serves them as a connection or as several, and compares all that comes of each with
//! what the script says.
#![tactic(auto)]

mod drawn;
mod ending;
mod engine;
mod serving;
mod session;
mod trial;

use engine::engine_tells;
use sn_scripts::read_cases;
use std::process::ExitCode;
use std::rt::Files;
use std::sync::Wait;
use std::thread::Threads;
use std::{env, fs, io};
use trial::{Difference, Verdict, try_case};

/// Prints where what came differs, and the bytes from there on.
fn print_difference(rt: &impl Print, found: &Difference) -> io::Result<()> {
    print!(rt; "from byte {}:", found.place)?;
    for byte in found.bytes.as_slice() {
        print!(rt; " {byte:02x}")?;
    }
    println!(rt; "")
}

/// Prints what came of a case, and returns whether it is what should come.
fn print_verdict(rt: &impl Print, name: &str, verdict: &Verdict) -> io::Result<bool> {
    println!(rt; "{name}: {}", verdict.words())?;
    match verdict {
        Verdict::Ending(line) => println!(rt; "{}", line.as_str())?,
        Verdict::Replies(found) | Verdict::Sound(found) => print_difference(rt, found)?,
        _ => {}
    }
    Ok(matches!(verdict, Verdict::Agrees))
}

/// Reads the cases of one file and prints a line for each. It returns whether all came out as they should.
fn run_file<H: Files + Print + AllocGlobal + Threads + Wait + Sync>(
    rt: &H,
    path: &str,
) -> io::Result<bool> {
    let text = fs::read_to_string(rt, path)?;
    let Ok(script) = read_cases(rt.alloc(), text.as_str()) else {
        println!(rt; "no memory")?;
        return Ok(false);
    };
    let mut is_well = script.bad_lines.is_empty();
    for line in script.bad_lines.iter() {
        println!(rt; "{path}: line {line} says nothing")?;
    }
    for case in script.cases.iter() {
        let verdict = try_case(rt, &script.cases, case).unwrap_or(Verdict::NoMemory);
        is_well = print_verdict(rt, case.name.as_str(), &verdict)? && is_well;
    }
    Ok(is_well)
}

fn main(rt: HostRuntime) -> io::Result<ExitCode> {
    let mut is_well = engine_tells(&rt).unwrap_or(false);
    let told = if is_well {
        "as it should"
    } else {
        "another state"
    };
    println!(rt; "what an engine tells of itself: {told}")?;
    for path in env::args(&rt)?.skip(1) {
        is_well = run_file(&rt, path.as_str())? && is_well;
    }
    Ok(if is_well {
        ExitCode::SUCCESS
    } else {
        ExitCode::FAILURE
    })
}
