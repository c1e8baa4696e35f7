//! Carries out the calls that rows of files name, and compares what each answers with what the row says. Then it tries
//! calls that no row names, each alone.
#![tactic(auto)]

mod alone;
mod connections;
mod fixed;
mod holding;
mod line;
mod machines;
mod packets;
mod pools;
mod rounds;
mod texts;
mod trees;

use connections::ConnectionRows;
use fixed::FixedRows;
use line::{Line, Rows, Unanswered};
use machines::MachineRows;
use pools::PoolRows;
use rounds::RoundRows;
use std::net::Net;
use std::process::ExitCode;
use std::rt::Files;
use std::{env, fs, io};
use texts::TextRows;

/// Prints a row that was not answered as it should.
fn print_unanswered(rt: &impl Print, path: &str, row: &str, why: Unanswered) -> io::Result<()> {
    match why {
        Unanswered::NoMemory => println!(rt; "{path}: no memory: {row}"),
        Unanswered::NoRow => println!(rt; "{path}: no row: {row}"),
        Unanswered::Outside => println!(rt; "{path}: the outside failed: {row}"),
    }
}

/// Tries a row, and prints it if its answer is another one. It returns whether the row is as it should.
fn try_row<R: Rows>(rt: &impl Print, path: &str, text: &str, rows: &mut R) -> io::Result<bool>
    requires { R.ready rows.old }
    ensures { R.ready rows.new }
{
    let (row, wanted) = text.split_once("=>").unwrap_or((text, ""));
    let row = row.trim();
    match rows.answer(&mut Line::new(row)) {
        Ok(answer) if answer.as_str().trim() == wanted.trim() => Ok(true),
        Ok(answer) => {
            println!(rt; "{path}: {row} => {}", answer.as_str())?;
            Ok(false)
        }
        Err(why) => {
            print_unanswered(rt, path, row, why)?;
            Ok(false)
        }
    }
}

/// Tries the rows of a text, and prints how many they are if all are as they should. It returns whether they are.
fn try_rows<R: Rows + Drop>(rt: &impl Print, path: &str, text: &str, rows: R) -> io::Result<bool>
    requires { R.ready rows }
{
    let mut rows = rows;
    let mut count: u64 = 0;
    let mut is_well = true;
    for line in text.lines() {
        if line.is_empty() || line.starts_with('#') {
            continue;
        }
        count = count.saturating_add(1);
        is_well = try_row(rt, path, line, &mut rows)? && is_well;
    }
    if is_well {
        println!(rt; "{path}: {count} rows as they should")?;
    }
    Ok(is_well)
}

/// Tries the rows of a file, whose name says what they try.
fn try_file<H: Files + Net + Print + AllocGlobal>(rt: &H, path: &str) -> Result<bool, Unanswered> {
    let text = fs::read_to_string(rt, path)?;
    let text = text.as_str();
    let alloc = rt.alloc();
    match path {
        "fixed.txt" => Ok(try_rows(rt, path, text, FixedRows { alloc })?),
        "pool.txt" => Ok(try_rows(rt, path, text, PoolRows::new(alloc)?)?),
        "machine.txt" => Ok(try_rows(rt, path, text, MachineRows { alloc })?),
        "round.txt" => Ok(try_rows(rt, path, text, RoundRows::new(alloc)?)?),
        "tcp.txt" => Ok(try_rows(rt, path, text, ConnectionRows { rt, alloc })?),
        "tone.txt" => Ok(try_rows(rt, path, text, TextRows { alloc })?),
        _ => Err(Unanswered::NoRow),
    }
}

/// Tries the calls that no row names, and prints how many they are if all are as they should. It returns whether they
/// are.
fn try_alone(rt: &(impl Files + Print + AllocGlobal)) -> io::Result<bool> {
    let mut is_well = true;
    let calls = alone::calls(rt, rt.alloc());
    let count = calls.len();
    for (name, outcome) in calls {
        match outcome {
            Ok(true) => continue,
            Ok(false) => println!(rt; "alone: {name} differs")?,
            Err(why) => print_unanswered(rt, "alone", name, why)?,
        }
        is_well = false;
    }
    if is_well {
        println!(rt; "alone: {count} calls as they should")?;
    }
    Ok(is_well)
}

fn main(rt: HostRuntime) -> io::Result<ExitCode> {
    let mut is_well = true;
    for path in env::args(&rt)?.skip(1) {
        match try_file(&rt, path.as_str()) {
            Ok(is_right) => is_well = is_right && is_well,
            Err(why) => {
                print_unanswered(&rt, path.as_str(), "", why)?;
                is_well = false;
            }
        }
    }
    is_well = try_alone(&rt)? && is_well;
    Ok(if is_well {
        ExitCode::SUCCESS
    } else {
        ExitCode::FAILURE
    })
}
