//! Plays rounds whose jobs several threads share, and prints the sum of the words that they leave.
#![tactic(auto)]

mod hands;
mod mixing;
mod plans;

use plans::{mixed, mixed_by_crew};
use sn_crew::HoldGate;
use sn_ports::{NoMemory, Open};
use std::io;
use std::process::ExitCode;

const ROUNDS: u32 = 100;

/// How many turns a job is held at most.
const MOST_TURNS: u32 = 500_000_000;

/// How many turns a job is held if the other job can't come.
const FEW_TURNS: u32 = 1_000;

fn print_sum(
    rt: &impl Print,
    number: u32,
    name: &str,
    sum: Result<Option<u64>, NoMemory>,
) -> io::Result<()> {
    match sum {
        Ok(Some(sum)) => println!(rt; "{number} {name}: {sum}"),
        Ok(None) => println!(rt; "{number} {name}: no round"),
        Err(_) => println!(rt; "{number} {name}: no memory"),
    }
}

fn main(rt: HostRuntime) -> io::Result<ExitCode> {
    for threads in [1u32, 2, 4, 8] {
        let sum = mixed(&rt, rt.alloc(), threads, ROUNDS);
        print_sum(&rt, threads, "threads", sum)?;
    }
    for workers in [1u32, 2, 3, 4, 8, 16] {
        let sum = mixed_by_crew(&rt, rt.alloc(), workers, &Open, ROUNDS);
        print_sum(&rt, workers, "workers", sum)?;
    }
    let alone = HoldGate::new(1, 2, FEW_TURNS);
    let sum = mixed_by_crew(&rt, rt.alloc(), 1, &alone, ROUNDS);
    print_sum(&rt, 1, "worker and a gate", sum)?;
    println!(rt; "jobs 1 and 2 met: {}", alone.met())?;
    let gate = HoldGate::new(1, 2, MOST_TURNS);
    let sum = mixed_by_crew(&rt, rt.alloc(), 2, &gate, ROUNDS);
    print_sum(&rt, 2, "workers and a gate", sum)?;
    println!(rt; "jobs 1 and 2 met: {}", gate.met())?;
    Ok(ExitCode::SUCCESS)
}
