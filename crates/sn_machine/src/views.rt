//! What main and a worker know of a round.
use crate::lists::{Debts, RestedRounds, Script, Words};
use sn_round::{Jobs, Plan};

/// A round that was rested: its jobs, and how many worker seats were split in it before the first join.
#[derive(Drop)]
pub struct Rested {
    /// Its jobs.
    pub jobs: Plan,
    /// Its crew.
    pub crew: u64,
}

/// What main knows of the moment.
#[derive(Drop)]
pub enum Phase {
    /// No round runs. The memory words and the job words.
    Idle(Words, Words),
    /// A round runs. Its jobs, its script, its crew so far, and the job words at `go`.
    Round(Plan, Script, u64, Words),
}

/// What main knows.
#[derive(Drop)]
pub struct Main {
    /// What it knows of the moment.
    pub phase: Phase,
    /// How many worker seats are live.
    pub live: u64,
    /// A seat was joined in this round.
    pub joined: bool,
    /// The jobs that it knows to have ended.
    pub ended: Jobs,
    /// The rounds that were rested.
    pub rested: RestedRounds,
    /// How often it stored to a memory word while no round ran.
    pub stores: u64,
}

/// A job that a worker runs, and the memory words as it sees them.
#[derive(Drop)]
pub struct RunningJob {
    /// The job.
    pub job: u32,
    /// Its picture of the memory words.
    pub picture: Words,
}

/// What a worker knows.
#[derive(Drop)]
pub struct Worker {
    /// The seat was split and not joined yet.
    pub live: bool,
    /// It was split after a seat was joined.
    pub sweeps: bool,
    /// The jobs of the round.
    pub jobs: Plan,
    /// The script of the round.
    pub script: Script,
    /// The job that it runs.
    pub runs: Option<RunningJob>,
    /// What it owes: each pair is a job that it ended, and a successor that is to be told.
    pub debts: Debts,
    /// The jobs that it knows to have ended.
    pub ended: Jobs,
    /// How often it read a job word.
    pub readings: u64,
    /// The job and the word of the last reading.
    pub last: (u32, u64),
}

/// What a seat knows. The first seat is main's, and each other one a worker's.
///
/// `size` and `room` are the numbers of memory words and job words. Main's seat has an idle worker's part, and a
/// worker's seat an idle main's.
#[derive(Drop)]
pub struct View {
    /// The number of memory words.
    pub size: u64,
    /// The number of job words.
    pub room: u64,
    /// Main's part.
    pub main: Main,
    /// A worker's part.
    pub worker: Worker,
}
