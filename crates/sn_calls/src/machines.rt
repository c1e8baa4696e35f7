//! Lists of steps of the round machine that dice choose. After each step the rule is checked by computation.
ghost use Rattle.sn_calls.specs.Ready.{Always};

use crate::holding::holds;
use crate::line::{Answer, Line, Rows, Unanswered, number, said};
use sn_jobs::{no_jobs, put};
use sn_machine::{Machine, Script, View, Words, may_write};
use sn_mem::{AllMoves, Extent, Extents, Foot, Moves, clash};
use sn_ports::NoMemory;
use sn_round::{Ids, Job, Jobs, Plan, SharedFoot};
use std::alloc::Global;

/// How many memory words and job words a machine has.
const WORDS: u32 = 6;

const JOBS: u32 = 6;

/// After main knows this many jobs to have ended, it splits no more seats: each join of a sweep's seat doubles them.
const MOST_KNOWN: usize = 1000;

/// Numbers that look random, the same from each seed.
#[derive(Drop)]
struct Dice {
    state: u64,
}

impl Dice {
    /// A number below another, or 0 if that is 0.
    fn below(&mut self, end: u32) -> u32 {
        self.state = self
            .state
            .wrapping_mul(6_364_136_223_846_793_005)
            .wrapping_add(1_442_695_040_888_963_407);
        let high = (self.state >> 33) as u32;
        high.checked_rem(end).unwrap_or(0)
    }

    /// Whether one of `chances` chances comes.
    fn one_in(&mut self, chances: u32) -> bool {
        self.below(chances) == 0
    }
}

/// Up to two extents, some of which reach past the memory.
fn random_extents(alloc: Global, dice: &mut Dice) -> Result<Extents, NoMemory> {
    let mut extents = Extents::new(alloc);
    for _ in 0..dice.below(3) {
        let at = dice.below(WORDS);
        let len = dice.below(3);
        extents.push(Extent { at, len })?;
    }
    Ok(extents)
}

/// A job after these. Nearly each of them with which it clashes is a predecessor, and some others are.
fn random_job(alloc: Global, dice: &mut Dice, jobs: &[Job]) -> Result<Job, NoMemory> {
    let foot = Foot {
        reads: random_extents(alloc, dice)?,
        writes: random_extents(alloc, dice)?,
    };
    let mut before = Jobs::new(alloc);
    let mut number: u32 = 0;
    for job in jobs {
        let clashes = clash(job.foot.as_foot(), &foot);
        if clashes && !dice.one_in(8) || dice.one_in(5) {
            before.push(number)?;
        }
        number = number.saturating_add(1);
    }
    Ok(Job {
        synths: Ids::new(alloc),
        moves: AllMoves::new(alloc),
        lanes: Moves::new(alloc),
        foot: SharedFoot::new(alloc, foot)?,
        before,
    })
}

fn random_plan(alloc: Global, dice: &mut Dice) -> Result<Plan, NoMemory> {
    let mut jobs = no_jobs(alloc);
    for _ in 0..dice.below(JOBS + 1) {
        let job = random_job(alloc, dice, &jobs)?;
        put(&mut jobs, job)?;
    }
    Plan::new(alloc, jobs)
}

/// A script that begins with some words. Each job changes some of the words that it may write.
fn random_script(
    alloc: Global,
    dice: &mut Dice,
    plan: &Plan,
    base: &Words,
) -> Result<Script, NoMemory> {
    let mut words = base.copied(alloc)?;
    let mut lists = Vec::new(alloc);
    for job in 0..plan.jobs() {
        lists.push(words.copied(alloc)?)?;
        for word in 0..WORDS {
            if may_write(plan.foot(job), u64::from(word)) && dice.one_in(2) {
                words.set(word as usize, u64::from(dice.below(100)));
            }
        }
    }
    lists.push(words)?;
    Ok(Script::of(lists))
}

/// What brings a worker on.
#[derive(Clone, Copy)]
enum Next {
    Claim,
    Store(usize, u64),
    End,
    Release,
}

/// What is next for a worker that runs nothing.
fn next_of_idle(view: &View) -> Next {
    if view.worker.debts.as_slice().is_empty() {
        Next::Claim
    } else {
        Next::Release
    }
}

/// A machine, the dice, and what was counted of the round that runs.
#[derive(Drop)]
struct Game {
    alloc: Global,
    dice: Dice,
    machine: Machine,
    // How often each job was got in this round.
    gots: Words,
    // How many seats were split in it before the first join, and whether a seat was joined.
    crew: u64,
    is_joined: bool,
    // Whether each count was as it should.
    is_well: bool,
}

fn zeros(alloc: Global, count: u32) -> Result<Words, NoMemory> {
    let mut words = Vec::new(alloc);
    for _ in 0..count {
        words.push(0)?;
    }
    Ok(Words::of(words))
}

impl Game {
    fn new(alloc: Global, dice: Dice) -> Result<Game, NoMemory> {
        let machine = Machine::new(alloc, zeros(alloc, WORDS)?, zeros(alloc, JOBS)?)?;
        Ok(Game {
            alloc,
            dice,
            machine,
            gots: zeros(alloc, JOBS)?,
            crew: 0,
            is_joined: false,
            is_well: true,
        })
    }

    /// How many rounds were rested.
    fn rounds(&self) -> u64 {
        match self.machine.views.first() {
            Some(main) => main.main.rested.as_slice().len() as u64,
            None => 0,
        }
    }

    /// Arms the jobs of a plan, and goes. Now and then a job isn't armed.
    fn begin(&mut self) -> Result<(), NoMemory> {
        let plan = random_plan(self.alloc, &mut self.dice)?;
        let script = random_script(self.alloc, &mut self.dice, &plan, &self.machine.memory)?;
        for job in 0..plan.jobs() {
            if !self.dice.one_in(20) {
                let count = plan.predecessors(job).as_slice().len() as u64;
                self.machine.arm(job as usize, count);
            }
        }
        if self.machine.go(self.alloc, plan, script)? {
            self.gots = zeros(self.alloc, JOBS)?;
            self.crew = 0;
            self.is_joined = false;
        }
        Ok(())
    }

    fn claim(&mut self, seat: usize, job: u32) -> Result<(), NoMemory> {
        let word = self.machine.counts.word(job as usize);
        if self.machine.claim(self.alloc, seat, job)? && word == 0 {
            let count = self.gots.word(job as usize).saturating_add(1);
            self.gots.set(job as usize, count);
            self.is_well = self.is_well && count == 1;
        }
        Ok(())
    }

    /// The word that the script wants of the job that a seat runs.
    fn wanted(&self, seat: usize, word: u32) -> Option<u64> {
        let view = self.machine.views.get(seat)?;
        match &view.worker.runs {
            Some(running) => {
                let list = view.worker.script.list(running.job as usize + 1);
                list.get(word as usize).copied()
            }
            None => None,
        }
    }

    /// Stores what the script wants, or now and then something else.
    fn store(&mut self, seat: usize) {
        let word = self.dice.below(WORDS);
        let value = u64::from(self.dice.below(100));
        let is_other = self.dice.one_in(12);
        let wanted = self.wanted(seat, word).filter(|_| !is_other);
        self.machine
            .store(seat, word as usize, wanted.unwrap_or(value));
    }

    /// Loads a word, which is that of the picture.
    fn load(&mut self, seat: usize) {
        let word = self.dice.below(WORDS) as usize;
        let Some(found) = self.machine.load(seat, word) else {
            return;
        };
        let Some(view) = self.machine.views.get(seat) else {
            return;
        };
        if let Some(running) = &view.worker.runs {
            self.is_well = self.is_well && found == running.picture.word(word);
        }
    }

    /// How many jobs main knows to have ended, each as often as it learnt of it.
    fn known(&self) -> usize {
        match self.machine.views.first() {
            Some(main) => main.main.ended.as_slice().len(),
            None => 0,
        }
    }

    fn split(&mut self) -> Result<(), NoMemory> {
        if self.known() >= MOST_KNOWN {
            return Ok(());
        }
        if self.machine.split(self.alloc)? && !self.is_joined {
            self.crew = self.crew.saturating_add(1);
        }
        Ok(())
    }

    /// Rests. The last rested round has the crew that was counted.
    fn rest(&mut self) -> Result<(), NoMemory> {
        if !self.machine.rest(self.alloc)? {
            return Ok(());
        }
        if let Some(main) = self.machine.views.first() {
            let last = main.main.rested.as_slice().last();
            self.is_well = self.is_well && last.is_some_and(|round| round.crew == self.crew);
        }
        Ok(())
    }

    /// A seat, mostly one that is live.
    fn random_seat(&mut self) -> usize {
        let count = self.machine.views.len();
        let most = u32::try_from(count).unwrap_or(u32::MAX);
        let start = self.dice.below(most) as usize;
        if self.dice.one_in(8) {
            return start;
        }
        for seat in start..count {
            if self.is_live(seat) {
                return seat;
            }
        }
        start
    }

    fn is_live(&self, seat: usize) -> bool {
        match self.machine.views.get(seat) {
            Some(view) => view.worker.live,
            None => false,
        }
    }

    /// What is next for a worker, apart from a claim.
    fn next_of(&self, seat: usize) -> Next {
        let Some(view) = self.machine.views.get(seat) else {
            return Next::Claim;
        };
        let Some(running) = &view.worker.runs else {
            return next_of_idle(view);
        };
        let list = view.worker.script.list(running.job as usize + 1);
        for (word, wanted) in list.iter().enumerate() {
            if running.picture.word(word) != *wanted {
                return Next::Store(word, *wanted);
            }
        }
        Next::End
    }

    /// Tries the step that brings a worker on.
    fn advance(&mut self, seat: usize, job: u32) -> Result<(), NoMemory> {
        match self.next_of(seat) {
            Next::Claim => self.claim(seat, job)?,
            Next::Store(word, value) => {
                self.machine.store(seat, word, value);
            }
            Next::End => {
                self.machine.end(self.alloc, seat)?;
            }
            Next::Release => {
                self.machine.release(seat, 0);
            }
        }
        Ok(())
    }

    fn join(&mut self, seat: usize) -> Result<(), NoMemory> {
        let is_done = self.machine.join(self.alloc, seat)?;
        self.is_joined = self.is_joined || is_done;
        Ok(())
    }

    /// Tries a step of main, as the dice choose.
    fn step_main(&mut self, seat: usize) -> Result<(), NoMemory> {
        let value = u64::from(self.dice.below(100));
        let word = self.dice.below(WORDS + 1) as usize;
        match self.dice.below(6) {
            0 => {
                self.machine.store_idle(word, value);
            }
            1 => self.begin()?,
            2 => self.split()?,
            3 => self.rest()?,
            _ => self.join(seat)?,
        }
        Ok(())
    }

    /// Tries a step of a worker, as the dice choose.
    fn step_worker(&mut self, seat: usize, job: u32) -> Result<(), NoMemory> {
        match self.dice.below(12) {
            0 => self.claim(seat, job)?,
            1 => self.load(seat),
            2 => self.store(seat),
            3 => {
                self.machine.end(self.alloc, seat)?;
            }
            4 => {
                let debt = self.dice.below(2) as usize;
                self.machine.release(seat, debt);
            }
            5 => {
                self.machine.look(seat, job);
            }
            _ => self.advance(seat, job)?,
        }
        Ok(())
    }

    fn step(&mut self) -> Result<(), NoMemory> {
        let seat = self.random_seat();
        let job = self.dice.below(JOBS);
        if self.dice.one_in(3) {
            self.step_main(seat)
        } else {
            self.step_worker(seat, job)
        }
    }

    /// Whether the rule holds, and each count is as it should.
    fn is_well(&self) -> bool {
        self.is_well && holds(&self.machine)
    }
}

/// Plays lists of steps. It returns how many rounds were rested, or nothing if the rule failed to hold.
fn play(alloc: Global, seed: u32, lists: u32, steps: u32) -> Result<Option<u64>, NoMemory> {
    let mut rounds: u64 = 0;
    for list in 0..lists {
        let state = u64::from(seed).wrapping_add(u64::from(list));
        let mut game = Game::new(alloc, Dice { state })?;
        for _ in 0..steps {
            game.step()?;
            if !game.is_well() {
                return Ok(None);
            }
        }
        rounds = rounds.saturating_add(game.rounds());
    }
    Ok(Some(rounds))
}

/// Lists of steps by their seed, their number and their length, and how many rounds they rest at least.
#[derive(Drop)]
pub struct MachineRows {
    pub alloc: Global,
}

impl Rows for MachineRows {
    ghost ready = { λ _. Always };

    fn answer(&mut self, line: &mut Line<'_>) -> Answer {
        let seed = line.natural()?;
        let lists = line.natural()?;
        let steps = line.natural()?;
        let least = u64::from(line.natural()?);
        match play(self.alloc, seed, lists, steps)? {
            Some(rounds) if rounds >= least => said(self.alloc, "the rule holds"),
            Some(rounds) => number(self.alloc, i128::from(rounds)),
            None => said(self.alloc, "the rule is broken"),
        }
    }
}
