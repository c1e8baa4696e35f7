//! What holds between any two steps of a round machine, by computation.
use sn_machine::{CLAIMED, ENDED, Machine, Phase, Script, View, Words, may_touch, may_write};
use sn_round::Plan;

/// A round as main knows it.
#[derive(Clone, Copy)]
struct Round<'a> {
    machine: &'a Machine,
    plan: &'a Plan,
    script: &'a Script,
    at_go: &'a Words,
}

fn word(words: &[u64], number: usize) -> u64 {
    words.get(number).copied().unwrap_or(0)
}

/// How many debts name a job, or those of a predecessor alone if it is given.
fn owing(views: &[View], predecessor: Option<u32>, successor: u32) -> u64 {
    let mut count: u64 = 0;
    for view in views {
        for (job, next) in view.worker.debts.as_slice() {
            let is_his = match predecessor {
                Some(wanted) => wanted == *job,
                None => true,
            };
            if *next == successor && is_his {
                count = count.saturating_add(1);
            }
        }
    }
    count
}

/// How many live workers run a job.
fn runners(views: &[View], job: u32) -> u64 {
    let mut count: u64 = 0;
    for view in views {
        if let Some(running) = &view.worker.runs {
            if view.worker.live && running.job == job {
                count = count.saturating_add(1);
            }
        }
    }
    count
}

/// How many worker seats are live.
fn live(views: &[View]) -> u64 {
    let mut count: u64 = 0;
    for view in views {
        if view.worker.live {
            count = count.saturating_add(1);
        }
    }
    count
}

fn knows(view: &View, job: u32) -> bool {
    view.main.ended.as_slice().contains(&job) || view.worker.ended.as_slice().contains(&job)
}

/// Whether a worker's part runs nothing, owes nothing and knows nothing.
fn is_blank(view: &View) -> bool {
    !view.worker.live
        && view.worker.runs.is_none()
        && view.worker.debts.as_slice().is_empty()
        && view.worker.ended.as_slice().is_empty()
}

impl Round<'_> {
    fn is_ended(&self, job: u32) -> bool {
        self.machine.counts.word(job as usize) == ENDED
    }

    fn is_claimed(&self, job: u32) -> bool {
        self.machine.counts.word(job as usize) == CLAIMED
    }

    /// Whether each debt is owed once, and names a job that has ended and its successor.
    fn debts_hold(&self) -> bool {
        for view in self.machine.views.as_slice() {
            for (job, next) in view.worker.debts.as_slice() {
                let is_one = *next < self.plan.jobs()
                    && self.is_ended(*job)
                    && self.plan.predecessors(*next).as_slice().contains(job)
                    && owing(&self.machine.views, Some(*job), *next) == 1;
                if !is_one {
                    return false;
                }
            }
        }
        true
    }

    /// How many predecessors of a job have not ended.
    fn waiting(&self, before: &[u32]) -> u64 {
        let mut count: u64 = 0;
        for job in before {
            if !self.is_ended(*job) {
                count = count.saturating_add(1);
            }
        }
        count
    }

    /// Whether the word of a job says what it waits for, who runs it, or that it has ended.
    fn job_holds(&self, job: u32) -> bool {
        if job >= self.plan.jobs() {
            return true;
        }
        let waiting = self.waiting(self.plan.predecessors(job).as_slice());
        let owing = owing(&self.machine.views, None, job);
        let runners = runners(&self.machine.views, job);
        if self.is_claimed(job) {
            return waiting == 0 && owing == 0 && runners == 1;
        }
        if self.is_ended(job) {
            return waiting == 0 && owing == 0 && runners == 0;
        }
        runners == 0 && self.machine.counts.word(job as usize) == waiting.saturating_add(owing)
    }

    /// Whether a picture is the words on the foot of its job, and the list of the script outside its writes.
    fn picture_holds(&self, job: u32, picture: &Words) -> bool {
        if job >= self.plan.jobs() {
            return false;
        }
        let foot = self.plan.foot(job);
        let before = self.script.list(job as usize);
        for number in 0..self.machine.memory.as_slice().len() {
            let seen = picture.word(number);
            let inside = !may_touch(foot, number as u64)
                || seen == self.machine.memory.word(number);
            let outside = may_write(foot, number as u64) || seen == word(before, number);
            if !inside || !outside {
                return false;
            }
        }
        picture.as_slice().len() == self.machine.memory.as_slice().len()
    }

    /// Whether a word that no running job writes is that of the script after the last ended job that writes it.
    fn word_holds(&self, number: usize) -> bool {
        let mut last = 0;
        for job in 0..self.plan.jobs() {
            if may_write(self.plan.foot(job), number as u64) {
                if self.is_claimed(job) {
                    return true;
                }
                if self.is_ended(job) {
                    last = job as usize + 1;
                }
            }
        }
        self.machine.memory.word(number) == word(self.script.list(last), number)
    }

    /// Whether a seat that is live runs or owes, and carries the round, and one that is not has nothing.
    fn seat_holds(&self, view: &View) -> bool {
        if !view.worker.live {
            return is_blank(view);
        }
        let carries = view.worker.jobs.jobs() == self.plan.jobs()
            && view.worker.script.len() == self.script.len();
        match &view.worker.runs {
            Some(running) => {
                carries
                    && self.is_claimed(running.job)
                    && view.worker.debts.as_slice().is_empty()
                    && self.picture_holds(running.job, &running.picture)
            }
            None => carries,
        }
    }

    /// Whether a live seat of the sweep is alone and knows each job that has ended.
    fn sweep_holds(&self, view: &View) -> bool {
        if !view.worker.live || !view.worker.sweeps {
            return true;
        }
        for job in 0..self.plan.jobs() {
            if self.is_ended(job) && !view.worker.ended.as_slice().contains(&job) {
                return false;
            }
        }
        live(&self.machine.views) == 1
    }

    /// Whether the jobs that have ended are those that a seat knows.
    fn knowledge_holds(&self) -> bool {
        for job in 0..self.plan.jobs() {
            let is_known = self.machine.views.iter().any(|view| knows(view, job));
            if is_known != self.is_ended(job) {
                return false;
            }
        }
        true
    }

    /// Whether the job words past those of the round are those at go.
    fn rest_holds(&self) -> bool {
        let counts = self.machine.counts.as_slice();
        for number in self.plan.jobs() as usize..counts.len() {
            if word(counts, number) != self.at_go.word(number) {
                return false;
            }
        }
        counts.len() == self.at_go.as_slice().len()
    }

    fn holds(&self) -> bool {
        for job in 0..self.plan.jobs() {
            if !self.job_holds(job) {
                return false;
            }
        }
        for number in 0..self.machine.memory.as_slice().len() {
            if !self.word_holds(number) {
                return false;
            }
        }
        for view in self.machine.views.as_slice() {
            if !self.seat_holds(view) || !self.sweep_holds(view) {
                return false;
            }
        }
        self.debts_hold() && self.knowledge_holds() && self.rest_holds()
    }
}

/// Whether no worker's seat is live, and main's lists are the words.
fn holds_between(machine: &Machine, main: &View, memory: &Words, counts: &Words) -> bool {
    memory.as_slice() == machine.memory.as_slice()
        && counts.as_slice() == machine.counts.as_slice()
        && main.main.live == 0
        && main.main.ended.as_slice().is_empty()
        && machine.views.iter().all(|view| is_blank(view))
}

/// Whether the rule holds.
pub fn holds(machine: &Machine) -> bool {
    let Some(main) = machine.views.first() else {
        return false;
    };
    match &main.main.phase {
        Phase::Idle(memory, counts) => holds_between(machine, main, memory, counts),
        Phase::Round(plan, script, _, at_go) => {
            let round = Round {
                machine,
                plan,
                script,
                at_go,
            };
            main.main.live == live(&machine.views) && round.holds()
        }
    }
}
