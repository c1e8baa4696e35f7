//! Where a worker looks for jobs.
ghost use Rattle.std.specs.Prelude.{◌≡◌, ◌≢◌, ◌<◌, ℕ, IfSome, IfNone};
ghost use Rattle.sn_crew.specs.Looks.{FitsJobs, Gave, Noted, Raised, SomeRose, NoneFell};

/// How often a worker looks at one deque in one take at most.
const TRIES: u32 = 64;

/// What a look at a deque finds. A hint is the number of a job that may be ready, and is taken out of the deque.
#[derive(Drop)]
pub enum Look {
    /// A job of the round.
    Hint(u32),
    /// A number that is no job of the round.
    Stray(u32),
    /// The deque was empty.
    Empty,
    /// Another worker was at the deque.
    Again,
}

/// How often a deque was empty, was to be tried again and gave a stray. A count stops at 2^64 - 1.
#[derive(Clone, Copy, Debug)]
pub struct Counts {
    /// How often it was empty.
    pub empties: u64,
    /// How often it was to be tried again.
    pub agains: u64,
    /// How often it gave a stray.
    pub strays: u64,
}

impl Counts {
    /// Counts a look.
    pub fn raise(&mut self, look: &Look)
        ensures { Raised look.now self.old self.new }
    {
        match look {
            Look::Hint(_) => {}
            Look::Stray(_) => self.strays = self.strays.saturating_add(1),
            Look::Empty => self.empties = self.empties.saturating_add(1),
            Look::Again => self.agains = self.agains.saturating_add(1),
        }
    }
}

/// What the looks of one worker found.
#[derive(Clone, Copy, Debug)]
pub struct Found {
    /// How many hints they gave. It stops at 2^64 - 1.
    pub hints: u64,
    /// The last hint, or 0 before the first.
    pub last: u32,
}

impl Found {
    /// Notes what a look found.
    pub fn note(&mut self, look: &Look)
        ensures { Noted look.now self.old self.new }
    {
        if let Look::Hint(job) = look {
            self.hints = self.hints.saturating_add(1);
            self.last = *job;
        }
    }
}

/// The deques of a crew, as one worker sees them.
pub trait Hints {
    ghost use Rattle.sn_crew.specs.declared.hints.Counts.{Counts};
    ghost use Rattle.sn_crew.specs.declared.hints.Found.{Found};

    /// The number of deques, which never changes.
    ghost size: { Self → ℕ };

    /// The counts of each deque.
    ghost counts: { Self → ℕ → Counts };

    /// What its looks found.
    ghost found: { Self → Found };

    /// How many deques there are.
    fn deques(&self) -> u32
        ensures { result ≡ size self.now };

    /// Looks at a deque in a round of `jobs` jobs. The count of what it answers rises, if there is one, and no other.
    fn look(&mut self, deque: u32, jobs: u32) -> Look
        requires { deque < size self.old }
        ensures size { size self.new ≡ size self.old }
        ensures answer { FitsJobs jobs result }
        ensures counts { Raised result (counts self.old deque) (counts self.new deque) }
        ensures found { Noted result (found self.old) (found self.new) }
        ensures others { (e : ℕ) → e ≢ deque → counts self.new e ≡ counts self.old e };
}

/// Takes a hint from one deque.
fn take_at<D: Hints>(hints: &mut D, deque: u32, jobs: u32) -> Option<u32>
    requires { deque < D.size hints.old }
    ensures size { D.size hints.new ≡ D.size hints.old }
    ensures some { IfSome result (λ job. job < jobs) }
    ensures counts { (e : ℕ) → NoneFell (D.counts hints.old e) (D.counts hints.new e) }
    ensures none { IfNone result (SomeRose (D.counts hints.old deque) (D.counts hints.new deque)) }
    ensures gave { IfSome result (λ job. Gave job (D.found hints.old) (D.found hints.new)) }
    ensures kept { IfNone result (D.found hints.new ≡ D.found hints.old) }
{
    for _turn in 0..TRIES {
        match hints.look(deque, jobs) {
            Look::Hint(job) => return Some(job),
            Look::Empty => return None,
            Look::Stray(_) => {}
            Look::Again => {}
        }
    }
    None
}

/// A worker that takes hints: from its own deque first, and then from the others.
#[derive(Drop)]
pub struct Member<D: Hints> {
    /// The deques.
    pub hints: D,
    own: u32,
    ghost fits: { own < D.size hints },
}

impl<D: Hints> Member<D> {
    /// A worker whose own deque has this number.
    pub fn new(hints: D, own: u32) -> Member<D>
        requires { own < D.size hints }
        ensures { result.hints ≡ hints }
    {
        Member { hints, own }
    }

    /// Takes the one hint that its looks find, and drops each stray. None comes only if each deque was empty, was to be
    /// tried again or gave a stray in this call, and no look found a hint.
    pub fn take(&mut self, jobs: u32) -> Option<u32>
        ensures size { D.size self.new.hints ≡ D.size self.old.hints }
        ensures some { IfSome result (λ job. job < jobs) }
        ensures counts { (e : ℕ) → NoneFell (D.counts self.old.hints e) (D.counts self.new.hints e) }
        ensures none { IfNone result ((e : ℕ) → e < D.size self.old.hints → SomeRose (D.counts self.old.hints e) (D.counts self.new.hints e)) }
        ensures gave { IfSome result (λ job. Gave job (D.found self.old.hints) (D.found self.new.hints)) }
        ensures kept { IfNone result (D.found self.new.hints ≡ D.found self.old.hints) }
    {
        if let Some(job) = take_at(&mut self.hints, self.own, jobs) {
            return Some(job);
        }
        for deque in 0..self.hints.deques() {
            if deque != self.own {
                if let Some(job) = take_at(&mut self.hints, deque, jobs) {
                    return Some(job);
                }
            }
        }
        None
    }
}
