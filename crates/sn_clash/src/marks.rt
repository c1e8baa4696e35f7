//! Marks of how resources are used.
ghost use Rattle.std.specs.Prelude.{◌≡◌, length, slice_index_or, ℕ, List, Option, IfOk};
ghost use Rattle.sn_mem.specs.declared.buffers.BufferPlace as buffer;
ghost use Rattle.sn_foot.specs.Footprints.{is_there};
ghost use Rattle.sn_foot.specs.Uses.{footprint_in};
ghost use Rattle.sn_clash.specs.Marking.{is_marked, mark_of, mark_use, mark_uses, marked_in, more, place, unmarked};

use sn_foot::{Resource, Role, Use};
use sn_ports::NoMemory;
use sn_ports::limits::CONTROL_BUS_COUNT;
use std::alloc::Global;
use std::marker::Model;

/// How a resource is used.
#[derive(Clone, Copy)]
pub struct Mark {
    /// It is read.
    pub read: bool,
    /// It is written.
    pub written: bool,
    /// It is mixed.
    pub mixed: bool,
}

/// How many places there are: of each of the three sorts as many as there are control buses.
const PLACES: usize = 3 * CONTROL_BUS_COUNT as usize;

/// The place of a resource among the marks.
fn place(resource: Resource) -> usize
    ensures { result ≡ place resource }
{
    match resource {
        Resource::Audio(number) => 3 * number as usize,
        Resource::Control(number) => 3 * number as usize + 1,
        Resource::Buffer(number) => 3 * number as usize + 2,
    }
}

/// The mark of what is used once more.
fn more(mark: Mark, role: Role) -> Mark
    ensures { result ≡ more role mark }
{
    match role {
        Role::Read => Mark {
            read: true,
            written: mark.written,
            mixed: mark.mixed,
        },
        Role::Write => Mark {
            read: mark.read,
            written: true,
            mixed: mark.mixed,
        },
        Role::Mix => Mark {
            read: mark.read,
            written: mark.written,
            mixed: true,
        },
    }
}

/// Whether it is marked that something is used in this way.
fn is_marked(role: Role, mark: Mark) -> bool
    ensures { result ≡ is_marked role mark }
{
    match role {
        Role::Read => mark.read,
        Role::Write => mark.written,
        Role::Mix => mark.mixed,
    }
}

/// `count` marks of what is not used.
fn unmarked(alloc: Global, count: usize) -> Result<Vec<Mark>, NoMemory>
    ensures long { IfOk result (λ marks. length marks.items ≡ count) }
    ensures none { IfOk result (λ marks. (n : ℕ) → slice_index_or marks.items n unmarked ≡ unmarked) }
{
    let mark = Mark {
        read: false,
        written: false,
        mixed: false,
    };
    Ok(vec![in alloc; mark; count]?)
}

/// The mark of each resource, by its place.
#[derive(Drop)]
pub struct Marks {
    marks: Vec<Mark>,
}

impl Model for Marks {
    ghost use Rattle.std.specs.Prelude.{List};
    ghost use Rattle.sn_clash.specs.declared.marks.Mark.{Mark};

    ghost Value = { List Mark };

    ghost view = { λ m. m.marks.items };
}

impl Marks {
    /// Nothing is marked.
    pub fn new(alloc: Global) -> Result<Marks, NoMemory>
        ensures long { IfOk result (λ marks. length marks ≡ 3072) }
        ensures none { IfOk result (λ marks. (n : ℕ) → slice_index_or marks n unmarked ≡ unmarked) }
    {
        let marks = unmarked(alloc, PLACES)?;
        Ok(Marks { marks })
    }

    /// The mark of a resource.
    pub fn of(&self, resource: Resource) -> Mark
        ensures { result ≡ mark_of self.now resource }
    {
        self.marks.get(place(resource)).copied().unwrap_or(Mark {
            read: false,
            written: false,
            mixed: false,
        })
    }

    /// Whether it is marked that the resource of a use is used in this way.
    pub fn has(&self, used: &Use) -> bool
        ensures { result ≡ is_marked used.now.role (mark_of self.now used.now.resource) }
    {
        is_marked(used.role, self.of(used.resource))
    }

    /// Marks a use, if its resource has a place.
    #[tactic(auto, using(std::proofs::lemmas::List::set_past))]
    pub fn mark(&mut self, used: &Use)
        ensures { self.new ≡ mark_use used.now self.old }
    {
        let index = place(used.resource);
        if index >= self.marks.len() {
            return;
        }
        self.marks[index] = more(self.of(used.resource), used.role);
    }

    /// Marks uses.
    pub fn mark_all(&mut self, uses: &[Use])
        ensures { self.new ≡ mark_uses uses.now self.old }
    {
        for used in uses {
            self.mark(used);
        }
    }

    /// Uses are marked, and nothing else.
    pub fn of_uses(alloc: Global, uses: &[Use]) -> Result<Marks, NoMemory>
        ensures { IfOk result (λ marks. (buffers : List (Option buffer.BufferPlace)) → marked_in (is_there buffers) marks ≡ footprint_in (is_there buffers) uses.now) }
    {
        let mut marks = Marks::new(alloc)?;
        marks.mark_all(uses);
        Ok(marks)
    }
}
