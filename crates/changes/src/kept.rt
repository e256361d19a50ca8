// What is kept beside the board from one change to the next.
ghost use Rattle.std.specs.Prelude.{◌≡◌, ℕ, ◌≤◌, length};
ghost use Rattle.meetings.specs.Refusals.{IfMemory};
ghost use Rattle.fewest.specs.Plans.{none};
ghost use Rattle.chains.specs.declared.shapes.Shape.{Shape};
ghost use Rattle.balance.specs.Sizes.{sizes_of};
ghost use Rattle.changes.specs.Keeping.{Room};

use balance::count_rounds;
use chains::{Found, NONE, Shape};
use meetings::{Refusal, Side};
use std::alloc::Global;

// The sizes of as many rounds as there ever are, the rounds before a change, and room for the meetings that wait, for those of two
// rounds, for what is found along chains, and for the meetings that a change touches.
#[derive(Drop)]
pub(crate) struct Kept {
    pub(crate) sizes: Vec<u16>,
    pub(crate) before: Vec<u16>,
    pub(crate) waiting: Vec<u16>,
    pub(crate) ordered: Vec<u16>,
    pub(crate) found: Found,
    pub(crate) touched: Found,
}

impl Kept {
    // For so many meetings and rounds, before anything that is lent is changed. Only memory can be wanting.
    pub(crate) fn blank(
        heap: Global,
        shape: Shape,
        meetings: usize,
        rounds: u16,
    ) -> Result<Kept, Refusal>
        ensures { IfMemory result (λ k. Room k shape meetings rounds) }
    {
        Ok(Kept {
            sizes: vec![in heap; 0u16; usize::from(rounds)]?,
            before: vec![in heap; NONE; meetings]?,
            waiting: Vec::with_capacity(heap, meetings)?,
            ordered: Vec::with_capacity(heap, 2 * usize::from(shape.parties(Side::Groups)))?,
            found: Found::none(heap, meetings)?,
            touched: Found::none(heap, meetings)?,
        })
    }

    // Beside a board with these rounds.
    pub(crate) fn begin(&mut self, rounds: &[u16])
        requires each { length rounds.now ≡ length self.old.before.items }
        requires few { length rounds.now ≤ none }
        ensures sizes { self.new.sizes.items ≡ sizes_of (length self.old.sizes.items) rounds.now }
        ensures before { self.new.before.items ≡ rounds.now }
        ensures room { (z : Shape) (m r : ℕ) → Room self.old z m r → Room self.new z m r }
    {
        count_rounds(rounds, &mut self.sizes);
        self.before.copy_from_slice(rounds);
    }
}
