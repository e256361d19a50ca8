// What planning works with beside the board.
ghost use Rattle.meetings.specs.Held.{contents};
ghost use Rattle.meetings.specs.Refusals.{IfMemory};

use chains::{Found, Shape};
use meetings::{MeetingList, Refusal, Side};
use std::alloc::Global;

// A size for each round, the meetings of two rounds in their order, what was found while chains were followed, and which meetings
// evening out touched.
#[derive(Drop)]
pub(crate) struct Scratch {
    pub(crate) sizes: Vec<u16>,
    pub(crate) ordered: Vec<u16>,
    pub(crate) found: Found,
    pub(crate) touched: Found,
}

impl Scratch {
    ghost use Rattle.balance.specs.Scratch.{Blank};

    // For so many rounds, before anything that is lent is changed. Only memory can be wanting.
    pub(crate) fn blank(
        heap: Global,
        list: &MeetingList,
        shape: Shape,
        rounds: u16,
    ) -> Result<Scratch, Refusal>
        ensures { IfMemory result (λ s. Blank s (contents list.now).meetings shape rounds) }
    {
        let sizes = vec![in heap; 0u16; usize::from(rounds)]?;
        let ordered = Vec::with_capacity(heap, 2 * usize::from(shape.parties(Side::Groups)))?;
        let found = Found::none(heap, list.meetings().len())?;
        let touched = Found::none(heap, list.meetings().len())?;
        Ok(Scratch {
            sizes,
            ordered,
            found,
            touched,
        })
    }
}
