// A list with its plan.
use crate::checking::alone::Placed;
use crate::entries::NONE;
use crate::made_lists::some_bytes;
use crate::printing::found::partner_of;
use crate::random::Random;
use meetings::{MeetingList, Refusal, Side, read, write};
use plans::write_plan;
use sheets::{Sheets, made_of, print_sheets, sheets_of};
use std::alloc::{AllocError, Global};
use std::test::Fail;

#[derive(Drop)]
pub(crate) struct ListAndPlan {
    pub(crate) list: MeetingList,
    pub(crate) rounds: u16,
    pub(crate) of_meetings: Vec<u16>,
}

impl ListAndPlan {
    // A random list, with the plan that is made of it.
    pub(crate) fn random(heap: Global, random: &mut Random) -> Result<ListAndPlan, Fail> {
        let bytes = some_bytes(heap, random)?;
        let report = made_of(heap, &bytes)?.report;
        Ok(ListAndPlan {
            list: read(heap, &bytes)?,
            rounds: report.planned.rounds,
            of_meetings: report.of_meetings,
        })
    }

    pub(crate) fn many(&self, side: Side) -> u16 {
        match side {
            Side::Groups => self.list.groups(),
            Side::Stations => self.list.stations(),
        }
    }

    // How many meetings are not dropped.
    pub(crate) fn kept(&self) -> usize {
        self.of_meetings
            .iter()
            .filter(|round| **round != NONE)
            .count()
    }

    // The sheets of these rounds of the meetings.
    pub(crate) fn sheets(&self, heap: Global, of_meetings: &[u16]) -> Result<Sheets, Refusal> {
        sheets_of(heap, &self.list, self.rounds, of_meetings)
    }

    // Their text, of the bytes of the list and of the plan.
    pub(crate) fn printed(&self, heap: Global, of_meetings: &[u16]) -> Result<String, Refusal> {
        let day = write(heap, &self.list)?;
        let plan = write_plan(heap, self.rounds, of_meetings)?;
        print_sheets(heap, &day, &plan)
    }
}

// Whom a party meets in each round, by the search.
pub(crate) fn searched_row(
    heap: Global,
    placed: &[Placed],
    side: Side,
    party: u16,
    rounds: u16,
) -> Result<Vec<Option<u16>>, AllocError> {
    (0..rounds)
        .map(|round| partner_of(placed, side, party, round))
        .collect(heap)
}
