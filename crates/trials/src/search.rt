// The fewest rounds found by trying all plans, with nothing of the libraries in it.

// A plan is a number: the round of each meeting is a digit of it, to the base of the rounds.
#[derive(Clone, Copy)]
struct Plan {
    number: u32,
    rounds: u32,
}

impl Plan {
    fn round_of(self, meeting: usize) -> u32 {
        let base = self.rounds.max(1);
        let place = u32::try_from(meeting).unwrap_or(u32::MAX);
        self.number / base.saturating_pow(place) % base
    }

    // Whether a meeting fits in with the earlier ones: nobody twice in its round, and a room for it.
    fn fits(self, earlier: &[(u8, u8)], meeting: (u8, u8), rooms: u8) -> bool {
        let (group, station) = meeting;
        let round = self.round_of(earlier.len());
        let beside = (0..earlier.len())
            .filter(|at| self.round_of(*at) == round)
            .count();
        let clashes = earlier.iter().enumerate().any(|(at, (its_group, its_station))| {
            self.round_of(at) == round && (*its_group == group || *its_station == station)
        });
        beside < usize::from(rooms) && !clashes
    }

    fn is_right(self, meetings: &[(u8, u8)], rooms: u8) -> bool {
        meetings.iter().enumerate().all(|(at, meeting)| self.fits(&meetings[..at], *meeting, rooms))
    }
}

fn has_plan(meetings: &[(u8, u8)], rooms: u8, rounds: u32) -> bool {
    let many = u32::try_from(meetings.len()).unwrap_or(u32::MAX);
    (0..rounds.saturating_pow(many)).any(|number| Plan { number, rounds }.is_right(meetings, rooms))
}

// The least number of rounds, below ten, for which there is a plan.
pub(crate) fn searched(meetings: &[(u8, u8)], rooms: u8) -> Option<u32> {
    (0..10).find(|rounds| has_plan(meetings, rooms, *rounds))
}
