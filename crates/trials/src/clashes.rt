// Whether rounds are a plan, by comparing all pairs of meetings. The tests rest on it, so what it answers is proved.
ghost use Rattle.std.specs.Prelude.{ℕ, ◌<◌, ◌≤◌, ◌↔◌, IsTrue, length, take};
ghost use Rattle.fewest.specs.Plans.{Plan};
ghost use Rattle.trials.specs.Clashes.{Clash, Fits};

use meetings::Meeting;

// Meetings, and a round for each of them: two slices beside one another, as they are lent and as `is_plan` takes them.
#[derive(Clone, Copy)]
struct Rounds<'a> {
    meetings: &'a [Meeting],
    rounds: &'a [u16],
    ghost each: { length meetings.now ≤ length rounds.now },
}

impl Rounds<'_> {
    // Two meetings have one round, and a group or a station in common.
    fn clash(&self, one: usize, other: usize) -> bool
        requires one { one < length self.now.meetings.now }
        requires other { other < length self.now.meetings.now }
        ensures { IsTrue result ↔ Clash self.now.meetings.now self.now.rounds.now one other }
    {
        self.rounds[one] == self.rounds[other]
            && (self.meetings[one].group == self.meetings[other].group
                || self.meetings[one].station == self.meetings[other].station)
    }

    // A meeting has one of so many rounds, and clashes with no earlier one. By number: a pair of meetings is two numbers.
    fn fits(&self, many: u16, one: usize) -> bool
        requires one { one < length self.now.meetings.now }
        ensures { IsTrue result ↔ Fits many self.now.meetings.now self.now.rounds.now one }
    {
        self.rounds[one] < many && !(0..one).any(|other| self.clash(one, other))
    }

    // Each meeting fits in with the earlier ones. By number, as `fits` takes it.
    fn all_fit(&self, many: u16) -> bool
        ensures { IsTrue result ↔ ((i : ℕ) → i < length self.now.meetings.now → Fits many self.now.meetings.now self.now.rounds.now i) }
    {
        (0..self.meetings.len()).all(|one| self.fits(many, one))
    }
}

// The first rounds, one for each meeting, are a plan with so many rounds. What lies beyond them does not matter.
pub(crate) fn is_plan(meetings: &[Meeting], rounds: &[u16], many: u16) -> bool
    ensures { IsTrue result ↔ Plan many meetings.now (take (length meetings.now) rounds.now) }
{
    meetings.len() <= rounds.len() && Rounds { meetings, rounds }.all_fit(many)
}
