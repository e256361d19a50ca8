// A plan from anybody.
ghost use Rattle.std.specs.Prelude.{◌≡◌, ◌≤◌, ◌==◌};
ghost use Rattle.meetings.specs.Lists.{most_meetings};
ghost use Rattle.fewest.specs.Plans.{none};
ghost use Rattle.plans.specs.Bytes.{long_for};

use chains::NONE;

// So many rounds, and the round of each meeting, 65,535 for one that was dropped.
#[derive(Drop)]
pub struct GivenPlan {
    pub rounds: u16,
    pub of_meetings: Vec<u16>,
}

// How long the bytes of a plan of so many meetings are.
pub(crate) fn bytes_for(many: usize) -> usize
    requires { many ≤ most_meetings }
    ensures { result ≡ long_for many }
{
    2 + 2 * many
}

// Whether a meeting with this round was dropped.
pub fn is_dropped(round: u16) -> bool
    ensures { result ≡ (round == none) }
{
    round == NONE
}
