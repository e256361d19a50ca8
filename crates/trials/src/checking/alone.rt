// Whether a meeting is the first of its group or of its station in its round, by comparing it with each before it. The search for
// faults rests on it, so what it answers is proved.
ghost use Rattle.std.specs.Prelude.{◌<◌, ◌↔◌, IsTrue, length};
ghost use Rattle.trials.specs.Twice.{Alone, Meet};

use crate::entries::NONE;
use meetings::{Meeting, Side};

// A meeting, and its round.
#[derive(Clone, Copy)]
pub(crate) struct Placed {
    pub(crate) meeting: Meeting,
    pub(crate) round: u16,
}

// Two have one round, and the same party on this side.
fn meet(placed: &[Placed], side: Side, one: usize, other: usize) -> bool
    requires one { one < length placed.now }
    requires other { other < length placed.now }
    ensures { IsTrue result ↔ Meet side placed.now one other }
{
    placed[one].round == placed[other].round
        && placed[one].meeting.party(side) == placed[other].meeting.party(side)
}

// None of those before a meeting has its round, and its party on this side. A dropped one has no round.
pub(crate) fn is_alone(placed: &[Placed], side: Side, at: usize) -> bool
    requires { at < length placed.now }
    ensures { IsTrue result ↔ Alone side placed.now at }
{
    if placed[at].round == NONE {
        return true;
    }
    for earlier in 0..at {
        if meet(placed, side, at, earlier) {
            return false;
        }
    }
    true
}
