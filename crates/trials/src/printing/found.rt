// Whom a party meets in a round, found by going over all meetings. What the tests expect rests on it, so what it answers is proved.
ghost use Rattle.std.specs.Prelude.{◌≡◌, ◌<◌, ◌↔◌, IsTrue, length, slice_index_or};
ghost use Rattle.meetings.specs.Lists.{other_side, party};
ghost use Rattle.trials.specs.Twice.{nothing};
ghost use Rattle.trials.specs.Beside.{Found, There};

use crate::checking::alone::Placed;
use meetings::Side;

// A meeting has this round, and this party on a side.
fn is_there(placed: &[Placed], side: Side, party: u16, round: u16, at: usize) -> bool
    requires { at < length placed.now }
    ensures { IsTrue result ↔ There side placed.now party round at }
{
    placed[at].round == round && placed[at].meeting.party(side) == party
}

// Whom its party on a side meets in a meeting.
fn partner(placed: &[Placed], side: Side, at: usize) -> u16
    requires { at < length placed.now }
    ensures { result ≡ party (other_side side) (slice_index_or placed.now at nothing).meeting }
{
    placed[at].meeting.party(side.other())
}

// Whom a party of a side meets in a round, if anybody. In a plan there is no second one.
pub(crate) fn partner_of(placed: &[Placed], side: Side, party: u16, round: u16) -> Option<u16>
    ensures { Found side placed.now party round result }
{
    for at in 0..placed.len() {
        if is_there(placed, side, party, round, at) {
            return Some(partner(placed, side, at));
        }
    }
    None
}
