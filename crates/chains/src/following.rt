// Following chains of two rounds: the chain of a meeting, and its part.
ghost use Rattle.std.specs.Prelude.{◌≡◌, ◌≤◌, false, ◌++◌, length};
ghost use Rattle.chains.specs.Boards.{InTwo, meetings_on, two_on};
ghost use Rattle.chains.specs.Chains.{holds, walked, chain, part};
ghost use Rattle.chains.specs.Finding.{Finds, among_all, found_in};

use crate::board::Board;
use crate::found::Found;
use crate::neighbours::TwoRounds;
use meetings::{MeetingId, Side};

impl Board<'_> {
    // Follows the chain from a meeting through its group or its station, and on in turn, until there is no neighbour or it was
    // found already. What is found is added.
    fn follow(&self, rounds: TwoRounds, side: Side, from: MeetingId, found: &mut Found)
        requires in_two { InTwo self.now rounds from.0 }
        requires enough { length (meetings_on self.now) ≤ among_all found.old }
        ensures { Finds found.old found.new (found_in found.old ++ walked (two_on self.now rounds) (holds (found_in found.old)) side from.0) }
    {
        // a loop along a chain is left by its label, here as everywhere
        let mut at = from;
        let mut through = side;
        'chain: loop {
            let Some(next) = self.neighbour(rounds, through, at) else {
                break 'chain;
            };
            if found.has(next) {
                break 'chain;
            }
            found.add(next);
            at = next;
            through = through.other();
        }
    }

    // Finds a meeting and the chain that is followed from it through its group.
    #[tactic(auto, using(crate::proofs::ChainTurns::chain_found))]
    pub fn find_chain(&self, rounds: TwoRounds, meeting: MeetingId, found: &mut Found)
        requires in_two { InTwo self.now rounds meeting.0 }
        requires enough { length (meetings_on self.now) ≤ among_all found.old }
        requires new { holds (found_in found.old) meeting.0 ≡ false }
        ensures { Finds found.old found.new (found_in found.old ++ chain (two_on self.now rounds) (holds (found_in found.old)) meeting.0) }
    {
        found.add(meeting);
        self.follow(rounds, Side::Groups, meeting, found);
    }

    // Finds the part of a meeting: its chain, and what is followed from it through its station.
    #[tactic(auto, using(crate::proofs::ChainTurns::part_found))]
    pub fn find_part(&self, rounds: TwoRounds, meeting: MeetingId, found: &mut Found)
        requires in_two { InTwo self.now rounds meeting.0 }
        requires enough { length (meetings_on self.now) ≤ among_all found.old }
        requires new { holds (found_in found.old) meeting.0 ≡ false }
        ensures { Finds found.old found.new (found_in found.old ++ part (two_on self.now rounds) (holds (found_in found.old)) meeting.0) }
    {
        self.find_chain(rounds, meeting, found);
        self.follow(rounds, Side::Stations, meeting, found);
    }
}
