// Whether a round has more meetings than there are rooms.
ghost use Rattle.std.specs.Prelude.{◌≡◌, ◌≤◌, length, slice_index, nat_lt};
ghost use Rattle.meetings.specs.Refusals.{Answers, outcome};
ghost use Rattle.fewest.specs.Plans.{none};
ghost use Rattle.plans.specs.Checking.{each, in_rooms, refused_if};

use balance::count_rounds;
use meetings::{Refusal, Round};
use std::alloc::Global;

// None of these sizes is more than there are rooms.
#[tactic(auto, using(crate::proofs::Turns::tested_on, crate::proofs::Turns::refused_now))]
fn none_above(sizes: &[u16], rooms: u16) -> Result<(), Refusal>
    requires { length sizes.now ≤ none }
    ensures { outcome (λ _. tt) result ≡ each (λ c. refused_if (nat_lt rooms (slice_index sizes.now c)) 9 c) (length sizes.now) 0 }
{
    for (round, size) in sizes.iter().enumerate() {
        if *size > rooms {
            // `as`, since it is proved to fit
            return Err(Refusal::Crowded(Round(round as u16)));
        }
    }
    Ok(())
}

// The same of the sizes of the rounds, which are counted first.
fn count_and_test(of_meetings: &[u16], sizes: &mut [u16], rooms: u16) -> Result<(), Refusal>
    requires few { length of_meetings.now ≤ none }
    requires rounds { length sizes.old ≤ none }
    ensures { outcome (λ _. tt) result ≡ each (in_rooms rooms of_meetings.now) (length sizes.old) 0 }
{
    count_rounds(of_meetings, sizes);
    none_above(sizes, rooms)
}

// None of so many rounds has more meetings than there are rooms.
pub(crate) fn none_crowded(
    heap: Global,
    rounds: u16,
    of_meetings: &[u16],
    rooms: u16,
) -> Result<(), Refusal>
    requires { length of_meetings.now ≤ none }
    ensures { Answers (λ _. tt) result (each (in_rooms rooms of_meetings.now) rounds 0) }
{
    let mut sizes = vec![in heap; 0u16; usize::from(rounds)]?;
    count_and_test(of_meetings, &mut sizes, rooms)
}
