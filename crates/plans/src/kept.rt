// The fewest rounds for the meetings that a plan does not drop.
ghost use Rattle.std.specs.Prelude.{◌≡◌, length};
ghost use Rattle.meetings.specs.Held.{contents};
ghost use Rattle.meetings.specs.Refusals.{Answers, IfMemory};
ghost use Rattle.changes.specs.Numbered.{rounds_for};
ghost use Rattle.plans.specs.Checking.{is_fewest};
ghost use Rattle.plans.specs.Given.{marked};

use crate::given::is_dropped;
use changes::Register;
use meetings::{MeetingId, MeetingList, Refusal};
use std::alloc::Global;

// The fewest rounds for those meetings of a list that have a round. Only memory can be wanting.
fn rounds_of_kept(heap: Global, list: &MeetingList, of_meetings: &[u16]) -> Result<u16, Refusal>
    requires { length of_meetings.now ≡ length (contents list.now).meetings }
    ensures { IfMemory result (λ r. r ≡ rounds_for (marked (contents list.now) of_meetings.now)) }
{
    let mut register = Register::of(heap, list)?;
    for (i, round) in of_meetings.iter().enumerate() {
        if is_dropped(*round) {
            // `as`, since it is proved to fit
            register.drop_meeting(MeetingId(i as u16));
        }
    }
    Ok(register.rounds())
}

// So many rounds are the fewest for the meetings that have one.
pub(crate) fn is_fewest(
    heap: Global,
    list: &MeetingList,
    rounds: u16,
    of_meetings: &[u16],
) -> Result<(), Refusal>
    requires { length of_meetings.now ≡ length (contents list.now).meetings }
    ensures { Answers (λ _. tt) result (is_fewest (contents list.now) rounds of_meetings.now) }
{
    if rounds != rounds_of_kept(heap, list, of_meetings)? {
        return Err(Refusal::NotFewest(rounds));
    }
    Ok(())
}
