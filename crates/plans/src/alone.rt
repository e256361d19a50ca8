// Whether anybody is at two meetings in a round.
ghost use Rattle.std.specs.Prelude.{◌≡◌, ℕ, ◌+◌, ◌<◌, ◌≤◌, length, IfOk, ◌≢◌};
ghost use Rattle.meetings.specs.declared.numbers.Side.TheVariants.{Groups, Stations};
ghost use Rattle.meetings.specs.Held.{contents};
ghost use Rattle.meetings.specs.Refusals.{Answers, outcome};
ghost use Rattle.fewest.specs.Plans.{none};
ghost use Rattle.chains.specs.Partial.{party_of, round_of};
ghost use Rattle.plans.specs.Checking.{both_alone, each, seen};
ghost use Rattle.plans.specs.Seen.{Marks};

use crate::given::is_dropped;
use crate::seen::see;
use meetings::{Meeting, MeetingId, MeetingList, Refusal, Side};
use std::alloc::Global;

// Whether the group or the station of a meeting was seen in the meeting's round before. It is marked as seen there.
fn met_before(
    meetings: &[Meeting],
    of_meetings: &[u16],
    at: usize,
    side: Side,
    rounds: u16,
    marks: &mut [bool],
) -> bool
    requires here { at < length meetings.now }
    requires each { length of_meetings.now ≡ length meetings.now }
    requires below { round_of of_meetings.now at < rounds }
    requires marks { Marks meetings.now of_meetings.now side rounds at marks.old }
    ensures before { result ≡ seen meetings.now of_meetings.now side (party_of meetings.now side at) (round_of of_meetings.now at) at }
    ensures marks { Marks meetings.now of_meetings.now side rounds (at + 1) marks.new }
{
    see(marks, rounds, meetings[at].party(side), of_meetings[at])
}

// Neither party of a meeting was seen in its round before: first its group is looked at, then its station.
#[tactic(auto, using(crate::proofs::Marking::marks_passed))]
fn meeting_alone(
    meetings: &[Meeting],
    of_meetings: &[u16],
    at: usize,
    rounds: u16,
    groups: &mut [bool],
    stations: &mut [bool],
) -> Result<(), Refusal>
    requires here { at < length meetings.now }
    requires few { length meetings.now ≤ none }
    requires each { length of_meetings.now ≡ length meetings.now }
    requires below { (round_of of_meetings.now at ≢ none) → round_of of_meetings.now at < rounds }
    requires groups { Marks meetings.now of_meetings.now Groups rounds at groups.old }
    requires stations { Marks meetings.now of_meetings.now Stations rounds at stations.old }
    ensures answer { outcome (λ _. tt) result ≡ both_alone meetings.now of_meetings.now at }
    ensures groups { IfOk result (λ _. Marks meetings.now of_meetings.now Groups rounds (at + 1) groups.new) }
    ensures stations { IfOk result (λ _. Marks meetings.now of_meetings.now Stations rounds (at + 1) stations.new) }
{
    if is_dropped(of_meetings[at]) {
        return Ok(());
    }
    // `as`, since it is proved to fit
    let meeting = MeetingId(at as u16);
    if met_before(meetings, of_meetings, at, Side::Groups, rounds, groups) {
        return Err(Refusal::Clash(Side::Groups, meeting));
    }
    if met_before(meetings, of_meetings, at, Side::Stations, rounds, stations) {
        return Err(Refusal::Clash(Side::Stations, meeting));
    }
    Ok(())
}

// One pass over the meetings, with marks for who was seen in which round.
#[tactic(auto, using(crate::proofs::Turns::tested_on, crate::proofs::Turns::refused_now))]
fn all_alone(
    meetings: &[Meeting],
    of_meetings: &[u16],
    rounds: u16,
    groups: &mut [bool],
    stations: &mut [bool],
) -> Result<(), Refusal>
    requires few { length meetings.now ≤ none }
    requires each { length of_meetings.now ≡ length meetings.now }
    requires below { (i : ℕ) → i < length meetings.now → (round_of of_meetings.now i ≢ none) → round_of of_meetings.now i < rounds }
    requires groups { Marks meetings.now of_meetings.now Groups rounds 0 groups.old }
    requires stations { Marks meetings.now of_meetings.now Stations rounds 0 stations.old }
    ensures { outcome (λ _. tt) result ≡ each (both_alone meetings.now of_meetings.now) (length meetings.now) 0 }
{
    for i in 0..meetings.len() {
        meeting_alone(meetings, of_meetings, i, rounds, groups, stations)?;
    }
    Ok(())
}

// Nobody is at two meetings in one of so many rounds. The memory for the marks is got before the pass.
pub(crate) fn nobody_twice(
    heap: Global,
    list: &MeetingList,
    rounds: u16,
    of_meetings: &[u16],
) -> Result<(), Refusal>
    requires each { length of_meetings.now ≡ length (contents list.now).meetings }
    requires below { (i : ℕ) → i < length (contents list.now).meetings → (round_of of_meetings.now i ≢ none) → round_of of_meetings.now i < rounds }
    ensures { Answers (λ _. tt) result (each (both_alone (contents list.now).meetings of_meetings.now) (length (contents list.now).meetings) 0) }
{
    let mut groups = vec![in heap; false; list.groups() as usize * rounds as usize]?;
    let mut stations = vec![in heap; false; list.stations() as usize * rounds as usize]?;
    all_alone(
        list.meetings(),
        of_meetings,
        rounds,
        &mut groups,
        &mut stations,
    )
}
