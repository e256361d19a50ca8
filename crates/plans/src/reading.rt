// Reading a plan from its bytes.
ghost use Rattle.std.specs.Prelude.{◌≡◌, ◌+◌, ◌<◌, ◌≤◌, ◌*◌, length, IfOk};
ghost use Rattle.meetings.specs.Held.{contents};
ghost use Rattle.meetings.specs.Refusals.{Answers, IfMemory};
ghost use Rattle.plans.specs.Bytes.{bytes_of_plan, long_for, number_at, numbers_at, read_plan};
ghost use Rattle.plans.specs.Given.{given};

use crate::given::{GivenPlan, bytes_for};
use meetings::{MeetingList, Refusal};
use std::alloc::Global;

// The number of rounds: it stands before those of the meetings.
const HEAD: usize = 2;

// The number that stands at this place, by its low byte and its high one.
fn number(bytes: &[u8], at: usize) -> u16
    requires { at + 1 < length bytes.now }
    ensures { result ≡ number_at bytes.now at }
{
    u16::from_le_bytes([bytes[at], bytes[at + 1]])
}

// So many numbers behind the number of rounds. Only memory can be wanting.
fn numbers(heap: Global, bytes: &[u8], many: usize) -> Result<Vec<u16>, Refusal>
    requires { long_for many ≤ length bytes.now }
    ensures { IfMemory result (λ v. v.items ≡ numbers_at bytes.now many 2) }
{
    let mut read = Vec::with_capacity(heap, many)?;
    for i in 0..many {
        read.push_reserved(number(bytes, HEAD + 2 * i));
    }
    Ok(read)
}

// The plan for a list that the bytes say, which has a round for each meeting of the list; bytes of another length are refused.
pub fn read_plan(heap: Global, list: &MeetingList, bytes: &[u8]) -> Result<GivenPlan, Refusal>
    ensures answer { Answers given result (read_plan (length (contents list.now).meetings) bytes.now) }
    ensures back { IfOk result (λ p. bytes_of_plan (given p) ≡ bytes.now) }
{
    let many = list.meetings().len();
    let long = bytes_for(many);
    if bytes.len() < long {
        return Err(Refusal::Length(bytes.len()));
    }
    if bytes.len() > long {
        return Err(Refusal::Length(long));
    }
    let of_meetings = numbers(heap, bytes, many)?;
    Ok(GivenPlan {
        rounds: number(bytes, 0),
        of_meetings,
    })
}
