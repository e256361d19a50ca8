// Writing a plan as bytes.
ghost use Rattle.std.specs.Prelude.{◌≡◌, length, IfOk};
ghost use Rattle.meetings.specs.Refusals.{IfMemory, accepted};
ghost use Rattle.plans.specs.Bytes.{bytes_of_plan, read_plan};

use meetings::Refusal;
use std::alloc::Global;

// The bytes that say a plan with so many rounds, and with these of the meetings, 65,535 for a dropped one. Only memory can be
// wanting.
pub fn write_plan(heap: Global, rounds: u16, of_meetings: &[u16]) -> Result<Vec<u8>, Refusal>
    ensures answer { IfMemory result (λ v. v.items ≡ bytes_of_plan (record { rounds = rounds; at = of_meetings.now })) }
    ensures back { IfOk result (λ v. read_plan (length of_meetings.now) v.items ≡ accepted (record { rounds = rounds; at = of_meetings.now })) }
{
    let mut bytes = Vec::new(heap);
    bytes.extend_from_slice(&rounds.to_le_bytes())?;
    for round in of_meetings {
        bytes.extend_from_slice(&round.to_le_bytes())?;
    }
    Ok(bytes)
}
