// What the calls answer: an enum does not cross to C, so a refusal is its number and its place, and number 0 is none.
ghost use Rattle.std.specs.Prelude.{◌≡◌, vec_items};
ghost use Rattle.meetings.specs.Refusals.{outcome};
ghost use Rattle.calls.specs.Coded.{coded_plan, coded_row, last_of};

use balance::Planned;
use changes::Changed;
use meetings::Refusal;

// The refusal, or the number of rounds and the looks.
#[repr(C)]
#[derive(Clone, Copy)]
pub struct PlanAnswer {
    pub refusal: u8,
    pub place: usize,
    pub rounds: u16,
    pub looks: u64,
}

// The refusal, or how many changes there are, and what the last of them comes to; zeros where there is none.
#[repr(C)]
#[derive(Clone, Copy)]
pub struct RowAnswer {
    pub refusal: u8,
    pub place: usize,
    pub changes: usize,
    pub rounds: u16,
    pub looks: u64,
    pub moved: u16,
}

pub(crate) fn plan_answer(planned: Result<Planned, Refusal>) -> PlanAnswer
    ensures { result ≡ coded_plan (outcome (λ p. p) planned) }
{
    match planned {
        Ok(planned) => PlanAnswer {
            refusal: 0,
            place: 0,
            rounds: planned.rounds,
            looks: planned.looks,
        },
        Err(refusal) => PlanAnswer {
            refusal: refusal.number(),
            place: refusal.place(),
            rounds: 0,
            looks: 0,
        },
    }
}

// What the last of these comes to.
#[tactic(auto, using(crate::proofs::Coding::last_said))]
fn last(changed: &[Changed]) -> Changed
    ensures { result ≡ last_of changed.now }
{
    match changed.last() {
        Some(changed) => *changed,
        None => Changed {
            rounds: 0,
            looks: 0,
            moved: 0,
        },
    }
}

pub(crate) fn row_answer(changed: Result<Vec<Changed>, Refusal>) -> RowAnswer
    ensures { result ≡ coded_row (outcome vec_items changed) }
{
    match changed {
        Ok(changed) => {
            let last = last(&changed);
            RowAnswer {
                refusal: 0,
                place: 0,
                changes: changed.len(),
                rounds: last.rounds,
                looks: last.looks,
                moved: last.moved,
            }
        }
        Err(refusal) => RowAnswer {
            refusal: refusal.number(),
            place: refusal.place(),
            changes: 0,
            rounds: 0,
            looks: 0,
            moved: 0,
        },
    }
}
