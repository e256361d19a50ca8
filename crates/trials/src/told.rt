// What is told of a refusal.
use meetings::Refusal;

// Its number and its place.
pub(crate) type Fault = (u8, usize);

// The refusal by its number and its place, as the rule's table has them, or None where there is none.
pub(crate) fn told<T: Drop>(answer: Result<T, Refusal>) -> Option<Fault> {
    let refusal = answer.err()?;
    Some((refusal.number(), refusal.place()))
}
