// What a row of changes comes to.
use meetings::Meeting;

#[derive(Drop)]
pub(crate) struct Tested {
    // All meetings that have a number in the end.
    pub(crate) meetings: Vec<Meeting>,
    // The number of rounds after each change.
    pub(crate) rounds: Vec<u16>,
}
