// What planning answers.

// The number of rounds, and how many looks it took.
#[derive(Clone, Copy, PartialEq, Eq, Debug)]
pub struct Planned {
    pub rounds: u16,
    pub looks: u64,
}
