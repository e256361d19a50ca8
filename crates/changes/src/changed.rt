// What a change answers.

// The number of rounds after it, the looks that it took, and how many meetings had a round before it and have another now.
#[derive(Clone, Copy, PartialEq, Eq, Debug)]
pub struct Changed {
    pub rounds: u16,
    pub looks: u64,
    pub moved: u16,
}
