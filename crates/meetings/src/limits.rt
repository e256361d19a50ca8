// The limits of a list.

// The most groups, the most stations and the most rooms.
pub const MOST: u16 = 120;

// The most meetings.
pub const MOST_MEETINGS: usize = 4000;
