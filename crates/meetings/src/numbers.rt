// What is numbered, and a meeting. Each number is a type of its own, written out, so that none is taken for another.
ghost use Rattle.std.specs.Prelude.{◌≡◌};
ghost use Rattle.meetings.specs.Lists.{other_side, party};

// The number of a group, from 0.
#[derive(Clone, Copy, PartialEq, Eq, Debug)]
pub struct Group(pub u16);

// The number of a station, from 0.
#[derive(Clone, Copy, PartialEq, Eq, Debug)]
pub struct Station(pub u16);

// The number of a meeting: its place in the list, from 0.
#[derive(Clone, Copy, PartialEq, Eq, Debug)]
pub struct MeetingId(pub u16);

// The number of a round, from 0.
#[derive(Clone, Copy, PartialEq, Eq, Debug)]
pub struct Round(pub u16);

// A meeting of a group with a station. A pair may meet several times: these are different meetings.
#[derive(Clone, Copy, PartialEq, Eq, Debug)]
pub struct Meeting {
    pub group: Group,
    pub station: Station,
}

// The two sides of a meeting, for what is said of groups and stations alike.
#[derive(Clone, Copy, PartialEq, Eq, Debug)]
pub enum Side {
    Groups,
    Stations,
}

impl Meeting {
    // The number of its group or of its station.
    pub fn party(self, side: Side) -> u16
        ensures { result ≡ party side self }
    {
        match side {
            Side::Groups => self.group.0,
            Side::Stations => self.station.0,
        }
    }
}

impl Side {
    pub fn other(self) -> Side
        ensures { result ≡ other_side self }
    {
        match self {
            Side::Groups => Side::Stations,
            Side::Stations => Side::Groups,
        }
    }
}
