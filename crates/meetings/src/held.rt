// What a list of meetings holds.
ghost use Rattle.std.specs.Prelude.{◌≡◌};
ghost use Rattle.meetings.specs.Held.{contents};

use crate::list::MeetingList;
use crate::numbers::Meeting;

// One for each field: the fields are private to the crate, so that reading alone makes a list, and each is asked for by name.
impl MeetingList {
    // How many groups there are, 1 to 120.
    pub fn groups(&self) -> u16
        ensures { result ≡ (contents self.now).groups }
    {
        self.groups
    }

    // How many stations there are, 1 to 120.
    pub fn stations(&self) -> u16
        ensures { result ≡ (contents self.now).stations }
    {
        self.stations
    }

    // How many rooms there are, 1 to 120.
    pub fn rooms(&self) -> u16
        ensures { result ≡ (contents self.now).rooms }
    {
        self.rooms
    }

    // The meetings by their numbers, at most 4,000.
    pub fn meetings(&self) -> &[Meeting]
        ensures { result.now ≡ (contents self.now).meetings }
    {
        self.meetings.as_slice()
    }
}
