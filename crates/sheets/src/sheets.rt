// The sheets of a plan.
ghost use Rattle.std.specs.Prelude.{◌≡◌};
ghost use Rattle.sheets.specs.Told.{entries, row_in};

use meetings::Side;

// For each party of a side a row of so many rounds, one after the other: whom it meets, if anybody.
#[derive(Drop)]
pub struct Sheets {
    pub(crate) rounds: u16,
    pub(crate) groups: Vec<Option<u16>>,
    pub(crate) stations: Vec<Option<u16>>,
}

impl Sheets {
    // How many rounds there are.
    pub fn rounds(&self) -> u16
        ensures { result ≡ self.now.rounds }
    {
        self.rounds
    }

    // The rows of a side, one after the other.
    fn entries(&self, side: Side) -> &[Option<u16>]
        ensures { result.now ≡ entries side self.now }
    {
        match side {
            Side::Groups => self.groups.as_slice(),
            Side::Stations => self.stations.as_slice(),
        }
    }

    // Whom a party of a side meets, round by round; nothing of a party that does not exist.
    pub fn row(&self, side: Side, party: u16) -> &[Option<u16>]
        ensures { result.now ≡ row_in self.now side party }
    {
        let all = self.entries(side);
        // `as`, since after a `From` it is not proved that the product fits
        let start = (party as usize * self.rounds as usize).min(all.len());
        let end = (start + self.rounds as usize).min(all.len());
        &all[start..end]
    }
}
