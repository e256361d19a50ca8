// A line of a sheet.
ghost use Rattle.std.specs.Prelude.{Some};
ghost use Rattle.sheets.specs.Texts.{line_text};

use std::fmt;

// A round, and whom the party meets there, if anybody.
#[derive(Clone, Copy, Drop)]
pub(crate) struct Line {
    pub(crate) round: u16,
    pub(crate) partner: Option<u16>,
}

impl fmt::Display for Line {
    ghost output = { λ l. Some (line_text l.round l.partner) };

    fn fmt<W: fmt::Write>(&self, f: &mut fmt::Formatter<W>) -> fmt::Result {
        let round = self.round;
        match self.partner {
            Some(partner) => write!(f, "{round:>5}  {partner:>7}"),
            None => write!(f, "{round:>5}     free"),
        }
    }
}
