// Sheets as text, made line by line from the rows that a search gives.
use meetings::Side;
use std::alloc::{AllocError, Global};

// A round at the right end of five places, and whom the party meets there in nine more.
fn line(heap: Global, round: usize, partner: Option<u16>) -> Result<String, AllocError> {
    match partner {
        Some(partner) => format!(in heap; "{round:>5}{partner:>9}\n"),
        None => format!(in heap; "{round:>5}{:>9}\n", "free"),
    }
}

fn head(heap: Global, side: Side, party: u16) -> Result<String, AllocError> {
    match side {
        Side::Groups => format!(in heap; "group {party}\nround{:>9}\n", "station"),
        Side::Stations => format!(in heap; "station {party}\nround{:>9}\n", "group"),
    }
}

// A party's sheet is added, with an empty line.
pub(crate) fn add_sheet(
    heap: Global,
    text: &mut String,
    side: Side,
    party: u16,
    row: &[Option<u16>],
) -> Result<(), AllocError> {
    let head = head(heap, side, party)?;
    text.push_str(head.as_str())?;
    for (round, partner) in row.iter().enumerate() {
        let line = line(heap, round, *partner)?;
        text.push_str(line.as_str())?;
    }
    text.push('\n')
}
