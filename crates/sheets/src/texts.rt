// The text of sheets.
ghost use Rattle.std.specs.Prelude.{◌≡◌, ◌++◌, ◌∷◌, ◌≤◌, [], length, string_bytes};
ghost use Rattle.meetings.specs.Held.{contents};
ghost use Rattle.meetings.specs.Refusals.{IfMemory};
ghost use Rattle.sheets.specs.Texts.{both_text, heading, lines_text, sheet_text, side_text, title};
ghost use Rattle.sheets.specs.Told.{row_in};

use crate::line::Line;
use crate::sheets::Sheets;
use meetings::{MeetingList, Refusal, Side};
use std::alloc::Global;

// Whose sheet it is, and what its columns are.
fn add_head(text: &mut String, side: Side, party: u16) -> Result<(), Refusal>
    ensures { IfMemory result (λ _. string_bytes text.new ≡ string_bytes text.old ++ (title side party ++ (10 ∷ heading side ++ 10 ∷ []))) }
{
    match side {
        Side::Groups => writeln!(text, "group {party}\nround  station")?,
        Side::Stations => writeln!(text, "station {party}\nround    group")?,
    }
    Ok(())
}

// A line for each round of a row.
fn add_lines(text: &mut String, row: &[Option<u16>]) -> Result<(), Refusal>
    requires { length row.now ≤ 65535 }
    ensures { IfMemory result (λ _. string_bytes text.new ≡ string_bytes text.old ++ lines_text 0 row.now) }
{
    for (round, partner) in row.iter().enumerate() {
        // `as`, since it is proved to fit
        let line = Line {
            round: round as u16,
            partner: *partner,
        };
        writeln!(text, "{line}")?;
    }
    Ok(())
}

// A party's sheet, and an empty line.
fn add_sheet(text: &mut String, side: Side, party: u16, row: &[Option<u16>]) -> Result<(), Refusal>
    requires { length row.now ≤ 65535 }
    ensures { IfMemory result (λ _. string_bytes text.new ≡ string_bytes text.old ++ sheet_text side party row.now) }
{
    add_head(text, side, party)?;
    add_lines(text, row)?;
    text.push_str("\n")?;
    Ok(())
}

// The sheets of so many parties of a side.
fn add_side(text: &mut String, sheets: &Sheets, side: Side, many: u16) -> Result<(), Refusal>
    ensures { IfMemory result (λ _. string_bytes text.new ≡ string_bytes text.old ++ side_text side (row_in sheets.now side) many 0) }
{
    for party in 0..many {
        add_sheet(text, side, party, sheets.row(side, party))?;
    }
    Ok(())
}

// All sheets, for as many parties as a list has: those of groups, and then those of stations. Only memory can be wanting.
pub fn text_of(heap: Global, list: &MeetingList, sheets: &Sheets) -> Result<String, Refusal>
    ensures { IfMemory result (λ text. string_bytes text ≡ both_text (contents list.now).groups (contents list.now).stations (row_in sheets.now)) }
{
    let mut text = String::new(heap);
    add_side(&mut text, sheets, Side::Groups, list.groups())?;
    add_side(&mut text, sheets, Side::Stations, list.stations())?;
    Ok(text)
}
