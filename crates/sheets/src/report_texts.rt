// The text of reports.
ghost use Rattle.std.specs.Prelude.{◌≡◌, ◌++◌, string_bytes};
ghost use Rattle.meetings.specs.Refusals.{IfMemory};
ghost use Rattle.sheets.specs.ReportTexts.{changes_text, numbered_lines, report_text};
ghost use Rattle.sheets.specs.Reports.{told};

use crate::report::Report;
use changes::Changed;
use meetings::Refusal;
use std::alloc::Global;

// A line for each number, with its place.
fn add_numbered(text: &mut String, one: &str, other: &str, numbers: &[u16]) -> Result<(), Refusal>
    ensures { IfMemory result (λ _. string_bytes text.new ≡ string_bytes text.old ++ numbered_lines one.now other.now 0 numbers.now) }
{
    for (place, number) in numbers.iter().enumerate() {
        writeln!(text, "{one}{place}{other}{number}")?;
    }
    Ok(())
}

// The report of a plan: the number of rounds and of looks, how many meetings each round has, and the round of each meeting. Only
// memory can be wanting.
pub fn report_text(heap: Global, report: &Report) -> Result<String, Refusal>
    ensures { IfMemory result (λ text. string_bytes text ≡ report_text (told report.now)) }
{
    let mut text = String::new(heap);
    let rounds = report.planned.rounds;
    let looks = report.planned.looks;
    writeln!(text, "rounds {rounds} looks {looks}")?;
    add_numbered(&mut text, "round ", " meetings ", &report.of_rounds)?;
    add_numbered(&mut text, "meeting ", " round ", &report.of_meetings)?;
    Ok(text)
}

// The report of a row of changes: a line for each. Only memory can be wanting.
pub fn changes_text(heap: Global, told: &[Changed]) -> Result<String, Refusal>
    ensures { IfMemory result (λ text. string_bytes text ≡ changes_text told.now) }
{
    let mut text = String::new(heap);
    for changed in told {
        let Changed { rounds, moved, .. } = *changed;
        writeln!(text, "rounds {rounds} moved {moved}")?;
    }
    Ok(text)
}
