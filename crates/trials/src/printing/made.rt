// Sheets of random plans, of which some meetings are dropped, beside the search and its text.
use crate::checking::alone::Placed;
use crate::checking::faults::beside;
use crate::entries::NONE;
use crate::printing::list_and_plan::{ListAndPlan, searched_row};
use crate::printing::plain::add_sheet;
use crate::random::Random;
use crate::same::{holds, same, same_for};
use crate::told::told;
use meetings::Side;
use plans::check;
use sheets::{Sheets, text_of};
use std::alloc::Global;
use std::process::Abort;
use std::test::Fail;

// One meeting is dropped if the plan is accepted without it. Else the sheets are refused as the plan is.
fn drop_one(rt: &impl Abort, heap: Global, day: &mut ListAndPlan, at: usize) -> Result<(), Fail> {
    let without = day
        .of_meetings
        .iter()
        .enumerate()
        .map(|(number, its)| if number == at { NONE } else { *its })
        .collect::<Vec<_>>(heap)?;
    let fault = told(check(heap, &day.list, day.rounds, &without));
    same_for(rt, &told(day.sheets(heap, &without)), &fault, &without);
    same_for(rt, &told(day.printed(heap, &without)), &fault, &without);
    if fault.is_none() {
        day.of_meetings = without;
    }
    Ok(())
}

// Whom a row has in a round has the party there in its own row.
fn check_told_back(rt: &impl Abort, sheets: &Sheets, side: Side, party: u16) {
    for (round, partner) in sheets.row(side, party).iter().enumerate() {
        if let Some(partner) = *partner {
            let back = sheets
                .row(side.other(), partner)
                .get(round)
                .copied()
                .flatten();
            same_for(rt, &back, &Some(party), &(side, party, round));
        }
    }
}

// The rows of a side are those of the search. Their text is added, and how many meetings they tell is answered.
fn check_side(
    rt: &impl Abort,
    heap: Global,
    day: &ListAndPlan,
    placed: &[Placed],
    sheets: &Sheets,
    side: Side,
    text: &mut String,
) -> Result<usize, Fail> {
    let mut met = 0usize;
    for party in 0..day.many(side) {
        let row = searched_row(heap, placed, side, party, day.rounds)?;
        same_for(
            rt,
            &sheets.row(side, party),
            &row.as_slice(),
            &(side, party),
        );
        check_told_back(rt, sheets, side, party);
        add_sheet(heap, text, side, party, &row)?;
        met = met.saturating_add(row.iter().filter(|partner| partner.is_some()).count());
    }
    // a party that does not exist has no row
    assert!(rt; sheets.row(side, day.many(side)).is_empty());
    Ok(met)
}

// The rows of both sides. Answers their text.
fn checked_rows(
    rt: &impl Abort,
    heap: Global,
    day: &ListAndPlan,
    sheets: &Sheets,
) -> Result<String, Fail> {
    let placed = beside(heap, &day.list, &day.of_meetings)?;
    let mut text = String::new(heap);
    for side in [Side::Groups, Side::Stations] {
        let met = check_side(rt, heap, day, &placed, sheets, side, &mut text)?;
        same_for(rt, &met, &day.kept(), &side);
    }
    Ok(text)
}

fn check_day(rt: &impl Abort, heap: Global, day: &ListAndPlan) -> Result<(), Fail> {
    let sheets = day.sheets(heap, &day.of_meetings)?;
    same(rt, &sheets.rounds(), &day.rounds);
    let right = checked_rows(rt, heap, day, &sheets)?;
    let text = text_of(heap, &day.list, &sheets)?;
    same(rt, &text.as_str(), &right.as_str());
    let printed = day.printed(heap, &day.of_meetings)?;
    same(rt, &printed.as_str(), &right.as_str());
    Ok(())
}

#[test]
fn sheets_of_random_plans(rt: HostRuntime) -> Result<(), Fail> {
    let heap = rt.alloc();
    let mut random = Random::new(11);
    let mut dropped = 0usize;
    let mut met = 0usize;
    for _ in 0..300 {
        let mut day = ListAndPlan::random(heap, &mut random)?;
        for _ in 0..random.below(25) {
            let at = usize::from(random.below(24));
            drop_one(&rt, heap, &mut day, at)?;
        }
        check_day(&rt, heap, &day)?;
        met = met.saturating_add(day.kept());
        dropped = dropped.saturating_add(day.of_meetings.len().saturating_sub(day.kept()));
    }
    // else the sheets would show little
    holds(&rt, dropped > 300, &dropped);
    holds(&rt, met > 1000, &met);
    Ok(())
}
