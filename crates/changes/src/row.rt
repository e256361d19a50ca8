// A row of changes that was tested.
use crate::change::Change;
use crate::tested::Tested;
use meetings::MeetingList;

// The list before the changes and its number of rounds, the changes, and what these come to.
#[derive(Drop)]
pub(crate) struct Row<'a> {
    pub(crate) list: &'a MeetingList,
    pub(crate) rounds: u16,
    pub(crate) changes: &'a [Change],
    pub(crate) tested: Tested,
}
