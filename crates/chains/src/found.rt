// The meetings that were found while chains are followed, each once.
ghost use Rattle.std.specs.Prelude.{◌≡◌, ℕ, ◌<◌, true, false, [], ◌∷◌, ◌++◌, length, replicate, vec_capacity, slice_index_or, slice_set};
ghost use Rattle.meetings.specs.Refusals.{IfMemory};
ghost use Rattle.chains.specs.Chains.{holds};
ghost use Rattle.chains.specs.Marked.{Marked};

use meetings::{MeetingId, Refusal};
use std::alloc::Global;

// A list of meetings in the order in which they were found, and a mark for each, so that none is looked for in the list, and
// adding one needs no memory. The list has plain numbers, as the rule has them: with `MeetingId` each clause would have to say
// that its numbers are those of the rule.
#[derive(Drop)]
pub struct Found {
    marks: Vec<bool>,
    list: Vec<u16>,
    ghost marked: { Marked marks.items list.items (vec_capacity list) },
}

// Sets a mark or clears it. `write_in_row` does so with an entry; one generic function for both would be `slice[i] = x` itself.
fn mark(marks: &mut [bool], meeting: MeetingId, set_to: bool)
    requires within { meeting.0 < length marks.old }
    ensures { marks.new ≡ slice_set marks.old meeting.0 set_to }
{
    marks[usize::from(meeting.0)] = set_to;
}

impl Found {
    ghost use Rattle.chains.specs.Finding.{Finds, NoneFound, among_all, found_in, with_new};

    // Nothing found yet, among so many meetings. Only memory can be wanting.
    pub fn none(heap: Global, many: usize) -> Result<Found, Refusal>
        ensures { IfMemory result (λ v. NoneFound v many) }
    {
        let marks = vec![in heap; false; many]?;
        let list = Vec::with_capacity(heap, many)?;
        Ok(Found { marks, list })
    }

    // Whether a meeting was found.
    pub fn has(&self, meeting: MeetingId) -> bool
        requires within { meeting.0 < among_all self.now }
        ensures { result ≡ holds (found_in self.now) meeting.0 }
    {
        self.marks[usize::from(meeting.0)]
    }

    // The meetings found, in their order.
    pub fn list(&self) -> &[u16]
        ensures { result.now ≡ found_in self.now }
    {
        self.list.as_slice()
    }

    // One more is found; that it was not found yet is a fact of two values, and its caller has asked.
    pub fn add(&mut self, meeting: MeetingId)
        requires within { meeting.0 < among_all self.old }
        requires new { holds (found_in self.old) meeting.0 ≡ false }
        ensures { Finds self.old self.new (found_in self.old ++ meeting.0 ∷ []) }
    {
        mark(&mut self.marks, meeting, true);
        self.list.push_reserved(meeting.0);
    }

    // Adds those of these meetings that were not found yet.
    pub fn add_all(&mut self, members: &[u16])
        requires within { (i : ℕ) → holds members.now i ≡ true → i < among_all self.old }
        ensures { Finds self.old self.new (with_new (found_in self.old) members.now) }
    {
        for member in members {
            let meeting = MeetingId(*member);
            if !self.has(meeting) {
                self.add(meeting);
            }
        }
    }

    // Forgets all that were found; only marks that were set are cleared.
    pub fn clear(&mut self)
        ensures { Finds self.old self.new [] }
    {
        clear_marks(&mut self.marks, &self.list);
        self.list.clear();
    }
}

// Clears the marks of these meetings, which are all that are set.
fn clear_marks(marks: &mut [bool], list: &[u16])
    requires marked { (i : ℕ) → i < length marks.old → slice_index_or marks.old i false ≡ holds list.now i }
    requires within { (i : ℕ) → holds list.now i ≡ true → i < length marks.old }
    ensures { marks.new ≡ replicate (length marks.old) false }
{
    for meeting in list {
        mark(marks, MeetingId(*meeting), false);
    }
}
