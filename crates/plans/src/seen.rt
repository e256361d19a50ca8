// Which parties of a side were seen in which rounds.
ghost use Rattle.std.specs.Prelude.{◌≡◌, ◌+◌, ◌*◌, ◌<◌, true, false, length, slice_index_or, slice_set};

// Whether a party was seen in a round before. It is marked as seen there, in rows of so many marks for each party.
pub(crate) fn see(marks: &mut [bool], rounds: u16, party: u16, round: u16) -> bool
    requires within { party * rounds + round < length marks.old }
    ensures before { result ≡ slice_index_or marks.old (party * rounds + round) false }
    ensures now { marks.new ≡ slice_set marks.old (party * rounds + round) true }
{
    let at = party as usize * rounds as usize + round as usize;
    let before = marks[at];
    marks[at] = true;
    before
}
