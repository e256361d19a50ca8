// The rows of one side: one row for each party, one after the other in a lent slice.
ghost use Rattle.std.specs.Prelude.{◌≡◌, ◌+◌, ◌*◌, ◌<◌, ◌≤◌, length, slice_set};

// Writes one entry of one row.
fn write_in_row(row: &mut [u16], round: u16, entry: u16)
    requires within { round < length row.old }
    ensures { row.new ≡ slice_set row.old round entry }
{
    row[usize::from(round)] = entry;
}

// Lends a party's row on, to have one entry of it written. Rows and width come apart, as where a row is read.
pub(crate) fn write_entry(rows: &mut [u16], width: u16, party: u16, round: u16, entry: u16)
    requires room { party * width + width ≤ length rows.old }
    requires within { round < width }
    ensures { rows.new ≡ slice_set rows.old (party * width + round) entry }
{
    // `as`, since after a `From` it is not proved where in the whole slice the part lies
    let start = party as usize * width as usize;
    write_in_row(&mut rows[start..start + width as usize], round, entry);
}
