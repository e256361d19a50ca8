// Tests of changing a day: worked changes, refusals, bytes, the limits, random rows beside the rule, and a long row on a full day.
#[cfg(test)]
mod bytes;
#[cfg(test)]
mod checks;
#[cfg(test)]
mod from_bytes;
pub(crate) mod kinds;
#[cfg(test)]
mod limits;
#[cfg(test)]
mod long_row;
#[cfg(test)]
pub(crate) mod random_rows;
#[cfg(test)]
mod refused;
#[cfg(test)]
mod worked;
