// Tests of checking plans: every small plan beside a search, worked refusals, bytes, plans that are made and changed, and full days.
pub(crate) mod alone;
#[cfg(test)]
mod bytes;
#[cfg(test)]
mod changed;
#[cfg(test)]
mod checks;
#[cfg(test)]
mod dropped;
#[cfg(test)]
pub(crate) mod faults;
#[cfg(test)]
mod full;
#[cfg(test)]
mod least;
#[cfg(test)]
mod made;
#[cfg(test)]
mod refused;
#[cfg(test)]
mod small;
