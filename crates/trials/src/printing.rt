// Tests of sheets and reports: worked texts, refusals, and sheets of random plans beside a search over all meetings.
mod found;
#[cfg(test)]
mod list_and_plan;
#[cfg(test)]
mod made;
#[cfg(test)]
mod plain;
#[cfg(test)]
mod refused;
#[cfg(test)]
mod reports;
#[cfg(test)]
mod worked;
