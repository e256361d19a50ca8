// Tests of the libraries: worked examples, both sides of each limit, and random cases beside the rules written once more or beside a
// search. What the tests rest on is proved.
#![tactic(auto)]

mod changing;
mod checking;
mod clashes;
#[cfg(test)]
mod day;
mod entries;
#[cfg(test)]
mod lent;
mod lists;
#[cfg(test)]
mod made_lists;
#[cfg(test)]
mod number;
#[cfg(test)]
mod planned;
#[cfg(test)]
mod planning;
mod printing;
mod random;
#[cfg(test)]
mod reading;
#[cfg(test)]
mod rounds;
#[cfg(test)]
mod rule;
#[cfg(test)]
mod same;
#[cfg(test)]
mod search;
#[cfg(test)]
mod told;
