//! Tests of the lowest crates from outside: that calls which take memory succeed where there is some, pages read, cut and made, and the
//! rows of the rules against an independent reading.
#![tactic(auto)]

#[cfg(test)]
mod cutting;
#[cfg(test)]
mod elements;
#[cfg(test)]
mod making;
#[cfg(test)]
mod reading;
#[cfg(test)]
mod rows;
