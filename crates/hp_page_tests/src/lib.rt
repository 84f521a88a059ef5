//! Tests of whole pages by chunks: in order on one thread, on several threads over a board, and by the board's own steps.
#![tactic(auto)]

#[cfg(test)]
mod chunks;
#[cfg(test)]
mod counting;
#[cfg(test)]
mod groves;
#[cfg(test)]
mod lists;
#[cfg(test)]
mod script;
#[cfg(test)]
mod threads;
