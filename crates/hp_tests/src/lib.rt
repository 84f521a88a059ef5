//! Tests of the crates from outside: short texts, whole and cut at each place, against an independent lexer; guesses of open elements; the
//! steps of tree construction on views; whole pages, and pages that are read in two parts from known states, and how much of the second a right guess covers; large trees that edits make,
//! printed; pages and their HTML text; a fragment's edits as they come; the program's words.
#![tactic(auto)]

#[cfg(test)]
mod carrying;
#[cfg(test)]
mod cases;
#[cfg(test)]
mod covering;
#[cfg(test)]
mod growing;
#[cfg(test)]
mod growth;
#[cfg(test)]
mod guessed;
#[cfg(test)]
mod guessing;
#[cfg(test)]
mod html;
#[cfg(test)]
mod known;
#[cfg(test)]
mod lexer;
#[cfg(test)]
mod markup;
#[cfg(test)]
mod names;
#[cfg(test)]
mod parts;
#[cfg(test)]
mod raw;
#[cfg(test)]
mod selecting;
#[cfg(test)]
mod tags;
#[cfg(test)]
mod teller;
#[cfg(test)]
mod tree;
#[cfg(test)]
mod words;
#[cfg(test)]
mod writing;
