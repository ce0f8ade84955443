// The record for which a schedule of right form does not pass: 21 among the RI, 22 among the WI. Only a refusal pays for the search.
#![tactic(auto)]

mod readers;
mod search;
mod sharing;
mod untils;
mod view;

pub use search::first_fault;
