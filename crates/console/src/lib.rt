// The bench console's language: all of the rig that is neither input nor output.
#![tactic(auto)]

mod bases;
pub mod command;
pub mod digits;
pub mod page;
pub mod words;
