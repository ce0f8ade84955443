// The live list of one signal, filled into a lent list of records.
#![tactic(auto)]

mod list;
mod values;

pub use list::{Lived, lent, live_list};

// The task number of the carried value, as wide as the record's: u8 has no From of usize, and Rattle calls no `try_from` in a constant.
pub const CARRIED: u8 = rules::CARRIED as u8;

// A value of the signal: the instance that writes it, the ticks of its life, the last excluded, and its planned element.
#[repr(C)]
#[derive(Clone, Copy)]
pub struct LiveValue {
    pub task: u8,
    pub instance: u16,
    pub from: u32,
    pub until: u32,
    pub element: u8,
}

// The values to fill in: the first `count` places are in use. An array, because the project has fixed memory and no heap.
#[derive(Clone, Copy)]
pub struct Lives {
    pub values: [LiveValue; rules::MOST_VALUES],
    pub count: usize,
}

// A record that stands for nothing.
pub const BLANK: LiveValue = LiveValue {
    task: 0,
    instance: 0,
    from: 0,
    until: 0,
    element: 0,
};
