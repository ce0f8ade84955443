// The machine that runs a table with a schedule tick by tick. After loading it needs neither of them again.
#![tactic(auto)]

pub mod lists;

ghost use Rattle.machine.specs.Load.{Loads};
ghost use Rattle.machine.specs.Gives.{NewGives, StepGives, ReadGives, WriteGives};

use rules::{Answer, MOST_SIGNALS, WORDS};
use state::NUMBERS;

#[derive(Clone, Copy)]
pub struct Machine {
    // Crate `state` names the parts.
    pub numbers: [u16; NUMBERS],
    pub defaults: [u32; MOST_SIGNALS],
    pub store: [u32; WORDS],
}

// The machine comes back on a refusal too, as it was (StepGives, WriteGives, Loads), so it stands beside the answer and not in it.
#[derive(Clone, Copy)]
pub struct Stepped {
    pub answer: Answer,
    pub machine: Machine,
}

// A refused read has word 0 (ReadGives, ListsReadGives): the word is returned on a refusal too, so it stands beside the answer and not in it.
#[derive(Clone, Copy)]
pub struct WordRead {
    pub answer: Answer,
    pub word: u32,
}

// A refusal has instance 0, as C is told (ListsOpenGives), so the instance too stands beside the answer.
#[derive(Clone, Copy)]
pub struct InstanceRead {
    pub answer: Answer,
    pub instance: u16,
}

impl Machine {
    // Before the first loading, so unfit.
    pub fn new() -> Machine
        ensures { NewGives result }
    {
        Machine {
            numbers: [0; NUMBERS],
            defaults: [0; MOST_SIGNALS],
            store: [0u32; WORDS],
        }
    }

    // The table is checked, then the schedule. A refused loading leaves the machine running.
    pub fn load<'a>(self, table: &'a [u8], schedule: &'a [u8]) -> Stepped
        ensures { Loads self table.now schedule.now result }
    {
        let mut machine = self;
        let answer = lists::load(
            &mut machine.numbers,
            &mut machine.defaults,
            &mut machine.store,
            table,
            schedule,
        );
        Stepped { answer, machine }
    }

    pub fn step(self) -> Stepped
        ensures { StepGives self result }
    {
        let mut machine = self;
        let answer = lists::step(&mut machine.numbers, &machine.defaults, &mut machine.store);
        Stepped { answer, machine }
    }

    pub fn read(self, task: usize, signal: usize) -> WordRead
        ensures { ReadGives self task signal result }
    {
        lists::read(&self.numbers, &self.store, task, signal)
    }

    pub fn write(self, task: usize, signal: usize, word: u32) -> Stepped
        ensures { WriteGives self task signal word result }
    {
        let mut machine = self;
        let answer = lists::write(&machine.numbers, &mut machine.store, task, signal, word);
        Stepped { answer, machine }
    }
}
