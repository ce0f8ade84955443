// The static library for firmware: each function of crate `export` under its C name, with the same contract.
#![tactic(auto)]

ghost use Rattle.export.specs.Gives.{PressTableGives, PressPlanGives, PressCheckGives, PressLiveGives, PressNewGives, PressLoadGives, PressStepGives, PressReadGives, PressWriteGives, PressOpenGives};

use lives::LiveValue;
use rules::{MOST_SIGNALS, WORDS};
use state::NUMBERS;

// Reading a table: 0, or 1 to 11.
#[unsafe(no_mangle)]
pub extern "C" fn press_table(table: &[u8], place: &mut usize) -> u8
    ensures { PressTableGives table.now result place.new }
{
    export::press_table(table, place)
}

// Planning a table into the lent buffer: 0 with the bytes planned, or 1 to 14.
#[unsafe(no_mangle)]
pub extern "C" fn press_plan(table: &[u8], out: &mut [u8], place: &mut usize) -> u8
    ensures { PressPlanGives table.now out.old result place.new out.new }
{
    export::press_plan(table, out, place)
}

// Checking a schedule that was made elsewhere: 0, 1 to 11 for the table, or 15 to 22.
#[unsafe(no_mangle)]
pub extern "C" fn press_check(table: &[u8], schedule: &[u8], place: &mut usize) -> u8
    ensures { PressCheckGives table.now schedule.now result place.new }
{
    export::press_check(table, schedule, place)
}

// The live list of a signal at the front of the lent list: 0 with the records filled, 1 to 12, 14 or 23.
#[unsafe(no_mangle)]
pub extern "C" fn press_live(
    table: &[u8],
    signal: usize,
    list: &mut [LiveValue],
    place: &mut usize,
) -> u8
    ensures { PressLiveGives table.now signal list.old result place.new list.new }
{
    export::press_live(table, signal, list, place)
}

// A machine before its first loading, so unfit.
#[unsafe(no_mangle)]
pub extern "C" fn press_lists_new(
    numbers: &mut [u16; NUMBERS],
    defaults: &mut [u32; MOST_SIGNALS],
    store: &mut [u32; WORDS],
)
    ensures { PressNewGives numbers.new defaults.new store.new }
{
    export::press_lists_new(numbers, defaults, store);
}

// Loading: 0, 1 to 11 for the table, or 15 to 22. A refused one leaves the machine running.
#[unsafe(no_mangle)]
pub extern "C" fn press_lists_load<'a, 'b>(
    numbers: &'b mut [u16; NUMBERS],
    defaults: &'b mut [u32; MOST_SIGNALS],
    store: &'b mut [u32; WORDS],
    table: &'a [u8],
    schedule: &'a [u8],
    place: &mut usize,
) -> u8
    ensures { PressLoadGives numbers.old defaults.old store.old table.now schedule.now result place.new numbers.new defaults.new store.new }
{
    export::press_lists_load(numbers, defaults, store, table, schedule, place)
}

// The next tick: 0, or 25.
#[unsafe(no_mangle)]
pub extern "C" fn press_lists_step(
    numbers: &mut [u16; NUMBERS],
    defaults: &[u32; MOST_SIGNALS],
    store: &mut [u32; WORDS],
) -> u8
    ensures { PressStepGives numbers.old defaults.now store.old result numbers.new store.new }
{
    export::press_lists_step(numbers, defaults, store)
}

// What a task reads of a signal now: 0 with the word, or 23 to 25 with word 0.
#[unsafe(no_mangle)]
pub extern "C" fn press_lists_read<'a>(
    numbers: &'a [u16; NUMBERS],
    store: &'a [u32; WORDS],
    task: usize,
    signal: usize,
    word: &mut u32,
) -> u8
    ensures { PressReadGives numbers.now store.now task signal result word.new }
{
    export::press_lists_read(numbers, store, task, signal, word)
}

// A task's write to a signal: 0, or 23 to 25.
#[unsafe(no_mangle)]
pub extern "C" fn press_lists_write(
    numbers: &[u16; NUMBERS],
    store: &mut [u32; WORDS],
    task: usize,
    signal: usize,
    word: u32,
) -> u8
    ensures { PressWriteGives numbers.now store.old task signal word result store.new }
{
    export::press_lists_write(numbers, store, task, signal, word)
}

// Which instance of a task is open now: 0 with the instance, or 23 to 25 with instance 0.
#[unsafe(no_mangle)]
pub extern "C" fn press_lists_open(numbers: &[u16; NUMBERS], task: usize, instance: &mut u16) -> u8
    ensures { PressOpenGives numbers.now task result instance.new }
{
    export::press_lists_open(numbers, task, instance)
}
