// The library for firmware: document 01's functions under C names. All but press_lists_new give back the number of their answer; where the number has a
// place that is not always 0, it goes through the last parameter. A machine is the three lists that its caller lends. Crate `export_c` hands them to C.
#![tactic(auto)]

ghost use Rattle.rules.specs.Numbers.{told};
ghost use Rattle.export.specs.Gives.{Tells, PressTableGives, PressPlanGives, PressCheckGives, PressLiveGives, PressNewGives, PressLoadGives, PressStepGives, PressReadGives, PressWriteGives, PressOpenGives};

use lives::LiveValue;
use machine::lists;
use rules::{Answer, MOST_SIGNALS, WORDS};
use state::NUMBERS;

// The number of an answer comes back, and its place goes where the caller has room for it.
fn tell(answer: Answer, place: &mut usize) -> u8
    ensures { Tells (told answer) result place.new }
{
    *place = answers::place(answer);
    answers::number(answer)
}

// Reading a table: 0, or 1 to 11.
pub fn press_table(table: &[u8], place: &mut usize) -> u8
    ensures { PressTableGives table.now result place.new }
{
    let read = table::read_table(table);
    tell(read.hyper.and(Ok(0)), place)
}

// Planning a table into the lent buffer: 0 with the bytes planned, or 1 to 14.
pub fn press_plan(table: &[u8], out: &mut [u8], place: &mut usize) -> u8
    ensures { PressPlanGives table.now out.old result place.new out.new }
{
    let planned = plan::plan(table, out);
    tell(planned, place)
}

// Checking a schedule that was made elsewhere: 0, 1 to 11 for the table, or 15 to 22.
pub fn press_check(table: &[u8], schedule: &[u8], place: &mut usize) -> u8
    ensures { PressCheckGives table.now schedule.now result place.new }
{
    let checked = inspect::check_schedule(table, schedule);
    tell(checked, place)
}

// The live list of a signal at the front of the lent list: 0 with the records filled, 1 to 12, 14 or 23.
pub fn press_live(table: &[u8], signal: usize, list: &mut [LiveValue], place: &mut usize) -> u8
    ensures { PressLiveGives table.now signal list.old result place.new list.new }
{
    let filled = lives::live_list(table, signal, list);
    tell(filled, place)
}

// A machine before its first loading, so unfit.
pub fn press_lists_new(
    numbers: &mut [u16; NUMBERS],
    defaults: &mut [u32; MOST_SIGNALS],
    store: &mut [u32; WORDS],
)
    ensures { PressNewGives numbers.new defaults.new store.new }
{
    *numbers = [0; NUMBERS];
    *defaults = [0; MOST_SIGNALS];
    *store = [0; WORDS];
}

// Loading: 0, 1 to 11 for the table, or 15 to 22. A refused one leaves the machine running.
pub fn press_lists_load<'a, 'b>(
    numbers: &'b mut [u16; NUMBERS],
    defaults: &'b mut [u32; MOST_SIGNALS],
    store: &'b mut [u32; WORDS],
    table: &'a [u8],
    schedule: &'a [u8],
    place: &mut usize,
) -> u8
    ensures { PressLoadGives numbers.old defaults.old store.old table.now schedule.now result place.new numbers.new defaults.new store.new }
{
    let loaded = lists::load(numbers, defaults, store, table, schedule);
    tell(loaded, place)
}

// The next tick: 0, or 25.
pub fn press_lists_step(
    numbers: &mut [u16; NUMBERS],
    defaults: &[u32; MOST_SIGNALS],
    store: &mut [u32; WORDS],
) -> u8
    ensures { PressStepGives numbers.old defaults.now store.old result numbers.new store.new }
{
    answers::number(lists::step(numbers, defaults, store))
}

// What a task reads of a signal now: 0 with the word, or 23 to 25 with word 0.
pub fn press_lists_read<'a>(
    numbers: &'a [u16; NUMBERS],
    store: &'a [u32; WORDS],
    task: usize,
    signal: usize,
    word: &mut u32,
) -> u8
    ensures { PressReadGives numbers.now store.now task signal result word.new }
{
    let read = lists::read(numbers, store, task, signal);
    *word = read.word;
    answers::number(read.answer)
}

// A task's write to a signal: 0, or 23 to 25.
pub fn press_lists_write(
    numbers: &[u16; NUMBERS],
    store: &mut [u32; WORDS],
    task: usize,
    signal: usize,
    word: u32,
) -> u8
    ensures { PressWriteGives numbers.now store.old task signal word result store.new }
{
    answers::number(lists::write(numbers, store, task, signal, word))
}

// Which instance of a task is open now: 0 with the instance, or 23 to 25 with instance 0.
pub fn press_lists_open(numbers: &[u16; NUMBERS], task: usize, instance: &mut u16) -> u8
    ensures { PressOpenGives numbers.now task result instance.new }
{
    let open = lists::open_instance(numbers, task);
    *instance = open.instance;
    answers::number(open.answer)
}
