// The record in front of the bytes, which go on to the schedule's end, put on the page as a line.
ghost use Rattle.std.specs.Prelude.{◌≡◌, ◌≤◌, length};
ghost use Rattle.form.specs.Records.{bf_bytes, use_bytes};
ghost use Rattle.text.specs.Walk.{signal_in, instance_in, use_in, record_in, Lists};

use crate::lines::{put_signal, put_use};
use console::page::Page;
use fields::marked;
use rules::{
    BF, BF_BYTES, COUNT_AT, ELEMENT_AT, INSTANCE_AT, LOW_AT, SIGNAL_AT, TASK_AT, USE_BYTES, WI,
};

const WRITE: &[u8] = b"write ";

const READ: &[u8] = b"read ";

// The bytes of the record, and its count if it is a signal's.
#[derive(Clone, Copy)]
pub struct Listed {
    pub size: usize,
    pub count: u64,
}

fn list_signal(bytes: &[u8], page: &mut Page) -> Listed
    requires { bf_bytes ≤ length bytes.now }
    ensures { Lists (signal_in bytes.now) page.old result page.new }
{
    let count = bytes[COUNT_AT];
    put_signal(page, bytes[SIGNAL_AT], count);
    Listed {
        size: BF_BYTES,
        count: u64::from(count),
    }
}

fn instance_in(bytes: &[u8]) -> u16
    requires { use_bytes ≤ length bytes.now }
    ensures { result ≡ instance_in bytes.now }
{
    u16::from_be_bytes([bytes[INSTANCE_AT], bytes[LOW_AT]])
}

fn list_use(bytes: &[u8], page: &mut Page, name: &[u8]) -> Listed
    requires { use_bytes ≤ length bytes.now }
    ensures { Lists (use_in name.now bytes.now) page.old result page.new }
{
    put_use(
        page,
        name,
        bytes[TASK_AT],
        instance_in(bytes),
        bytes[ELEMENT_AT],
    );
    Listed {
        size: USE_BYTES,
        count: 0,
    }
}

// Before EN a record that is neither a signal's nor a writer's is a reader's.
pub fn list_record(bytes: &[u8], page: &mut Page) -> Listed
    requires { (record_in bytes.now).size ≤ length bytes.now }
    ensures { Lists (record_in bytes.now) page.old result page.new }
{
    if marked(bytes, 0, BF) {
        return list_signal(bytes, page);
    }
    if marked(bytes, 0, WI) {
        return list_use(bytes, page, WRITE);
    }
    list_use(bytes, page, READ)
}
