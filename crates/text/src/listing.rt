// The listing of a table's bytes.
ghost use Rattle.std.specs.Prelude.{◌≡◌, length};
ghost use Rattle.rules.specs.Windows.{hyper};
ghost use Rattle.rules.specs.Numbers.{all_done};
ghost use Rattle.rules.specs.Reading.{table_in, read_says};
ghost use Rattle.rules.specs.Listing.{table_lines, text_of, listing};
ghost use Rattle.plan.specs.Planning.{plan_out};
ghost use Rattle.console.specs.Shown.{Puts};
ghost use Rattle.text.specs.Walk.{Planned};
ghost use Rattle.text.specs.Gives.{ListingGives};

use crate::lines::{put_hyper, put_refused, put_total};
use crate::walk::list_record;
use console::page::{Page, front};
use plan::plan;
use rules::EN_BYTES;
use table::read_table;

// The table is accepted, so that 0 never comes: `unwrap` would be no plainer, and ask for a proof that it does not panic.
fn hyper_of(table: &[u8]) -> u32
    requires { (read_says table.now).number ≡ all_done }
    ensures { result ≡ hyper (table_in table.now) }
{
    read_table(table).hyper.unwrap_or(0)
}

// The records of the schedule stand before its EN.
fn put_planned(table: &[u8], schedule: &[u8], page: &mut Page)
    requires { Planned table.now schedule.now }
    ensures { Puts (text_of (table_lines (table_in table.now))) page.old page.new }
{
    put_hyper(page, hyper_of(table));
    let mut sum: u64 = 0;
    let mut rest = schedule;
    // How long a record is, its mark says, so no iterator cuts them.
    while rest.len() > EN_BYTES {
        let listed = list_record(rest, page);
        sum += listed.count;
        rest = &rest[listed.size..];
    }
    put_total(page, sum);
}

// The lent schedule is room to plan in.
fn put_listed(table: &[u8], schedule: &mut [u8], page: &mut Page)
    ensures text { Puts (listing table.now (length schedule.old)) page.old page.new }
    ensures planned { schedule.new ≡ plan_out table.now schedule.old }
{
    let answer = plan(table, schedule);
    match answer {
        Ok(len) => put_planned(table, front(schedule, len), page),
        Err(_) => put_refused(page, answer),
    }
}

// Put on the page after its first `at` bytes; gives back how many are in use then. The lent schedule is room to plan in. A buffer and a number, since
// `ListingGives` has them so.
pub fn put_listing(table: &[u8], schedule: &mut [u8], out: &mut [u8], at: usize) -> usize
    ensures { ListingGives table.now schedule.old out.old at result schedule.new out.new }
{
    let mut page = Page {
        bytes: out,
        used: at,
    };
    put_listed(table, schedule, &mut page);
    page.used
}
