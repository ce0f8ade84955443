// Input in large pieces, cut into lines; output in large pieces, none kept back while more input is waited for.
use crate::bench::{Bench, OUTPUT};
use crate::tell::LINE_FEED;
use console::page::Page;
use std::io;
use std::io::{Read, Write};

fn flush(output: &mut impl Write, out: &mut Page) -> io::Result<()> {
    output.write_all(out.text())?;
    output.flush()?;
    out.clear();
    Ok(())
}

// Answers the line; the next begins.
fn end_line(output: &mut impl Write, line: &mut Page, bench: &mut Bench) -> io::Result<()> {
    bench.answer(line.text());
    line.clear();
    // The other half has room for any answer.
    if bench.out.used > OUTPUT / 2 {
        flush(output, &mut bench.out)?;
    }
    Ok(())
}

fn take_piece(
    output: &mut impl Write,
    piece: &[u8],
    line: &mut Page,
    bench: &mut Bench,
) -> io::Result<()> {
    for part in piece.split_inclusive(|b| *b == LINE_FEED) {
        // What has no line feed yet goes on in the next piece.
        match part.strip_suffix(&[LINE_FEED]) {
            Some(text) => {
                line.put_all(text);
                end_line(output, line, bench)?;
            }
            None => line.put_all(part),
        }
    }
    Ok(())
}

pub(crate) fn run(
    input: &mut impl Read,
    output: &mut impl Write,
    piece: &mut [u8],
    line: &mut Page,
    bench: &mut Bench,
) -> io::Result<()> {
    // Nothing says that input ends, so the turns are counted up to a number that no run uses up.
    for _ in 0..u64::MAX {
        // Who asked may wait for the answer before he asks on, so what is there is written before the wait for more.
        flush(output, &mut bench.out)?;
        let n = input.read(piece)?;
        if n == 0 {
            break;
        }
        take_piece(output, &piece[..n], line, bench)?;
    }
    // A last line without a line feed; an empty one answers nothing.
    end_line(output, line, bench)?;
    flush(output, &mut bench.out)
}
