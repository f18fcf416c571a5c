// Shares one order at one price among customers, makers and firms, case by case.
#![tactic(auto)]

mod case;
mod command;
mod desk;
mod entries;
mod fault;
mod level;
mod listing;
mod order;

use command::MOST_BYTES;
use desk::Desk;
use lines::next_line;
use std::io;
use std::io::{BufReader, BufWriter, Write};

fn main(rt: HostRuntime) -> io::Result<()> {
    let mut input = BufReader::new(rt.alloc(), rt.stdin())?;
    let mut out = BufWriter::new(rt.alloc(), rt.stdout())?;
    let mut line = Vec::new(rt.alloc());
    let mut desk = Desk::default();
    for number in 1..=u64::MAX {
        if !next_line(&mut input, MOST_BYTES + 1, &mut line)? {
            if number == 1 {
                writeln!(
                    out,
                    "the input is empty: write draw, customer, maker, firm and order lines"
                )?;
            }
            break;
        }
        desk.take(number, &line, &mut out)?;
        // someone may be typing: an answer is not held back
        if input.buffer().is_empty() {
            out.flush()?;
        }
    }
    out.flush()
}
