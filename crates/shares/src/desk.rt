// The desk: takes the lines of the input one after another, and answers each order.
use crate::case::{Case, Shares};
use crate::command::{Command, Draw, Entry, read_command};
use crate::entries::Entries;
use crate::fault::Fault;
use crate::level::share_order;
use crate::order::Order;
use sharing::DrawRule;
use std::io;
use std::io::Write;
use terms::{Class, MOST_ORDER_NUMBER, MOST_PARTY};

// The makers' rule, which goes on from case to case, and the case at hand, which ends with its order line. At first nobody is drawn.
#[derive(Default, Drop)]
pub struct Desk {
    rule: DrawRule,
    case: Case,
    // the first line of the case that could not be taken
    bad: Option<u64>,
}

// Prints one class: each holder with its share.
fn print_class<W: Write>(
    out: &mut W,
    name: &str,
    entries: &Entries,
    shares: &[u32],
) -> io::Result<()> {
    write!(out, "{name}")?;
    for (holder, share) in entries.holders().iter().zip(shares) {
        write!(out, " {holder}:{share}")?;
    }
    writeln!(out)
}

impl Desk {
    // Takes one line, and prints what it calls for.
    pub fn take<W: Write>(&mut self, number: u64, line: &[u8], out: &mut W) -> io::Result<()> {
        let taken = match read_command(line) {
            Ok(Command::Nothing) => {
                out.write_all(line)?;
                return writeln!(out);
            }
            Ok(Command::Order(order)) => return self.take_order(number, order, out),
            Ok(Command::Draw(draw)) => self.take_draw(&draw),
            Ok(Command::Entry(entry)) => self.take_entry(entry),
            Err(fault) => Err(fault),
        };
        match taken {
            Ok(()) => Ok(()),
            Err(fault) => self.spoil(number, fault, out),
        }
    }

    // Says what is wrong with a line; its case will not be shared.
    fn spoil<W: Write>(&mut self, number: u64, fault: Fault, out: &mut W) -> io::Result<()> {
        self.bad = self.bad.or(Some(number));
        writeln!(out, "line {number} {fault}")
    }

    fn take_draw(&mut self, draw: &Draw) -> Result<(), Fault> {
        let parties = draw.parties.get(..draw.count).ok_or(Fault::Parties)?;
        self.rule = DrawRule::draw(parties, draw.specialist)?;
        Ok(())
    }

    fn take_entry(&mut self, entry: Entry) -> Result<(), Fault> {
        let Entry {
            class,
            holder,
            size,
        } = entry;
        match class {
            Class::Customers => self.case.customers.add(MOST_ORDER_NUMBER, holder, size),
            Class::Makers => self.case.makers.add(MOST_PARTY, holder, size),
            Class::Firms => self.case.firms.add(MOST_ORDER_NUMBER, holder, size),
        }
    }

    // Ends the case: shares it, or says why not.
    fn take_order<W: Write>(&mut self, number: u64, order: Order, out: &mut W) -> io::Result<()> {
        let told = match self.bad.take() {
            Some(bad) => writeln!(
                out,
                "line {number} shares nothing, since line {bad} was not taken"
            ),
            None => self.share(order, out),
        };
        self.case = Case::default();
        told
    }

    // Shares an order and prints the shares, what is left of it, and the turn.
    fn share<W: Write>(&mut self, order: Order, out: &mut W) -> io::Result<()> {
        let case = &self.case;
        let mut shares = Shares::default();
        let left = share_order(order, case, &mut self.rule, &mut shares);
        print_class(out, "customers", &case.customers, &shares.customers)?;
        print_class(out, "makers", &case.makers, &shares.makers)?;
        print_class(out, "firms", &case.firms, &shares.firms)?;
        writeln!(out, "left {left}")?;
        match self.rule.turn() {
            Some(party) => writeln!(out, "turn {party}"),
            None => writeln!(out, "turn none"),
        }
    }
}
