// What a line says.
use crate::fault::Fault;
use crate::order::Order;
use lines::{Fields, number};
use terms::{Class, MOST_PARTY, MOST_TRADED, within};

// The bytes that a line may have.
pub const MOST_BYTES: usize = 200;

// More numbers than a line has room for, since a blank stands before each.
const MOST_FIELDS: usize = MOST_BYTES / 2;

// The day's draw: so many parties in their order, and the specialist, 0 for none as the rule is asked.
#[derive(Clone, Copy)]
pub struct Draw {
    pub parties: [u32; MOST_FIELDS],
    pub count: usize,
    pub specialist: u32,
}

// One who comes to stand in a class, with so many contracts.
#[derive(Clone, Copy)]
pub struct Entry {
    pub class: Class,
    pub holder: u32,
    pub size: u32,
}

#[derive(Clone, Copy)]
pub enum Command {
    // an empty line, or a note, which begins with #
    Nothing,
    Draw(Draw),
    Entry(Entry),
    Order(Order),
}

// The number in the next field.
fn read_number(fields: &mut Fields<'_>) -> Result<u32, Fault> {
    let part = fields.next().ok_or(Fault::TooFew)?;
    number(part.text).ok_or(Fault::Number)
}

// Nothing may follow.
fn read_end(fields: &mut Fields<'_>) -> Result<(), Fault> {
    match fields.next() {
        Some(_) => Err(Fault::TooMany),
        None => Ok(()),
    }
}

// customer, maker or firm, and then a holder and its size.
fn read_entry(class: Class, fields: &mut Fields<'_>) -> Result<Command, Fault> {
    let holder = read_number(fields)?;
    let size = read_number(fields)?;
    read_end(fields)?;
    Ok(Command::Entry(Entry {
        class,
        holder,
        size,
    }))
}

// draw, then parties, and at the end perhaps: specialist and a party.
fn read_draw(fields: &mut Fields<'_>) -> Result<Command, Fault> {
    let mut draw = Draw {
        parties: [0; MOST_FIELDS],
        count: 0,
        specialist: 0,
    };
    while let Some(part) = fields.next() {
        if part.text == b"specialist".as_slice() {
            draw.specialist = read_number(fields)?;
            read_end(fields)?;
            break;
        }
        let party = number(part.text).ok_or(Fault::Number)?;
        if draw.count >= MOST_FIELDS {
            return Err(Fault::TooMany);
        }
        draw.parties[draw.count] = party;
        draw.count += 1;
    }
    Ok(Command::Draw(draw))
}

// order, its size, and perhaps: to and a party.
fn read_order(fields: &mut Fields<'_>) -> Result<Command, Fault> {
    let size = read_number(fields)?;
    if !within(MOST_TRADED, size) {
        return Err(Fault::Order);
    }
    let Some(part) = fields.next() else {
        return Ok(Command::Order(Order {
            size,
            directed: None,
        }));
    };
    if part.text != b"to".as_slice() {
        return Err(Fault::TooMany);
    }
    let party = read_number(fields)?;
    read_end(fields)?;
    if !within(MOST_PARTY, party) {
        return Err(Fault::Directed);
    }
    Ok(Command::Order(Order {
        size,
        directed: Some(party),
    }))
}

// What a line says, or what is wrong with it.
pub fn read_command(line: &[u8]) -> Result<Command, Fault> {
    if line.len() > MOST_BYTES {
        return Err(Fault::TooLong);
    }
    if matches!(line, [] | [b'#', ..]) {
        return Ok(Command::Nothing);
    }
    let mut fields = Fields::of(line);
    let word = fields.next().ok_or(Fault::TooFew)?;
    match word.text {
        b"draw" => read_draw(&mut fields),
        b"customer" => read_entry(Class::Customers, &mut fields),
        b"maker" => read_entry(Class::Makers, &mut fields),
        b"firm" => read_entry(Class::Firms, &mut fields),
        b"order" => read_order(&mut fields),
        _ => Err(Fault::Word),
    }
}
