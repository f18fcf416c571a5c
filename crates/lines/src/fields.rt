// The fields of a line, which one blank parts from the next.
ghost use Rattle.std.specs.Prelude.{◌≡◌, ◌≤◌, length, Some, unwrap_or};

use crate::scan::first;

// One field: its bytes, and where in the line it begins, from 0.
#[derive(Clone, Copy, PartialEq, Eq, Debug)]
pub struct Part<'a> {
    pub text: &'a [u8],
    pub column: usize,
}

// A reader that stands over a line and hands out its fields from left to right.
#[derive(Drop)]
pub struct Fields<'a> {
    line: &'a [u8],
    // the column where the next field begins, none behind the last
    start: Option<usize>,
    ghost inside: { unwrap_or start 0 ≤ length line.now },
}

impl<'a> Fields<'a> {
    // The fields of a line, none handed out yet.
    pub fn of(line: &'a [u8]) -> Fields<'a>
        ensures line { result.line.now ≡ line.now }
        ensures start { result.start ≡ Some 0 }
    {
        Fields {
            line,
            start: Some(0),
        }
    }
}

impl<'a> Iterator for Fields<'a> {
    ghost use Rattle.std.specs.Iterator.{at_most};
    ghost use Rattle.lines.specs.Fields.{GivesField, most_left};

    type Item = Part<'a>;

    ghost next_gives = { GivesField };

    ghost remaining = { λ fields. at_most (most_left fields) };

    // The next field; none behind the last.
    fn next(&mut self) -> Option<Part<'a>> {
        let column = self.start?;
        let rest = &self.line[column..];
        let Some(len) = first(b' ', rest) else {
            self.start = None;
            return Some(Part { text: rest, column });
        };
        self.start = Some(column + len + 1);
        Some(Part {
            text: &rest[..len],
            column,
        })
    }
}

#[cfg(test)]
mod tests {
    use super::*;

    fn part(text: &[u8], column: usize) -> Part<'_> {
        Part { text, column }
    }

    // An empty field stands between two blanks, and behind a blank at the line's end.
    #[test]
    fn hands_out_each_field(rt: HostRuntime) {
        let line = b"to  12 ".as_slice();
        let wanted = [part(b"to", 0), part(b"", 3), part(b"12", 4), part(b"", 7)];
        assert_eq!(rt; Fields::of(line).count(), wanted.len());
        for (found, wanted) in Fields::of(line).zip(wanted) {
            assert_eq!(rt; found, wanted);
        }
    }

    #[test]
    fn hands_out_the_empty_field_of_an_empty_line(rt: HostRuntime) {
        let mut fields = Fields::of(b"");
        assert_eq!(rt; fields.next(), Some(part(b"", 0)));
        assert_eq!(rt; fields.next(), None);
        assert_eq!(rt; fields.next(), None);
    }
}
