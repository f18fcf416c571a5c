// Lines taken one by one from an input that may hold any bytes.
ghost use Rattle.std.specs.Prelude.{◌≡◌, ◌≤◌, ◌++◌, length, nat_lt, take, vec_len, is_ok, if◌then◌else◌, OnOk, IfOk, IfSome};
ghost use Rattle.std.specs.Io.BufRead.{DropsThrough, first_piece};
ghost use Rattle.lines.specs.Reading.{Took};

use crate::scan::first;
use std::alloc::AllocError;
use std::io;
use std::io::BufRead;

// Adds bytes to a line, of which it keeps so many at the most.
fn keep(bytes: &[u8], most: usize, line: &mut Vec<u8>) -> Result<(), AllocError>
    requires { vec_len line.old ≤ most }
    ensures within { vec_len line.new ≤ most }
    ensures kept { line.new.items ≡ (if is_ok result then take most (line.old.items ++ bytes.now) else line.old.items) }
{
    let room = most - line.len();
    let n = room.min(bytes.len());
    line.extend_from_slice(&bytes[..n])
}

// Takes what the input shows of a line, its end too where that is shown, and adds it to `line`. Says how many bytes that were, and whether
// the line is done: its end came, or the input has ended. It looks once: `read_until` would try an interrupted read again, of its own accord.
fn take_part<R: BufRead>(
    input: &mut R,
    most: usize,
    line: &mut Vec<u8>,
) -> io::Result<(usize, bool)>
    requires { vec_len line.old ≤ most }
    ensures within { vec_len line.new ≤ most }
    ensures took { IfOk result (λ r. Took (R.remaining input.old) (R.remaining input.new) most line.old.items line.new.items r.0 r.1) }
{
    let shown = input.fill_buf()?;
    if let Some(end) = first(b'\n', shown) {
        keep(&shown[..end], most, line)?;
        input.consume(end + 1);
        return Ok((end + 1, true));
    }
    let len = shown.len();
    keep(shown, most, line)?;
    input.consume(len);
    Ok((len, len == 0))
}

// Takes the next line into `line`, without its end; the last line may lack it. False where the input has ended. Of a line it keeps
// so many bytes at the most and passes over the others, so that a line without end takes no memory. A read that fails ends it, one that
// was interrupted too.
pub fn next_line<R: BufRead>(input: &mut R, most: usize, line: &mut Vec<u8>) -> io::Result<bool>
    ensures within { vec_len line.new ≤ most }
    ensures line { OnOk result (IfSome (R.remaining input.old) (λ xs. line.new.items ≡ take most (first_piece 10 xs))) }
    ensures some { IfOk result (λ more. IfSome (R.remaining input.old) (λ xs. more ≡ nat_lt 0 (length xs))) }
    ensures rest { OnOk result (DropsThrough (R.remaining input.old) (R.remaining input.new) 10) }
{
    line.clear();
    let mut some = false;
    for _ in 0..u64::MAX {
        let (taken, done) = take_part(input, most, line)?;
        some |= taken > 0;
        if done {
            return Ok(some);
        }
    }
    // so many looks never come to an end
    Err(io::Error::from(io::ErrorKind::TimedOut))
}

#[cfg(test)]
mod tests {
    use super::*;
    use std::io::Read;
    use std::test::Fail;

    // Lines of one byte less than is kept, of as many, of more and of none, and a last one without its end.
    #[test]
    fn keeps_so_many_bytes_of_a_line(rt: HostRuntime) -> Result<(), Fail> {
        let mut input = b"abc\nabcd\nabcde\nabcdefghijkl\n\nab".as_slice();
        let mut line = Vec::new(rt.alloc());
        let lines = [
            b"abc".as_slice(),
            b"abcd".as_slice(),
            b"abcd".as_slice(),
            b"abcd".as_slice(),
            b"".as_slice(),
            b"ab".as_slice(),
        ];
        for wanted in lines {
            assert!(rt; next_line(&mut input, 4, &mut line)?);
            assert_eq!(rt; line.as_slice(), wanted);
        }
        assert!(rt; !next_line(&mut input, 4, &mut line)?);
        assert!(rt; line.is_empty());
        Ok(())
    }

    // A long last line without its end is one line.
    #[test]
    fn ends_behind_a_long_line(rt: HostRuntime) -> Result<(), Fail> {
        let mut input = b"abcdef".as_slice();
        let mut line = Vec::new(rt.alloc());
        assert!(rt; next_line(&mut input, 4, &mut line)?);
        assert_eq!(rt; line.as_slice(), b"abcd".as_slice());
        assert!(rt; !next_line(&mut input, 4, &mut line)?);
        Ok(())
    }

    // Where no byte is kept, the lines are still told apart.
    #[test]
    fn passes_over_lines(rt: HostRuntime) -> Result<(), Fail> {
        let mut input = b"ab\n\ncd".as_slice();
        let mut line = Vec::new(rt.alloc());
        for _ in 0..3 {
            assert!(rt; next_line(&mut input, 0, &mut line)?);
            assert!(rt; line.is_empty());
        }
        assert!(rt; !next_line(&mut input, 0, &mut line)?);
        Ok(())
    }

    // An input of which every look is interrupted.
    #[derive(Drop)]
    struct Interrupted;

    impl Read for Interrupted {
        fn read(&mut self, _buf: &mut [u8]) -> io::Result<usize> {
            Err(io::Error::from(io::ErrorKind::Interrupted))
        }
    }

    impl BufRead for Interrupted {
        fn fill_buf(&mut self) -> io::Result<&[u8]> {
            Err(io::Error::from(io::ErrorKind::Interrupted))
        }

        fn consume(&mut self, _amount: usize) {}
    }

    #[test]
    fn does_not_try_an_interrupted_read_again(rt: HostRuntime) {
        let mut line = Vec::new(rt.alloc());
        let found = next_line(&mut Interrupted, 4, &mut line);
        assert!(rt; found.is_err_and(|error| error.kind() == io::ErrorKind::Interrupted));
    }
}
