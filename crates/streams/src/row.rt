// An input, read into a lent row.
ghost use Rattle.std.specs.Prelude.{◌≤◌, length};

use std::io::Read;

// Reads until the row is full, the input ends or a read fails; so many bytes stand at the row's front.
pub fn read_full<I: Read>(from: &mut I, row: &mut [u8]) -> usize
    ensures { result ≤ length row.new }
{
    let mut done = 0;
    // Each turn but the last reads a byte at least.
    for _ in 0..row.len() {
        if done == row.len() {
            return done;
        }
        let Ok(got) = from.read(&mut row[done..]) else {
            return done;
        };
        if got == 0 {
            return done;
        }
        done += got;
    }
    done
}

#[cfg(test)]
mod tests {
    use super::*;
    use std::io;
    use std::io::ErrorKind;
    use std::test::Fail;

    // Gives a byte at a time, so many, and then fails or is at its end.
    #[derive(Drop)]
    struct Slow {
        bytes: usize,
        fails: bool,
    }

    impl Read for Slow {
        fn read(&mut self, buf: &mut [u8]) -> io::Result<usize> {
            if buf.is_empty() {
                return Ok(0);
            }
            if self.bytes > 0 {
                self.bytes -= 1;
                buf[0] = b'x';
                return Ok(1);
            }
            if self.fails {
                return Err(io::Error::from(ErrorKind::Other));
            }
            Ok(0)
        }
    }

    fn count(bytes: usize, fails: bool) -> usize {
        let mut row = [0u8; 4];
        read_full(&mut Slow { bytes, fails }, &mut row)
    }

    #[test]
    fn reads_to_the_end_of_the_row_or_of_the_input(rt: HostRuntime) -> Result<(), Fail> {
        assert_eq!(rt; count(9, false), 4);
        assert_eq!(rt; count(4, true), 4);
        assert_eq!(rt; count(3, false), 3);
        assert_eq!(rt; count(2, true), 2);
        assert_eq!(rt; count(0, false), 0);
        Ok(())
    }
}
