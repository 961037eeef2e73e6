// A writer that keeps the first error of the one that it writes to, so that whoever writes much asks once, and not at each write.
ghost use Rattle.std.specs.Prelude.{◌↔◌, IsTrue, IsNone, IsSome, IsOk};

use std::io;
use std::io::Write;

// After an error what is written is lost.
#[derive(Drop)]
pub struct Outlet<W> {
    pub to: W,
    pub error: Option<io::Error>,
}

impl<W: Write> Outlet<W> {
    pub fn new(to: W) -> Outlet<W>
        ensures { IsNone result.error }
    {
        Outlet { to, error: None }
    }

    pub fn is_lost(&self) -> bool
        ensures { IsTrue result ↔ IsSome self.now.error }
    {
        self.error.is_some()
    }
}

impl<W: Write + Drop> Outlet<W> {
    // Whether everything was written.
    pub fn finish(self) -> io::Result<()>
        ensures { IsOk result ↔ IsNone self.error }
    {
        match self.error {
            None => Ok(()),
            Some(error) => Err(error),
        }
    }
}

impl<W: Write> Write for Outlet<W> {
    fn write(&mut self, buf: &[u8]) -> io::Result<usize> {
        self.write_all(buf)?;
        Ok(buf.len())
    }

    fn flush(&mut self) -> io::Result<()> {
        if self.error.is_none() {
            if let Err(error) = self.to.flush() {
                self.error = Some(error);
            }
        }
        Ok(())
    }

    fn write_all(&mut self, buf: &[u8]) -> io::Result<()> {
        if self.error.is_none() {
            if let Err(error) = self.to.write_all(buf) {
                self.error = Some(error);
            }
        }
        Ok(())
    }
}

#[cfg(test)]
mod tests {
    use super::*;
    use std::io::ErrorKind;
    use std::test::Fail;

    // Takes so many writes, and then none.
    #[derive(Drop)]
    struct Failing {
        writes: usize,
    }

    impl Write for Failing {
        fn write(&mut self, buf: &[u8]) -> io::Result<usize> {
            if self.writes == 0 {
                return Err(io::Error::from(ErrorKind::StorageFull));
            }
            self.writes -= 1;
            Ok(buf.len())
        }

        fn flush(&mut self) -> io::Result<()> {
            Ok(())
        }
    }

    #[test]
    fn an_error_is_kept(rt: HostRuntime) -> Result<(), Fail> {
        let mut outlet = Outlet::new(Failing { writes: 1 });
        outlet.write_all(b"one")?;
        assert!(rt; !outlet.is_lost());
        outlet.write_all(b"two")?;
        assert!(rt; outlet.is_lost());
        outlet.write_all(b"three")?;
        assert!(rt; outlet.is_lost());
        assert!(rt; outlet.finish().is_err());
        Ok(())
    }

    #[test]
    fn without_an_error_all_is_well(rt: HostRuntime) -> Result<(), Fail> {
        let mut outlet = Outlet::new(Failing { writes: 2 });
        outlet.write_all(b"one")?;
        outlet.write_all(b"two")?;
        assert!(rt; outlet.finish().is_ok());
        Ok(())
    }
}
