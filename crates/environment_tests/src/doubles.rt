//! A reader and a writer that fail as those of a system may.

ghost use Rattle.std.specs.Prelude.{◌≡◌, IfErr, IsErr, Ok};
ghost use Rattle.std.specs.IoError.{error_kind};

use std::io::{self, ErrorKind, Read, Write};

/// A reader that is broken.
#[derive(Drop)]
pub(crate) struct Broken;

impl Read for Broken {
    fn read(&mut self, buf: &mut [u8]) -> io::Result<usize>
        ensures fails { IsErr result }
        ensures kind { IfErr result (λ error. error_kind error ≡ ErrorKind.BrokenPipe) }
        ensures kept { buf.new ≡ buf.old }
    {
        Err(io::Error::from(ErrorKind::BrokenPipe))
    }
}

/// A writer that has no room left.
#[derive(Drop)]
pub(crate) struct Full;

impl Write for Full {
    fn write(&mut self, _buf: &[u8]) -> io::Result<usize>
        ensures { result ≡ Ok 0 }
    {
        Ok(0)
    }

    fn flush(&mut self) -> io::Result<()>
        ensures { result ≡ Ok tt }
    {
        Ok(())
    }
}
