//! An output that is flushed before the program waits for more of the input.

use std::cell::RefCell;
use std::io;

/// Writes to a writer in a cell.
#[derive(Drop)]
pub(crate) struct Shared<'o, W> {
    output: &'o RefCell<W>,
}

impl<'o, W: io::Write> Shared<'o, W> {
    /// Makes a writer to the writer in the cell.
    pub(crate) fn new(output: &'o RefCell<W>) -> Shared<'o, W> {
        Shared { output }
    }
}

impl<W: io::Write> io::Write for Shared<'_, W> {
    fn write(&mut self, buf: &[u8]) -> io::Result<usize> {
        match self.output.try_borrow_mut() {
            Ok(mut output) => output.write(buf),
            Err(_) => Err(io::Error::from(io::ErrorKind::Other)),
        }
    }

    fn flush(&mut self) -> io::Result<()> {
        match self.output.try_borrow_mut() {
            Ok(mut output) => output.flush(),
            Err(_) => Err(io::Error::from(io::ErrorKind::Other)),
        }
    }
}

/// A reader that flushes the writer in a cell before each read, since a read may have to wait.
#[derive(Drop)]
pub(crate) struct Prompt<'o, R, W> {
    source: R,
    output: &'o RefCell<W>,
}

impl<'o, R: io::Read, W: io::Write> Prompt<'o, R, W> {
    /// Makes a reader of what is left in `source`.
    pub(crate) fn new(source: R, output: &'o RefCell<W>) -> Prompt<'o, R, W> {
        Prompt { source, output }
    }
}

impl<R: io::Read, W: io::Write> io::Read for Prompt<'_, R, W> {
    ghost remaining = { λ r. R.remaining r.source };

    fn read(&mut self, buf: &mut [u8]) -> io::Result<usize> {
        if let Ok(mut output) = self.output.try_borrow_mut() {
            // A writer that fails here says so again at the next write, or at the end.
            let _ = output.flush();
        }
        self.source.read(buf)
    }
}
