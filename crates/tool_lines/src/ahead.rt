//! A reader that reads at most a fixed number of bytes ahead.

ghost use Rattle.std.specs.Prelude.{◌≡◌, ◌≤◌, length};
ghost use Rattle.std.proofs.Common.{rules};
ghost use Rattle.ciborium_ll_buffers.specs.Buffers.{buffered_ahead, buffered_read_capacity, buffered_read_failures};
ghost use Rattle.ciborium_ll_buffers.specs.Buffers.{buffered_steady};
ghost use Rattle.tool_lines.specs.declared.raw.TheConstants.{ROOM};

use crate::raw::ROOM;
use ciborium_ll_buffers::{BufferedReader, FaultKept};
use ciborium_ll_io::io::Read;
use ciborium_ll_streams::ReadFault;
use std::io;

/// A buffered reader whose slice has at most `ROOM` bytes. The type keeps this bound, also after a call that says
/// nothing of the slice.
#[derive(Drop)]
pub(crate) struct ReadAhead<'a, T> {
    pub(crate) reader: BufferedReader<'a, T>,
    ghost bound: { buffered_read_capacity reader ≤ ROOM },
}

impl<'a, T: io::Read> ReadAhead<'a, T> {
    /// Makes a reader of all that the source still has. It reads nothing yet.
    pub(crate) fn new(source: T, buffer: &'a mut [u8]) -> ReadAhead<'a, T>
        requires { length buffer.old ≤ ROOM }
        ensures ahead { buffered_ahead T.remaining result.reader ≡ T.remaining source }
    {
        ReadAhead {
            reader: BufferedReader::new(source, buffer),
        }
    }
}

impl<'a, T: io::Read> Read for ReadAhead<'a, T> {
    type Error = FaultKept;

    ghost ahead = { λ r. buffered_ahead T.remaining r.reader };

    ghost steady = { λ r. buffered_steady r.reader };

    ghost failures = { λ r. buffered_read_failures r.reader };

    ghost steady_is_told = { λ _ h. Prim.search rules };

    #[inline(always)]
    fn read_exact(&mut self, data: &mut [u8]) -> Result<(), FaultKept> {
        self.reader.read_exact(data)
    }
}
