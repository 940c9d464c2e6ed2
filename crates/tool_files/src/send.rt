//! Bytes that are written whole.

ghost use Rattle.std.specs.Prelude.{OnErr, OnOk};
ghost use Rattle.std.specs.Io.KnownBytes.{Appends};
ghost use Rattle.tool_files.specs.Given.{AppendsSome};

use std::io;

/// Writes bytes by as many calls as needed, and flushes them. It makes a call again that was interrupted.
///
/// # Errors
///
/// The error of a write or of the flush, or `WriteZero` if a write took no byte. The writer then got a beginning of the
/// bytes, or all of them.
pub(crate) fn send_all<W: io::Write>(writer: &mut W, bytes: &[u8]) -> io::Result<()>
    ensures all { OnOk result (Appends (W.contents writer.old) (W.contents writer.new) bytes.now) }
    ensures some { OnErr result (AppendsSome (W.contents writer.old) (W.contents writer.new) bytes.now) }
{
    let mut sent = 0;
    'calls: for _ in 0..u64::MAX {
        if sent == bytes.len() {
            return writer.flush();
        }
        match writer.write(&bytes[sent..]) {
            Ok(0) => return Err(io::Error::from(io::ErrorKind::WriteZero)),
            Ok(count) => sent += count,
            Err(error) => {
                if error.kind() != io::ErrorKind::Interrupted {
                    return Err(error);
                }
            }
        }
    }
    Err(io::Error::from(io::ErrorKind::TimedOut))
}
