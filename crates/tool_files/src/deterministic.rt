//! The word `check` with `--deterministic`.

ghost use Rattle.tool_files.specs.Deterministic.{ChecksDeterministic};
ghost use Rattle.tool_files.specs.Orders.{chosen_order};

use crate::options::Options;
use std::alloc::Global;
use std::io;
use tool_verdicts::deterministic::check_bytes;
use tool_verdicts::verdict::Verdict;

/// Reads a reader's bytes to their end, and returns the verdict of `check_bytes` on them with these options. `--strict`
/// changes nothing, since the deterministic encoding has the shortest spelling.
///
/// The bytes are held in memory. If a read failed, or there is no memory for the bytes, the verdict says so. A read that
/// was interrupted is made again.
pub fn check_deterministic<R: io::Read + Drop>(
    alloc: Global,
    mut reader: R,
    options: Options,
) -> Verdict
    ensures { ChecksDeterministic options.one (chosen_order options.order) options.depth (R.remaining reader) result }
{
    let mut bytes = Vec::new(alloc);
    match reader.read_to_end(&mut bytes) {
        Ok(_) => check_bytes(
            bytes.as_slice(),
            options.one,
            options.depth,
            options.key_order(),
        ),
        Err(error) => Verdict::Failed(error),
    }
}
