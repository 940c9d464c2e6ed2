//! The word `check`.

ghost use Rattle.std.specs.Prelude.{IfSome};
ghost use Rattle.tool_files.specs.Inputs.{ChecksInput, CountsItems};

use crate::arguments::Options;
use cbor_ahead::AHEAD;
use ciborium_ll::Decoder;
use ciborium_ll::io::{BufferedReader, Read};
use std::io;
use tool_verdicts::ahead::judge_ahead;
use tool_verdicts::check::prefer_failure;
use tool_verdicts::verdict::Verdict;

/// How many bytes are read ahead at most.
pub const ROOM: usize = 8192;

/// Checks a reader's bytes from their start on, as `judge_ahead` does with these options, and returns the verdict.
///
/// Without `--items` it reads them to their end, and otherwise to the end of the last item that is wanted.
///
/// If a read failed for another reason than the end, the verdict says so.
///
/// If the reader tells its bytes, the numbers of the verdict are those of items that these bytes begin with. No clause
/// says that a reader of std reaches the end of its bytes, since it can fail at any time. Tests try that.
pub fn check_input<R: io::Read + Drop>(reader: R, options: Options) -> Verdict
    ensures counts { IfSome (R.remaining reader) (λ bytes. CountsItems options.skip options.items options.one
        options.spelling options.depth bytes result) }
    ensures checks { ChecksInput ⟦<BufferedReader<'static, R> as Read>⟧ options.spelling options.skip
        options.items options.one options.depth reader result }
{
    let mut ahead = [0; AHEAD];
    // A fault of digits that are read ahead is said first, so only a few are.
    let room = if options.hex { ROOM } else { AHEAD };
    let reader = BufferedReader::new(reader, &mut ahead[..room]);
    let decoder = Decoder::with_spelling(reader, options.spelling, 0);
    let (decoder, verdict) = judge_ahead(
        decoder,
        options.skip,
        options.items,
        options.one,
        options.depth,
    );
    let (_, _, fault) = decoder.into_inner().into_parts();
    prefer_failure(fault, verdict)
}
