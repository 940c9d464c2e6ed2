//! An input as the options read it.

ghost use Rattle.std.specs.Prelude.{◌≡◌};

use crate::digits::Digits;
use crate::options::Options;
use std::io;
use tool_verdicts::verdict::Verdict;

/// A reader of bytes, or of digits that spell them.
#[derive(Drop)]
pub enum Input<R> {
    /// The source has the bytes.
    Bytes(R),
    /// The source has their digits.
    Digits(Digits<R>),
}

impl<R: io::Read> Input<R> {
    ghost use Rattle.tool_files.specs.Inputs.{IsInputOf, input_fault, text_said};

    /// Makes a reader of the bytes of the input. With `--hex` these are the bytes that its digits spell.
    pub fn new(source: R, options: Options) -> Input<R>
        ensures { IsInputOf options.hex source result }
    {
        if options.hex {
            Input::Digits(Digits::new(source))
        } else {
            Input::Bytes(source)
        }
    }

    /// Returns the fault of the input's text, if it has one, and otherwise the verdict. The input was read to its end.
    pub fn judge(&self, verdict: Verdict) -> Verdict
        ensures { result ≡ text_said (input_fault self.now) verdict }
    {
        match self {
            Input::Bytes(_) => verdict,
            Input::Digits(digits) => match digits.fault() {
                Some(fault) => Verdict::Text(fault),
                None => verdict,
            },
        }
    }
}

impl<R: io::Read> io::Read for Input<R> {
    ghost use Rattle.tool_files.specs.Inputs.{input_remaining};

    ghost remaining = { input_remaining R.remaining };

    fn read(&mut self, buf: &mut [u8]) -> io::Result<usize> {
        match self {
            Input::Bytes(source) => source.read(buf),
            Input::Digits(digits) => digits.read(buf),
        }
    }
}
