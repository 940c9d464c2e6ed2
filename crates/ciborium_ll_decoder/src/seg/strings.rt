//! The strings of a decoder: the decoder lends itself to the segments of a string.

ghost use Rattle.std.specs.Prelude.{◌≡◌, ◌≤◌, None};
ghost use Rattle.ciborium_ll_grammar.specs.Title.{title_len};
ghost use Rattle.ciborium_ll_grammar.specs.Strings.{kind_header};
ghost use Rattle.ciborium_ll_decoder.specs.declared.seg.Progress.TheVariants.{Open};
ghost use Rattle.ciborium_ll_decoder.specs.Decoding.{offset_of, spelling_of, waiting_of};
ghost use Rattle.ciborium_ll_decoder.specs.Segments.{BeginsString, progress_of, string_decoder};
ghost use Rattle.ciborium_ll_decoder.specs.Segments.{string_reference, string_spelling};

use crate::dec::Decoder;
use crate::seg::{Bytes, Parser, Progress, Segments, Text};
use ciborium_ll_grammar::hdr::Header;
use ciborium_ll_io::io::Read;
use std::marker::PhantomData;

impl<R: Read> Decoder<R> {
    /// Returns the segments of a byte string, after its header with this length, which was pulled last.
    ///
    /// The header waits again, as after [`Decoder::push`]. A length other than the header's is not refused: the string
    /// is read with it.
    pub fn bytes(&mut self, len: Option<usize>) -> Segments<'_, R, Bytes>
        requires none_waits { waiting_of self.old ≡ None }
        requires covered { title_len (Header.Bytes len) ≤ offset_of self.old }
        ensures { BeginsString R.Read self.old (Header.Bytes len) self.entry.ghost_name result }
    {
        self.string(len)
    }

    /// Returns the segments of a text string, after its header, as [`Decoder::bytes`] does.
    pub fn text(&mut self, len: Option<usize>) -> Segments<'_, R, Text>
        requires none_waits { waiting_of self.old ≡ None }
        requires covered { title_len (Header.Text len) ≤ offset_of self.old }
        ensures { BeginsString R.Read self.old (Header.Text len) self.entry.ghost_name result }
    {
        self.string(len)
    }

    /// Returns the segments of a string of either kind, after its header.
    pub(crate) fn string<P: Parser>(&mut self, len: Option<usize>) -> Segments<'_, R, P>
        requires none_waits { waiting_of self.old ≡ None }
        requires covered { title_len (kind_header P.kind len) ≤ offset_of self.old }
        ensures { BeginsString R.Read self.old (kind_header P.kind len) self.entry.ghost_name result }
    {
        self.push(P::header(len));
        Segments::new(self)
    }
}

/// Returns the segments of a string whose open was pulled last and doesn't wait again. Users call [`Decoder::bytes`] or
/// [`Decoder::text`].
pub fn open_segments<R: Read, P: Parser>(decoder: &mut Decoder<R>) -> Segments<'_, R, P>
    ensures lent { string_decoder result ≡ decoder.old }
    ensures opened { progress_of result ≡ Open 1 }
    ensures mode { string_spelling result ≡ spelling_of decoder.old }
    ensures same_reference { string_reference result ≡ decoder.entry.ghost_name }
{
    let spelling = decoder.spelling();
    Segments {
        decoder,
        progress: Progress::Open(1),
        spelling,
        parser: PhantomData,
    }
}
