//! The answers of writes.

ghost use Rattle.std.specs.Prelude.{◌≡◌, IfErr, Some};
ghost use Rattle.ciborium_ll.specs.Encoding.{WritesBytes};
ghost use Rattle.cbor_json.specs.Reading.{IsWriting, said_of};

use crate::JsonError;

/// Turns the answer of a write into the answer of the whole call.
pub(crate) fn said<E, F>(answer: Result<(), F>) -> Result<(), JsonError<E, F>>
    ensures writing { IfErr result IsWriting }
    ensures same { result ≡ said_of answer }
{
    answer.map_err(|fault| JsonError::Write(fault))
}
