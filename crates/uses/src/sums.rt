//! The sum of an array of integers.

ghost use Rattle.std.specs.Prelude.{◌≡◌, ◌+ℤ◌, FitsSigned, negsuc, None, Some};
ghost use Rattle.std.specs.Int.{w64};
ghost use Rattle.std.specs.Option.{SomeIff};
ghost use Rattle.ciborium_ll.specs.Decoding.{MovesOn};
ghost use Rattle.uses.specs.Sums.{AddsNext, SumsArray, SumsBehind};

use ciborium_ll::io::Read;
use ciborium_ll::{Decoder, Error, Header};

/// Why there is no sum.
#[derive(Debug, Drop)]
pub enum SumError<E> {
    /// The decoder failed with this error.
    Read(Error<E>),
    /// The title at this offset begins no array.
    NoArray(usize),
    /// The title at this offset is no integer.
    NoNumber(usize),
    /// With the integer at this offset, the sum is out of the range of `i64`.
    OutOfRange(usize),
}

impl<E> From<Error<E>> for SumError<E> {
    ghost use Rattle.uses.specs.declared.sums.SumError.TheVariants.{Read as FailedRead};

    ghost from_gives = { λ fault error. error ≡ FailedRead fault };

    fn from(fault: Error<E>) -> SumError<E> {
        SumError::Read(fault)
    }
}

/// Returns the sum of an array of integers (RFC 7049, 2.1), of a definite length or not (2.2.1).
///
/// `Ok` consumes exactly the array. The sum of `82 01 20` is 0.
///
/// # Errors
///
/// The bytes read before an error are consumed.
///
/// - `Read`: the decoder failed.
/// - `NoArray(offset)`: the title at this offset begins no array.
/// - `NoNumber(offset)`: the title at this offset is no integer.
/// - `OutOfRange(offset)`: with the integer at this offset, the sum leaves the range of `i64`.
#[tactic(auto, using(crate::proofs::Steps::array_sums))]
pub fn sum_numbers<R: Read>(decoder: &mut Decoder<R>) -> Result<i64, SumError<R::Error>>
    ensures { SumsArray R.Read decoder.old result decoder.new }
{
    let place = decoder.offset();
    match decoder.pull()? {
        Header::Array(Some(count)) => sum_counted(decoder, count),
        Header::Array(None) => sum_open(decoder),
        _ => Err(SumError::NoArray(place)),
    }
}

/// Returns the sum of `count` integers.
fn sum_counted<R: Read>(decoder: &mut Decoder<R>, count: usize) -> Result<i64, SumError<R::Error>>
    ensures sums { SumsBehind R.Read (Header.Array (Some count)) decoder.old result decoder.new }
    ensures moves_on { MovesOn R.Read decoder.old decoder.new }
{
    let mut total = 0;
    'numbers: for _read in 0..count {
        let place = decoder.offset();
        match next_sum(decoder, total)? {
            Some(sum) => total = sum,
            None => return Err(SumError::NoNumber(place)),
        }
    }
    Ok(total)
}

/// Returns the sum of integers up to a break.
fn sum_open<R: Read>(decoder: &mut Decoder<R>) -> Result<i64, SumError<R::Error>>
    ensures sums { SumsBehind R.Read (Header.Array None) decoder.old result decoder.new }
    ensures moves_on { MovesOn R.Read decoder.old decoder.new }
{
    let mut total = 0;
    // The loop ends: each title takes a byte, and no offset is greater than `usize::MAX`.
    'numbers: loop {
        match next_sum(decoder, total)? {
            Some(sum) => total = sum,
            None => return Ok(total),
        }
    }
}

/// Returns the sum with the next integer, or `None` for a break.
fn next_sum<R: Read>(
    decoder: &mut Decoder<R>,
    total: i64,
) -> Result<Option<i64>, SumError<R::Error>>
    ensures adds { AddsNext R.Read total decoder.old result decoder.new }
    ensures moves_on { MovesOn R.Read decoder.old decoder.new }
{
    let place = decoder.offset();
    let sum = match decoder.pull()? {
        Header::Positive(number) => total.checked_add_unsigned(number),
        Header::Negative(number) => less(total, number),
        Header::Break => return Ok(None),
        _ => return Err(SumError::NoNumber(place)),
    };
    match sum {
        Some(sum) => Ok(Some(sum)),
        None => Err(SumError::OutOfRange(place)),
    }
}

/// Returns the sum with the integer -1 - `number`, if it is in range.
fn less(total: i64, number: u64) -> Option<i64>
    ensures { SomeIff result (FitsSigned w64 (total +ℤ negsuc number)) (total +ℤ negsuc number) }
{
    total.checked_sub_unsigned(number)?.checked_sub(1)
}
