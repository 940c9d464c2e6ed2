//! Settings, as a map whose keys are numbers: read and written.

ghost use Rattle.std.specs.Prelude.{◌≡◌, IfOk};
ghost use Rattle.ciborium_ll.specs.Decoding.{MovesOn, PullsTitle};
ghost use Rattle.ciborium_ll.specs.Encoding.{WritesBytes, writer_of};
ghost use Rattle.uses.specs.Settings.{ReadsKnown, ReadsSettings, settings_bytes};

use crate::texts::{TextError, read_string};
use cbor_skip::{SkipError, skip_item};
use ciborium_ll::io::{Read, Write};
use ciborium_ll::{Decoder, Encoder, Error, Header};
use std::alloc::Global;

/// The key of the host.
const HOST: u64 = 1;

/// The key of the port.
const PORT: u64 = 2;

/// The greatest number of bytes of a host.
pub const LONGEST_HOST: usize = 255;

/// The greatest depth of nesting in the value of another key.
pub const SETTINGS_DEPTH: usize = 16;

/// The settings that a map has.
#[derive(Debug, Drop)]
pub struct Settings {
    /// The text of key 1, if the map has this key.
    pub host: Option<String>,
    /// The number of key 2, if the map has this key.
    pub port: Option<u64>,
}

/// Why no settings were read.
#[derive(Debug, Drop)]
pub enum SettingsError<E> {
    /// The decoder failed with this error.
    Read(Error<E>),
    /// The read of the host failed with this error.
    Text(TextError<E>),
    /// The read of the value of another key failed with this error.
    Skip(SkipError<E>),
    /// The title at this offset may not stand there.
    Unexpected(usize),
}

impl<E> From<Error<E>> for SettingsError<E> {
    ghost use Rattle.uses.specs.declared.settings.SettingsError.TheVariants.{Read as FailedRead};

    ghost from_gives = { λ fault error. error ≡ FailedRead fault };

    fn from(fault: Error<E>) -> SettingsError<E> {
        SettingsError::Read(fault)
    }
}

impl<E> From<TextError<E>> for SettingsError<E> {
    ghost use Rattle.uses.specs.declared.settings.SettingsError.TheVariants.{Text as FailedText};

    ghost from_gives = { λ fault error. error ≡ FailedText fault };

    fn from(fault: TextError<E>) -> SettingsError<E> {
        SettingsError::Text(fault)
    }
}

impl<E> From<SkipError<E>> for SettingsError<E> {
    ghost use Rattle.uses.specs.declared.settings.SettingsError.TheVariants.{Skip as FailedSkip};

    ghost from_gives = { λ fault error. error ≡ FailedSkip fault };

    fn from(fault: SkipError<E>) -> SettingsError<E> {
        SettingsError::Skip(fault)
    }
}

/// Reads a number.
fn read_number<R: Read>(decoder: &mut Decoder<R>) -> Result<u64, SettingsError<R::Error>>
    ensures number { IfOk result (λ number. PullsTitle R.Read decoder.old (Header.Positive number) decoder.new) }
    ensures moves_on { MovesOn R.Read decoder.old decoder.new }
{
    let place = decoder.offset();
    match decoder.pull()? {
        Header::Positive(number) => Ok(number),
        _ => Err(SettingsError::Unexpected(place)),
    }
}

/// Reads a key, and the value of a known key. Returns whether the key is known.
fn read_known<R: Read>(
    alloc: Global,
    decoder: &mut Decoder<R>,
    settings: &mut Settings,
) -> Result<bool, SettingsError<R::Error>>
    ensures known { IfOk result (λ is_known.
        ReadsKnown R.Read decoder.old settings.old is_known decoder.new settings.new) }
    ensures moves_on { MovesOn R.Read decoder.old decoder.new }
{
    match read_number(decoder)? {
        HOST => {
            settings.host = Some(read_string(alloc, decoder, LONGEST_HOST)?);
            Ok(true)
        }
        PORT => {
            settings.port = Some(read_number(decoder)?);
            Ok(true)
        }
        _ => Ok(false),
    }
}

/// Reads a map of settings (RFC 7049, 2.1), of a definite length, whose keys are numbers.
///
/// `Ok` consumes exactly one map. If a key comes twice, its last value counts. The call skips the value of every other
/// key, which may be nested 16 levels deep.
///
/// # Errors
///
/// The bytes read before an error are consumed.
///
/// - `Read`: the decoder failed at a title.
/// - `Text`: the read of the host failed.
/// - `Skip`: the read of another key's value failed.
/// - `Unexpected(offset)`: the title at this offset begins no map of a definite length, no key or no port.
pub fn read_settings<R: Read>(
    alloc: Global,
    decoder: &mut Decoder<R>,
) -> Result<Settings, SettingsError<R::Error>>
    ensures read { IfOk result (λ settings. ReadsSettings R.Read decoder.old settings decoder.new) }
    ensures moves_on { MovesOn R.Read decoder.old decoder.new }
{
    let place = decoder.offset();
    let Header::Map(Some(count)) = decoder.pull()? else {
        return Err(SettingsError::Unexpected(place));
    };
    let mut settings = Settings {
        host: None,
        port: None,
    };
    'entries: for _read in 0..count {
        if !read_known(alloc, decoder, &mut settings)? {
            skip_item(decoder, SETTINGS_DEPTH, &mut [0; 64])?;
        }
    }
    Ok(settings)
}

/// Writes a map with this host and this port (RFC 7049, 2.1), each title the shortest.
///
/// # Errors
///
/// - `W::Error`: the writer failed, with a beginning of the map written.
pub fn write_settings<W: Write>(
    encoder: &mut Encoder<W>,
    host: &str,
    port: u64,
) -> Result<(), W::Error>
    ensures bytes { WritesBytes W.Write (writer_of encoder.old) result (settings_bytes host.now port)
        (writer_of encoder.new) }
    ensures target { W.target (writer_of encoder.new) ≡ W.target (writer_of encoder.old) }
{
    encoder.push(Header::Map(Some(2)))?;
    encoder.push(Header::Positive(HOST))?;
    encoder.text(host, None)?;
    encoder.push(Header::Positive(PORT))?;
    encoder.push(Header::Positive(port))
}
