//! The names of common tags.

ghost use Rattle.std.specs.Prelude.{◌≡◌, MatchOption, None, Some};
ghost use Rattle.cbor_dump.specs.Tags.{tag_name};

/// Returns the name of a tag, if it is a common one. Its standard stands after each name.
pub(crate) fn name_of(number: u64) -> Option<&'static str>
    ensures { MatchOption result (tag_name number ≡ None) (λ name. tag_name number ≡ Some name.now) }
{
    match number {
        0 => Some("date and time"), // RFC 8949, 3.4.1
        1 => Some("epoch time"), // RFC 8949, 3.4.2
        2 => Some("bignum"), // RFC 8949, 3.4.3
        3 => Some("negative bignum"), // RFC 8949, 3.4.3
        4 => Some("decimal fraction"), // RFC 8949, 3.4.4
        5 => Some("bigfloat"), // RFC 8949, 3.4.4
        16 => Some("COSE_Encrypt0"), // RFC 9052, 2
        17 => Some("COSE_Mac0"), // RFC 9052, 2
        18 => Some("COSE_Sign1"), // RFC 9052, 2
        21 => Some("to base64url"), // RFC 8949, 3.4.5.2
        22 => Some("to base64"), // RFC 8949, 3.4.5.2
        23 => Some("to base16"), // RFC 8949, 3.4.5.2
        24 => Some("encoded item"), // RFC 8949, 3.4.5.1
        32 => Some("URI"), // RFC 8949, 3.4.5.3
        33 => Some("base64url"), // RFC 8949, 3.4.5.3
        34 => Some("base64"), // RFC 8949, 3.4.5.3
        36 => Some("MIME message"), // RFC 8949, 3.4.5.3
        37 => Some("UUID"), // IANA's registry
        61 => Some("CWT"), // RFC 8392, 6
        63 => Some("encoded sequence"), // RFC 8742
        96 => Some("COSE_Encrypt"), // RFC 9052, 2
        97 => Some("COSE_Mac"), // RFC 9052, 2
        98 => Some("COSE_Sign"), // RFC 9052, 2
        100 => Some("days since 1970"), // RFC 8943, 1
        258 => Some("set"), // IANA's registry
        1004 => Some("date"), // RFC 8943, 1
        55799 => Some("CBOR"), // RFC 8949, 3.4.6
        _ => None,
    }
}
