//! Readers and writers, and the facts that they tell.
//!
//! A contract speaks of bytes only if a reader or a writer tells them, which costs nothing at run time.

ghost use Rattle.std.specs.Prelude.{◌≡◌, ℕ, ◌+◌, ◌<◌, ◌≤◌, List, Bool, length, take, IsTrue, IsSome, IfSome, IfNone};
ghost use Rattle.std.specs.Prelude.{OnOk, OnErr, slice_index, ◌%◌, ◌∷◌};
ghost use Rattle.std.specs.declared.option.Option.{Option};
ghost use Rattle.std.specs.Io.KnownBytes.{Appends, Consumes};
ghost use Rattle.ciborium_ll_io.specs.Transfer.{Shrinks, AppendsFront, Target};
ghost use Rattle.ciborium_ll_io.specs.declared.io.TheConstants.{AT_HAND};

mod discard;
mod failures;
mod messages;
mod slices;
mod taken;

pub use self::discard::Discard;
pub use self::failures::Failures;
pub use self::slices::{EndOfFile, OutOfSpace, SliceReader, SliceWriter, copy_chunk};

/// How many bytes [`Read::read_at_hand`] returns: as many as the longest title has (RFC 7049, 2.1).
pub const AT_HAND: usize = 9;

/// A source of bytes.
pub trait Read {
    /// Why a read failed.
    type Error;

    /// The bytes to come, if the reader tells them.
    ghost ahead: { Self → Option (List ℕ) };

    /// A steady reader fails only if bytes are missing, and then keeps the bytes that there are.
    ghost steady: { Self → Bool };

    /// The number of calls that failed so far.
    ghost failures: { Self → ℕ };

    /// Fills `data` with the next bytes, and consumes them.
    ///
    /// # Errors
    ///
    /// - `Self::Error`: the read failed. The contents of `data` are then unknown, and so are the bytes to come of a
    ///   reader that is not steady.
    fn read_exact(&mut self, data: &mut [u8]) -> Result<(), Self::Error>
        ensures bytes { OnOk result (Consumes (ahead self.old) (ahead self.new) «data».new) }
        ensures ok { OnOk result (failures self.new ≡ failures self.old) }
        ensures err { OnErr result (failures self.new ≡ failures self.old + 1) }

        // The duties of a steady reader.
        ensures stays_steady { IsTrue (steady self.old) → IsTrue (steady self.new) }
        ensures kept { OnErr result (IsTrue (steady self.old) → ahead self.new ≡ ahead self.old) }
        ensures missing { OnErr result (IsTrue (steady self.old)
            → IfSome (ahead self.old) (λ bytes. length bytes < length «data».old)) };

    /// Returns the next byte and the eight bytes after it, if the reader has these [`AT_HAND`] bytes at hand.
    ///
    /// It consumes as many of them as `lens` has for the lower five bits of the first: those of a title (RFC 7049,
    /// 2.1). `None` consumes nothing. By default a reader has no bytes at hand, and [`Read::read_exact`] gives them.
    fn read_at_hand(&mut self, lens: &[u8; 32]) -> Option<(u8, [u8; 8])>
        requires { (minor : ℕ) → minor < 32 → slice_index lens.now minor ≤ AT_HAND }
        ensures bytes { IfSome result (λ found. Consumes (ahead self.old) (ahead self.new)
            (take (slice_index lens.now (found.0 % 32)) (found.0 ∷ found.1))) }
        ensures failures { failures self.new ≡ failures self.old }
        ensures stays_steady { IsTrue (steady self.old) → IsTrue (steady self.new) }
        ensures none { IfNone result (self.new ≡ self.old) }
    {
        None
    }

    /// A steady reader tells its bytes.
    ghost steady_is_told: { (reader : Self) → IsTrue (steady reader) → IsSome (ahead reader) };
}

/// A sink of bytes.
pub trait Write {
    /// Why a write failed.
    type Error;

    /// The bytes so far, if the writer tells them.
    ghost written: { Self → Option (List ℕ) };

    /// The number of further bytes that are sure to fit, if the writer tells it.
    ghost room: { Self → Option ℕ };

    /// The number of calls that failed so far.
    ghost failures: { Self → ℕ };

    /// The effect of a flush that succeeds, as a relation of the writer before it and after it.
    ghost flushed: { Self → Self → Type 0 };

    /// The lent slice that the writer writes into, if the writer tells it. Its lender thus knows that the writer is
    /// still on the slice after a generic call.
    ghost target: { Self → Option Target };

    /// Appends the whole of `data`.
    ///
    /// # Errors
    ///
    /// - `Self::Error`: the write failed, with a beginning of `data` appended.
    fn write_all(&mut self, data: &[u8]) -> Result<(), Self::Error>
        ensures bytes { OnOk result (Appends (written self.old) (written self.new) «data».now) }
        ensures fills { OnOk result (Shrinks (room self.old) (room self.new) (length «data».now)) }
        ensures ok { OnOk result (failures self.new ≡ failures self.old) }

        ensures front { OnErr result (AppendsFront (written self.old) (written self.new)
            (room self.old) (room self.new) «data».now) }
        ensures full { OnErr result (IfSome (room self.old) (λ n. n < length «data».now)) }
        ensures err { OnErr result (failures self.new ≡ failures self.old + 1) }

        ensures target { target self.new ≡ target self.old };

    /// Appends a byte and then the whole of `rest`, as two calls of [`Write::write_all`] do. By default it makes them.
    ///
    /// # Errors
    ///
    /// - `Self::Error`: one of the two writes failed, with a beginning of the bytes appended.
    #[inline(always)]
    fn write_pair(&mut self, first: u8, rest: &[u8]) -> Result<(), Self::Error>
        ensures bytes { OnOk result (Appends (written self.old) (written self.new) (first ∷ «rest».now)) }
        ensures fills { OnOk result (Shrinks (room self.old) (room self.new) (1 + length «rest».now)) }
        ensures ok { OnOk result (failures self.new ≡ failures self.old) }

        ensures front { OnErr result (AppendsFront (written self.old) (written self.new)
            (room self.old) (room self.new) (first ∷ «rest».now)) }
        ensures full { OnErr result (IfSome (room self.old) (λ n. n < 1 + length «rest».now)) }
        ensures err { OnErr result (failures self.new ≡ failures self.old + 1) }

        ensures target { target self.new ≡ target self.old }
    {
        self.write_all(&[first])?;
        self.write_all(rest)
    }

    /// Passes on the bytes that the writer kept back.
    ///
    /// # Errors
    ///
    /// - `Self::Error`: the flush failed.
    fn flush(&mut self) -> Result<(), Self::Error>
        ensures bytes { IsSome (room self.old) → written self.new ≡ written self.old }
        ensures room { IsSome (room self.old) → room self.new ≡ room self.old }
        ensures flushed { OnOk result (flushed self.old self.new) }
        ensures ok { OnOk result (failures self.new ≡ failures self.old) }
        ensures err { OnErr result (failures self.new ≡ failures self.old + 1) }
        ensures target { target self.new ≡ target self.old };
}
