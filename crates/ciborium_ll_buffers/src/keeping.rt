//! A reader over one of std that keeps the bytes of a read that failed.

ghost use Rattle.std.specs.Prelude.{◌≡◌, ◌+◌, ◌≤◌, ◌<◌, ◌++◌, [], length, false, None, Some, IsOk, IsSome, IsTrue};
ghost use Rattle.std.specs.Prelude.{IfSome, OnErr, OnOk};
ghost use Rattle.std.specs.Prelude.{◌%◌, ◌∷◌, ℕ, IfNone, slice_index, take};
ghost use Rattle.std.specs.Io.KnownBytes.{Consumes, IsAtEnd};
ghost use Rattle.std.proofs.Common.{rules};
ghost use Rattle.ciborium_ll_io.specs.declared.io.TheConstants.{AT_HAND};

use crate::buffered::FaultKept;
use crate::window::Window;
use ciborium_ll_io::io::{AT_HAND, Failures, Read};
use ciborium_ll_streams::ReadFault;
use std::io;

/// Reads from a reader of std, ahead into a slice that the caller lends, up to its first failure. It is never steady.
///
/// The bytes that came before a read failed are kept, and smaller reads get them. After these bytes each read fails, and
/// the inner reader is asked for nothing more: a terminal at its end would ask its user again. A read of more bytes than
/// the slice has fails too, unless they are held.
#[derive(Drop)]
pub struct KeepingReader<'a, T> {
    source: T,
    window: Window<'a>,
    fault: Option<ReadFault>,
    failures: Failures,
}

impl<'a, T: io::Read> KeepingReader<'a, T> {
    ghost use Rattle.ciborium_ll_buffers.specs.Buffers.{HoldsMore, keeping_ahead, keeping_capacity, keeping_failures};
    ghost use Rattle.ciborium_ll_buffers.specs.Buffers.{keeping_fault, keeping_held, keeping_source};

    /// Returns a reader of the bytes left in `source`.
    pub fn new(source: T, buffer: &'a mut [u8]) -> KeepingReader<'a, T>
        ensures source { keeping_source result ≡ source }
        ensures held { keeping_held result ≡ [] }
        ensures capacity { keeping_capacity result ≡ length buffer.old }
        ensures ahead { keeping_ahead T.remaining result ≡ T.remaining source }
        ensures fault { keeping_fault result ≡ None }
        ensures failures { keeping_failures result ≡ 0 }
    {
        KeepingReader {
            source,
            window: Window::new(buffer),
            fault: None,
            failures: Failures::new(),
        }
    }

    /// Returns the bytes that came and that no caller got.
    pub fn buffer(&self) -> &[u8]
        ensures { result.now ≡ keeping_held self.now }
    {
        self.window.held()
    }

    /// Returns the inner reader, the bytes that are held, and why the inner reader failed, if it did.
    pub fn into_parts(self) -> (T, &'a [u8], Option<ReadFault>)
        ensures source { result.0 ≡ keeping_source self.entry }
        ensures held { result.1.now ≡ keeping_held self.entry }
        ensures fault { result.2 ≡ keeping_fault self.entry }
    {
        let KeepingReader {
            source,
            window,
            fault,
            failures: _,
        } = self;
        (source, window.into_held(), fault)
    }

    /// Reads until it holds `len` bytes, and returns whether it does. If it does not, the call keeps the fault.
    #[cold]
    #[inline(never)]
    fn hold(&mut self, len: usize) -> bool
        ensures holds { HoldsMore T.remaining self.old self.new }
        ensures enough { IsTrue result → len ≤ length (keeping_held self.new) }
        ensures same { IsTrue result → keeping_fault self.new ≡ keeping_fault self.old }
        ensures short { result ≡ false → length (keeping_held self.new) < len }
        ensures fault { result ≡ false → IsSome (keeping_fault self.new) }
        ensures ended { IsSome (keeping_fault self.old) → self.new ≡ self.old }
        ensures end { result ≡ false → keeping_fault self.old ≡ None → keeping_fault self.new ≡ Some ReadFault.End
            → len ≤ keeping_capacity self.new → IsAtEnd (T.remaining (keeping_source self.new)) }
        ensures failures { keeping_failures self.new ≡ keeping_failures self.old }
        ensures capacity { keeping_capacity self.new ≡ keeping_capacity self.old }
    {
        'more: while self.window.len() < len {
            if !self.more() {
                return false;
            }
        }
        true
    }

    /// Reads by at most one call of the inner reader, and returns whether bytes came. If none came, the call keeps the
    /// fault.
    fn more(&mut self) -> bool
        ensures grows { IsTrue result → length (keeping_held self.old) < length (keeping_held self.new) }
        ensures holds { HoldsMore T.remaining self.old self.new }
        ensures same { IsTrue result → keeping_fault self.new ≡ keeping_fault self.old }
        ensures none { result ≡ false → IsSome (keeping_fault self.new)
            × (keeping_held self.new ≡ keeping_held self.old) }
        ensures ended { IsSome (keeping_fault self.old) → self.new ≡ self.old }
        ensures end { keeping_fault self.old ≡ None → keeping_fault self.new ≡ Some ReadFault.End
            → length (keeping_held self.old) < keeping_capacity self.old
            → IsAtEnd (T.remaining (keeping_source self.new)) }
        ensures failures { keeping_failures self.new ≡ keeping_failures self.old }
        ensures capacity { keeping_capacity self.new ≡ keeping_capacity self.old }
    {
        if self.fault.is_some() {
            return false;
        }
        match self.window.fill(&mut self.source) {
            Ok(0) => self.fault = Some(ReadFault::End),
            Ok(_) => return true,
            Err(error) => self.fault = Some(ReadFault::Failed(error)),
        }
        false
    }
}

impl<'a, T: io::Read> Read for KeepingReader<'a, T> {
    ghost use Rattle.ciborium_ll_buffers.specs.Buffers.{HoldsMore, keeping_ahead, keeping_capacity, keeping_failures};
    ghost use Rattle.ciborium_ll_buffers.specs.Buffers.{keeping_fault, keeping_held, keeping_source, keeping_steady};

    type Error = FaultKept;

    ghost ahead = { λ r. keeping_ahead T.remaining r };

    ghost steady = { λ r. keeping_steady r };

    ghost failures = { λ r. keeping_failures r };

    ghost steady_is_told = { λ _ h. Prim.search rules };

    /// Fills the whole of `data`, or fails and keeps the bytes that came.
    ///
    /// The call hands out held bytes before it asks the inner reader for more. After the first failure of that reader it
    /// asks for nothing more.
    ///
    /// # Errors
    ///
    /// - `FaultKept`: a call failed (`Failed`), or gave no byte (`End`). The reader then holds all bytes that came, in
    ///   their order.
    #[inline(always)]
    fn read_exact(&mut self, data: &mut [u8]) -> Result<(), FaultKept>
        // The trait's.
        ensures bytes { OnOk result
            (Consumes (keeping_ahead T.remaining self.old) (keeping_ahead T.remaining self.new) «data».new) }
        ensures ok { OnOk result (keeping_failures self.new ≡ keeping_failures self.old) }
        ensures err { OnErr result (keeping_failures self.new ≡ keeping_failures self.old + 1) }
        ensures stays_steady { IsTrue (keeping_steady self.old) → IsTrue (keeping_steady self.new) }
        ensures kept { OnErr result (IsTrue (keeping_steady self.old)
            → keeping_ahead T.remaining self.new ≡ keeping_ahead T.remaining self.old) }
        ensures missing { OnErr result (IsTrue (keeping_steady self.old)
            → IfSome (keeping_ahead T.remaining self.old) (λ bytes. length bytes < length «data».old)) }

        // The reader's own.
        ensures within { length «data».old ≤ length (keeping_held self.old)
            → IsOk result × (keeping_source self.new ≡ keeping_source self.old)
            × (keeping_held self.old ≡ «data».new ++ keeping_held self.new) }
        ensures keeps { OnErr result (HoldsMore T.remaining self.old self.new) }
        ensures short { OnErr result (length (keeping_held self.new) < length «data».new) }
        ensures same { OnOk result (keeping_fault self.new ≡ keeping_fault self.old) }
        ensures fault { OnErr result (IsSome (keeping_fault self.new)) }
        ensures ended { IsSome (keeping_fault self.old) → (keeping_source self.new ≡ keeping_source self.old)
            × (keeping_fault self.new ≡ keeping_fault self.old) }
        ensures end { OnErr result (keeping_fault self.old ≡ None → keeping_fault self.new ≡ Some ReadFault.End
            → length «data».new ≤ keeping_capacity self.new → IsAtEnd (T.remaining (keeping_source self.new))) }
        ensures capacity { keeping_capacity self.new ≡ keeping_capacity self.old }
    {
        if self.window.len() < data.len() && !self.hold(data.len()) {
            self.failures.raise();
            return Err(FaultKept);
        }
        self.window.take(data);
        Ok(())
    }

    /// Returns the next byte and the eight bytes after it, exactly if at least [`AT_HAND`] bytes are held.
    #[inline(always)]
    fn read_at_hand(&mut self, lens: &[u8; 32]) -> Option<(u8, [u8; 8])>
        // The trait's.
        requires { (minor : ℕ) → minor < 32 → slice_index lens.now minor ≤ AT_HAND }
        ensures bytes { IfSome result (λ found. Consumes (keeping_ahead T.remaining self.old)
            (keeping_ahead T.remaining self.new) (take (slice_index lens.now (found.0 % 32)) (found.0 ∷ found.1))) }
        ensures failures { keeping_failures self.new ≡ keeping_failures self.old }
        ensures stays_steady { IsTrue (keeping_steady self.old) → IsTrue (keeping_steady self.new) }
        ensures none { IfNone result (self.new ≡ self.old) }

        // The reader's own.
        ensures few { IfNone result (length (keeping_held self.old) < AT_HAND) }
        ensures found { IfSome result (λ found. take AT_HAND (keeping_held self.old) ≡ found.0 ∷ found.1) }
        ensures held { IfSome result (λ found. keeping_held self.old
            ≡ take (slice_index lens.now (found.0 % 32)) (found.0 ∷ found.1) ++ keeping_held self.new) }
        ensures source { keeping_source self.new ≡ keeping_source self.old }
        ensures same { keeping_fault self.new ≡ keeping_fault self.old }
        ensures capacity { keeping_capacity self.new ≡ keeping_capacity self.old }
    {
        self.window.take_at_hand(lens)
    }
}
