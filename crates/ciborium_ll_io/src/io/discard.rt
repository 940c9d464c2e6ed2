//! A writer that keeps no bytes.

ghost use Rattle.std.specs.Prelude.{◌≡◌, [], None, Some};

use super::Write;
use super::failures::Failures;
use super::slices::OutOfSpace;
use super::taken::Taken;

/// Takes bytes and keeps none of them, so it needs no memory. A caller uses it for a copy whose answer alone matters.
#[derive(Drop)]
pub struct Discard {
    taken: Taken,
    room: usize,
    failures: Failures,
}

impl Discard {
    /// Returns a writer that takes at most `room` bytes.
    pub fn new(room: usize) -> Discard
        ensures written { ⟦<Discard as Write>⟧.written result ≡ Some [] }
        ensures room { ⟦<Discard as Write>⟧.room result ≡ Some room }
        ensures failures { ⟦<Discard as Write>⟧.failures result ≡ 0 }
    {
        Discard {
            taken: Taken::new(),
            room,
            failures: Failures::new(),
        }
    }

    /// Returns the number of further bytes that it takes.
    pub fn room(&self) -> usize
        ensures { ⟦<Discard as Write>⟧.room self.now ≡ Some result }
    {
        self.room
    }
}

impl Write for Discard {
    ghost use Rattle.std.specs.Prelude.{◌≡◌, ◌+◌, ◌<◌, IsSome, IfSome, OnOk, OnErr, IsOk, length};
    ghost use Rattle.std.specs.Io.KnownBytes.{Appends};
    ghost use Rattle.ciborium_ll_io.specs.Transfer.{Shrinks, AppendsFront};
    ghost use Rattle.ciborium_ll_io.specs.Discards.{discard_taken, discard_room, discard_failures};

    type Error = OutOfSpace;

    ghost written = { λ w. discard_taken w };

    ghost room = { λ w. discard_room w };

    ghost failures = { λ w. discard_failures w };

    ghost flushed = { λ old new. discard_taken new ≡ discard_taken old };

    ghost target = { λ _. None };

    /// Takes the whole of `data`.
    ///
    /// # Errors
    ///
    /// - `OutOfSpace`: `data` is longer than the room.
    fn write_all(&mut self, data: &[u8]) -> Result<(), OutOfSpace>
        // The trait's.
        ensures bytes { OnOk result (Appends (discard_taken self.old) (discard_taken self.new) «data».now) }
        ensures fills { OnOk result (Shrinks (discard_room self.old) (discard_room self.new) (length «data».now)) }
        ensures ok { OnOk result (discard_failures self.new ≡ discard_failures self.old) }
        ensures front { OnErr result (AppendsFront (discard_taken self.old) (discard_taken self.new)
            (discard_room self.old) (discard_room self.new) «data».now) }
        ensures full { OnErr result (IfSome (discard_room self.old) (λ n. n < length «data».now)) }
        ensures err { OnErr result (discard_failures self.new ≡ discard_failures self.old + 1) }

        // The writer's own.
        ensures nothing { OnErr result (discard_taken self.new ≡ discard_taken self.old) }
    {
        if self.room < data.len() {
            self.failures.raise();
            return Err(OutOfSpace);
        }
        self.taken.append(data);
        self.room -= data.len();
        Ok(())
    }

    /// Does nothing, and never fails.
    fn flush(&mut self) -> Result<(), OutOfSpace>
        // The trait's.
        ensures bytes { IsSome (discard_room self.old) → discard_taken self.new ≡ discard_taken self.old }
        ensures room { IsSome (discard_room self.old) → discard_room self.new ≡ discard_room self.old }
        ensures flushed { OnOk result (discard_taken self.new ≡ discard_taken self.old) }
        ensures ok { OnOk result (discard_failures self.new ≡ discard_failures self.old) }
        ensures err { OnErr result (discard_failures self.new ≡ discard_failures self.old + 1) }

        // The writer's own.
        ensures done { IsOk result }
    {
        // Nothing was kept back.
        Ok(())
    }
}
