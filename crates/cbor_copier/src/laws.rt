//! Laws of the copier's answers, each the contract of an empty function.

ghost use Rattle.std.specs.Prelude.{ℕ, ◌≡◌, ◌≢◌, ◌+◌, ◌≤◌, ◌++◌, ◌↔◌, List, [], length};
ghost use Rattle.ciborium_ll_grammar.specs.declared.spelling.Spelling.{Spelling};
ghost use Rattle.ciborium_ll_grammar.specs.declared.spelling.Spelling.TheVariants.{Shortest};
ghost use Rattle.ciborium_ll_grammar.specs.declared.limits.TheConstants.{LONGEST_AFFIX};
ghost use Rattle.ciborium_ll_grammar.specs.Title.{AreBytes};
ghost use Rattle.ciborium_ll_grammar.specs.Elements.{Mark, spelling};
ghost use Rattle.cbor_copier.specs.Copying.{Answers, AnswersEnd, HasCopied, HoldsSome, Keeps, Saves, held, pending};
ghost use Rattle.cbor_copier.specs.Reading.{AreSpelled, IsTakenRun, Copies, IsEnd, IsFault, IsMore, IsRoom, NoneGoOn};
ghost use Rattle.cbor_copier.specs.Reading.{Tells};
ghost use Rattle.cbor_copier.specs.Reading.{progress_at};
ghost use Rattle.cbor_copier.specs.declared.copier.Copier.{Copier};
ghost use Rattle.cbor_copier.specs.declared.progress.Copied.{Copied};
ghost use Rattle.cbor_copier.specs.declared.progress.End.{End};
ghost use Rattle.cbor_copier.specs.declared.progress.Progress.{Progress};
ghost use Rattle.cbor_copier.specs.declared.snapshot.Snapshot.{Snapshot};

/// Copiers that have read the same bytes have put out the same bytes: those that are written, and then those that are
/// pending. So it is however a caller cuts the bytes into pieces, and whatever room there is. Each holds as many bytes
/// of the others back.
pub fn one_copy()
    ensures output { (allowed : Spelling) (count : ℕ) (read written others : List ℕ) (one other : Copier)
        → HasCopied allowed count read written one → HasCopied allowed count read others other
        → written ++ pending one ≡ others ++ pending other }
    ensures held { (allowed : Spelling) (count : ℕ) (read written others : List ℕ) (one other : Copier)
        → HasCopied allowed count read written one → HasCopied allowed count read others other
        → length written + held one ≡ length others + held other }
{}

/// Copiers that have read the same bytes and written the same answer the same. The place of a fault is the same, too.
pub fn one_answer()
    ensures answer { (allowed : Spelling) (count : ℕ) (read written : List ℕ) (one other : Copier)
        (first second : Progress) → HasCopied allowed count read written one
        → HasCopied allowed count read written other
        → Answers one first → Answers other second → first ≡ second }
    ensures end { (allowed : Spelling) (count : ℕ) (read written : List ℕ) (one other : Copier) (first second : End)
        → HasCopied allowed count read written one → HasCopied allowed count read written other
        → AnswersEnd one first → AnswersEnd other second → first ≡ second }
{}

/// If no more bytes come, the answer is the copier's: `Short` if it was `More`.
pub fn end_answers()
    ensures { (copier : Copier) (end : End) → AnswersEnd copier end → Answers copier (progress_at end) }
{}

/// The answer is that there is no room exactly if some bytes are pending.
pub fn room_answers()
    ensures { (copier : Copier) (progress : Progress) → Answers copier progress
        → (IsRoom progress ↔ (pending copier ≢ [])) }
{}

/// The answer is that the copy has ended exactly if the bytes so far are that many elements and their shortest spelling
/// is written. If nothing is pending, the answer is a fault exactly if no list of that many elements begins so. For a
/// strict copier the elements are those in their shortest spelling.
pub fn exact_answers()
    ensures ended { (allowed : Spelling) (count : ℕ) (bytes output : List ℕ) (progress : Progress)
        → Tells allowed count bytes output progress
        → (IsEnd progress ↔ AreSpelled allowed count bytes output) }
    ensures fault { (allowed : Spelling) (count : ℕ) (bytes output : List ℕ) (progress : Progress)
        → Tells allowed count bytes output progress → (IsRoom progress → ⊥)
        → (IsFault progress ↔ NoneGoOn allowed count bytes) }
{}

/// A copier that reads two pieces answers as one that reads both of them, joined. So it is if it took the first piece
/// whole (`both`), and if it answered to the first piece that no more bytes are due (`first`).
pub fn joined_pieces()
    ensures both { (allowed : Spelling) (count : ℕ) (read written one two put more : List ℕ)
        (first second all : Copied) → Copies allowed count read written one put first → first.taken ≡ length one
        → Copies allowed count (read ++ one) (written ++ put) two more second → all.taken ≡ length one + second.taken
        → all.progress ≡ second.progress → Copies allowed count read written (one ++ two) (put ++ more) all }
    ensures first { (allowed : Spelling) (count : ℕ) (read written one two put : List ℕ) (copied : Copied)
        → Copies allowed count read written one put copied → (IsMore copied.progress → ⊥)
        → Copies allowed count read written (one ++ two) put copied }
{}

/// A copier that has read no byte has written none, and holds none. If nothing is pending, a copier holds back at most
/// `LONGEST_AFFIX` bytes, which is 8. The pending bytes are among those that are held.
pub fn few_held()
    ensures none { (allowed : Spelling) (count : ℕ) (written : List ℕ) (copier : Copier)
        → HasCopied allowed count [] written copier → (written ≡ []) × (pending copier ≡ []) × (held copier ≡ 0) }
    ensures few { (copier : Copier) → pending copier ≡ [] → held copier ≤ LONGEST_AFFIX }
    ensures some { (copier : Copier) → length (pending copier) ≤ held copier }
{}

/// Copiers with the same plain numbers answer the same, even if no bytes lead to their state. If the numbers keep some
/// bytes, each has read and written those.
pub fn one_saved()
    ensures answer { (snapshot : Snapshot) (one other : Copier) (first second : Progress) → Saves one snapshot
        → Saves other snapshot → Answers one first → Answers other second → first ≡ second }
    ensures end { (snapshot : Snapshot) (one other : Copier) (first second : End) → Saves one snapshot
        → Saves other snapshot → AnswersEnd one first → AnswersEnd other second → first ≡ second }
    ensures read { (allowed : Spelling) (count : ℕ) (read written : List ℕ) (copier : Copier) (snapshot : Snapshot)
        → Keeps allowed count read written snapshot → Saves copier snapshot
        → HasCopied allowed count read written copier }
    ensures some { (copier : Copier) (snapshot : Snapshot) → Saves copier snapshot → HoldsSome snapshot }
{}

/// If that many elements begin with the bytes so far, all that is put out is a beginning of their shortest spelling.
pub fn spelled_so_far()
    ensures { (allowed : Spelling) (count : ℕ) (read written behind : List ℕ) (copier : Copier) (marks : List Mark)
        → HasCopied allowed count read written copier → AreBytes behind
        → IsTakenRun allowed count (read ++ behind) marks
        → (rest : List ℕ) × (spelling marks ≡ (written ++ pending copier) ++ rest) }
{}

/// What a strict copier has written at the end is what it has read.
pub fn strict_copy()
    ensures { (count : ℕ) (bytes output : List ℕ) → AreSpelled Shortest count bytes output → output ≡ bytes }
{}
