//! Laws of the checker's answers, each the contract of an empty function.

ghost use Rattle.ciborium_ll_grammar.specs.declared.spelling.Spelling.{Spelling};
ghost use Rattle.std.specs.Prelude.{Bool, ℕ, ◌≡◌, ◌+◌, ◌++◌, ◌⊎◌, ◌↔◌, List, length};
ghost use Rattle.ciborium_ll_grammar.specs.Items.{IsItem};
ghost use Rattle.cbor_checker.specs.Checking.{Answers, AnswersEnd, HasRead, Saves};
ghost use Rattle.cbor_checker.specs.Reading.{BeginsItem, IsEnd, IsFault, IsMore, Reads, Tells};
ghost use Rattle.cbor_checker.specs.declared.checker.Checker.{Checker};
ghost use Rattle.cbor_checker.specs.declared.phase.Fault.{Fault};
ghost use Rattle.cbor_checker.specs.declared.progress.End.{End};
ghost use Rattle.cbor_checker.specs.declared.progress.End.TheVariants as e;
ghost use Rattle.cbor_checker.specs.declared.progress.Feed.{Feed};
ghost use Rattle.cbor_checker.specs.declared.progress.Progress.{Progress};
ghost use Rattle.cbor_checker.specs.declared.progress.Progress.TheVariants as r;
ghost use Rattle.cbor_checker.specs.declared.snapshot.Snapshot.{Snapshot};

/// Checkers that have read the same bytes answer the same, however a caller cut the bytes into pieces. The number that
/// is due and the place of a fault are the same, too.
pub fn one_answer()
    ensures answer { (allowed : Spelling) (depth : ℕ) (read : List ℕ) (one other : Checker) (first second : Progress)
        → HasRead allowed depth read one → HasRead allowed depth read other
        → Answers one first → Answers other second → first ≡ second }
    ensures end { (allowed : Spelling) (depth : ℕ) (read : List ℕ) (one other : Checker) (first second : End)
        → HasRead allowed depth read one → HasRead allowed depth read other
        → AnswersEnd one first → AnswersEnd other second → first ≡ second }
{}

/// If no more bytes come, the number that was due and the fault are those of the checker's answer.
pub fn end_answers()
    ensures short { (checker : Checker) (due : ℕ) → AnswersEnd checker (e.Short due) → Answers checker (r.More due) }
    ensures fault { (checker : Checker) (fault : Fault) → AnswersEnd checker (e.Fault fault)
        → Answers checker (r.Fault fault) }
{}

/// The answer is that the item has ended exactly if the bytes so far are an item, for a strict checker in its shortest
/// spelling. The answer is a fault exactly if no such item begins as they do.
pub fn exact_answers()
    ensures ended { (allowed : Spelling) (depth : ℕ) (bytes : List ℕ) (progress : Progress) → Tells allowed depth bytes
        progress
        → (IsEnd progress ↔ IsItem allowed depth bytes) }
    ensures fault { (allowed : Spelling) (depth : ℕ) (bytes : List ℕ) (progress : Progress) → Tells allowed depth bytes
        progress
        → (IsFault progress ↔ (BeginsItem allowed depth bytes → ⊥)) }
{}

/// A checker that reads two pieces answers as one that reads both of them, joined. So it is if it took the first piece
/// whole (`both`), and if it answered to the first piece that no more bytes are due (`first`).
pub fn joined_pieces()
    ensures both { (allowed : Spelling) (depth : ℕ) (read one two : List ℕ) (first second all : Feed)
        → Reads allowed depth read one first → first.taken ≡ length one
        → Reads allowed depth (read ++ one) two second → all.taken ≡ length one + second.taken
        → all.progress ≡ second.progress → Reads allowed depth read (one ++ two) all }
    ensures first { (allowed : Spelling) (depth : ℕ) (read one two : List ℕ) (feed : Feed) → Reads allowed depth read
        one feed
        → (IsMore feed.progress → ⊥) → Reads allowed depth read (one ++ two) feed }
{}

/// Checkers with the same plain numbers answer the same, even if no bytes lead to their state.
pub fn one_saved()
    ensures answer { (snapshot : Snapshot) (one other : Checker) (first second : Progress) → Saves one snapshot
        → Saves other snapshot → Answers one first → Answers other second → first ≡ second }
    ensures end { (snapshot : Snapshot) (one other : Checker) (first second : End) → Saves one snapshot
        → Saves other snapshot → AnswersEnd one first → AnswersEnd other second → first ≡ second }
{}
