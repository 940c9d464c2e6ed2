//! Laws of the answers of a copier of items, each the contract of an empty function.

ghost use Rattle.std.specs.Prelude.{Bool, ℕ, ◌≡◌, ◌≢◌, ◌+◌, ◌≤◌, ◌++◌, ◌↔◌, List, [], length};
ghost use Rattle.ciborium_ll_grammar.specs.declared.spelling.Spelling.{Spelling};
ghost use Rattle.ciborium_ll_grammar.specs.declared.limits.TheConstants.{LONGEST_AFFIX};
ghost use Rattle.ciborium_ll_grammar.specs.Title.{AreBytes};
ghost use Rattle.ciborium_ll_grammar.specs.Elements.{IsRun, Mark, spelling};
ghost use Rattle.ciborium_ll_grammar.specs.Items.{IsItem};
ghost use Rattle.cbor_checker.specs.Reading.{BeginsItem};
ghost use Rattle.cbor_checker.specs.declared.phase.Fault.{Fault};
ghost use Rattle.cbor_item_copier.specs.Copying.{Answers, AnswersEnd, HasCopied, held, most, pending};
ghost use Rattle.cbor_item_copier.specs.Reading.{Copies, IsEnd, IsFault, IsMore, IsRoom, IsSpelled, Tells};
ghost use Rattle.cbor_item_copier.specs.Snapshots.{HoldsSome, Keeps, Saves};
ghost use Rattle.cbor_item_copier.specs.declared.copier.ItemCopier.{ItemCopier};
ghost use Rattle.cbor_item_copier.specs.declared.progress.Copied.{Copied};
ghost use Rattle.cbor_item_copier.specs.declared.progress.End.{End};
ghost use Rattle.cbor_item_copier.specs.declared.progress.End.TheVariants as e;
ghost use Rattle.cbor_item_copier.specs.declared.progress.Progress.{Progress};
ghost use Rattle.cbor_item_copier.specs.declared.progress.Progress.TheVariants as r;
ghost use Rattle.cbor_item_copier.specs.declared.snapshot.Snapshot.{Snapshot};

/// Copiers that have read the same bytes have put out the same bytes: those that are written, and then those that are
/// pending. So it is however a caller cuts the bytes into pieces, and whatever room there is. Each holds as many bytes
/// of the others back.
pub fn one_item_copy()
    ensures output { (allowed : Spelling) (depth : ℕ) (read written others : List ℕ) (one other : ItemCopier)
        → HasCopied allowed depth read written one → HasCopied allowed depth read others other
        → written ++ pending one ≡ others ++ pending other }
    ensures held { (allowed : Spelling) (depth : ℕ) (read written others : List ℕ) (one other : ItemCopier)
        → HasCopied allowed depth read written one → HasCopied allowed depth read others other
        → length written + held one ≡ length others + held other }
{}

/// Copiers that have read the same bytes and written the same answer the same. The number that is due and the place of
/// a fault are the same, too.
pub fn one_answer()
    ensures answer { (allowed : Spelling) (depth : ℕ) (read written : List ℕ) (one other : ItemCopier)
        (first second : Progress)
        → HasCopied allowed depth read written one → HasCopied allowed depth read written other
        → Answers one first → Answers other second → first ≡ second }
    ensures end { (allowed : Spelling) (depth : ℕ) (read written : List ℕ) (one other : ItemCopier) (first second : End)
        → HasCopied allowed depth read written one → HasCopied allowed depth read written other
        → AnswersEnd one first → AnswersEnd other second → first ≡ second }
{}

/// If no more bytes come, the number that was due, the lack of room and the fault are those of the copier's answer.
pub fn end_answers()
    ensures short { (copier : ItemCopier) (due : ℕ) → AnswersEnd copier (e.Short due) → Answers copier (r.More due) }
    ensures room { (copier : ItemCopier) → AnswersEnd copier e.Room → Answers copier r.Room }
    ensures fault { (copier : ItemCopier) (fault : Fault) → AnswersEnd copier (e.Fault fault)
        → Answers copier (r.Fault fault) }
{}

/// The answer is that there is no room exactly if some bytes are pending.
pub fn room_answers()
    ensures { (copier : ItemCopier) (progress : Progress) → Answers copier progress
        → (IsRoom progress ↔ (pending copier ≢ [])) }
{}

/// An item is some number of elements, so it has one shortest spelling.
pub fn items_are_elements()
    ensures some { (allowed : Spelling) (depth : ℕ) (item : List ℕ) → IsItem allowed depth item
        → (count : ℕ) × (marks : List Mark) × IsRun count item marks }
    ensures one { (item : List ℕ) (count other : ℕ) (marks others : List Mark) → IsRun count item marks
        → IsRun other item others → (count ≡ other) × (marks ≡ others) }
{}

/// The answer is that the copy has ended exactly if the bytes so far are an item to the depth and its shortest spelling
/// is written. For a strict copier the item is one in its shortest spelling. If nothing is pending, the answer is a
/// fault exactly if no such item begins as they do.
pub fn exact_answers()
    ensures ended { (allowed : Spelling) (depth : ℕ) (bytes output : List ℕ) (progress : Progress)
        → Tells allowed depth bytes output progress
        → (IsEnd progress ↔ (IsItem allowed depth bytes × IsSpelled bytes output)) }
    ensures fault { (allowed : Spelling) (depth : ℕ) (bytes output : List ℕ) (progress : Progress)
        → Tells allowed depth bytes output progress → (IsRoom progress → ⊥)
        → (IsFault progress ↔ (BeginsItem allowed depth bytes → ⊥)) }
{}

/// A copier that reads two pieces answers as one that reads both of them, joined. So it is if it took the first piece
/// whole (`both`), and if it answered to the first piece that no more bytes are due (`first`).
pub fn joined_pieces()
    ensures both { (allowed : Spelling) (depth : ℕ) (read written one two put more : List ℕ) (first second all : Copied)
        → Copies allowed depth read written one put first → first.taken ≡ length one
        → Copies allowed depth (read ++ one) (written ++ put) two more second
        → all.taken ≡ length one + second.taken → all.progress ≡ second.progress
        → Copies allowed depth read written (one ++ two) (put ++ more) all }
    ensures first { (allowed : Spelling) (depth : ℕ) (read written one two put : List ℕ) (copied : Copied)
        → Copies allowed depth read written one put copied → (IsMore copied.progress → ⊥)
        → Copies allowed depth read written (one ++ two) put copied }
{}

/// If the bytes so far are an item, all that is put out is its shortest spelling.
pub fn item_spelled()
    ensures { (allowed : Spelling) (depth : ℕ) (read written : List ℕ) (copier : ItemCopier)
        → HasCopied allowed depth read written copier → IsItem allowed depth read
        → (count : ℕ) (marks : List Mark) → IsRun count read marks → written ++ pending copier ≡ spelling marks }
{}

/// All that is put out begins the shortest spelling of each item that begins with the bytes so far, if the item's
/// elements can be counted.
pub fn item_spelled_so_far()
    ensures { (allowed : Spelling) (depth : ℕ) (read written behind : List ℕ) (copier : ItemCopier) (count : ℕ)
        (marks : List Mark)
        → HasCopied allowed depth read written copier → AreBytes behind → IsItem allowed depth (read ++ behind)
        → IsRun count (read ++ behind) marks → count ≤ most
        → (rest : List ℕ) × (spelling marks ≡ (written ++ pending copier) ++ rest) }
{}

/// A copier that has read no byte has written none, and holds none. If nothing is pending, a copier holds back at most
/// `LONGEST_AFFIX` bytes, which is 8. The pending bytes are among those that are held.
pub fn few_held()
    ensures none { (allowed : Spelling) (depth : ℕ) (written : List ℕ) (copier : ItemCopier)
        → HasCopied allowed depth [] written copier
        → (written ≡ []) × (pending copier ≡ []) × (held copier ≡ 0) }
    ensures few { (copier : ItemCopier) → pending copier ≡ [] → held copier ≤ LONGEST_AFFIX }
    ensures some { (copier : ItemCopier) → length (pending copier) ≤ held copier }
{}

/// Copiers with the same plain numbers answer the same, even if no bytes lead to their state. If the numbers keep some
/// bytes, each has read and written those.
pub fn one_saved()
    ensures answer { (snapshot : Snapshot) (one other : ItemCopier) (first second : Progress) → Saves one snapshot
        → Saves other snapshot → Answers one first → Answers other second → first ≡ second }
    ensures end { (snapshot : Snapshot) (one other : ItemCopier) (first second : End) → Saves one snapshot
        → Saves other snapshot → AnswersEnd one first → AnswersEnd other second → first ≡ second }
    ensures read { (allowed : Spelling) (depth : ℕ) (read written : List ℕ) (copier : ItemCopier) (snapshot : Snapshot)
        → Keeps allowed depth read written snapshot → Saves copier snapshot
        → HasCopied allowed depth read written copier }
    ensures some { (copier : ItemCopier) (snapshot : Snapshot) → Saves copier snapshot → HoldsSome snapshot }
{}
