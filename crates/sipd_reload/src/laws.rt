ghost use Rattle.std.specs.Prelude.{◌≡◌, ◌≤◌, ◌<◌, ◌+◌, ◌⊎◌, ℕ, List, true, false, Ok};
ghost use Rattle.std.specs.List.{list_any};
ghost use Rattle.sipd_reload.specs.Courses.{Turn, Reads, IsOffer, HoldNoOther, AreRising, WereHeld, is_offer, behind_all, looks_over};
ghost use Rattle.sipd_reload.specs.Watch.{WatchState, Answers, is_known, is_due, look_at, looked_at, with_taken, with_refused, second};
ghost use Rattle.sipd_reload.specs.declared.look.Look.TheVariants.{Unsettled, Settled};
ghost use Rattle.sipd_reload.specs.declared.seen.Seen.TheVariants as seens;
ghost use Rattle.sipd_reload.specs.declared.stamp.Stamp.{Stamp};

/// Other bytes are offered: a look that reads bytes which are neither in force nor refused finds them unsettled, if it doesn't offer them; and
/// a look a second later, or more, offers them where the file holds them still, whatever its stamp is.
pub fn other_bytes_are_offered()
    ensures seen { (watch : WatchState) (now : ℕ) (answers : Answers) (bytes : List ℕ) → Reads watch now answers bytes → is_known watch bytes ≡ false
        → (look_at watch now answers ≡ Unsettled) ⊎ (look_at watch now answers ≡ Settled bytes) }
    ensures offered { (watch : WatchState) (first later : ℕ) (one two : Answers) (bytes : List ℕ) (stamp : Stamp)
        → look_at watch first one ≡ Unsettled → one.bytes ≡ Ok bytes
        → first + second ≤ later → two.stamp ≡ Ok stamp → two.bytes ≡ Ok bytes → look_at (looked_at watch first one) later two ≡ Settled bytes }
{}

/// What is offered is neither in force nor refused; the file holds it, and held it at the last look that counts, a second before at least.
pub fn offers_are_settled()
    ensures { (watch : WatchState) (now : ℕ) (answers : Answers) (bytes : List ℕ)
        → look_at watch now answers ≡ Settled bytes → IsOffer watch now answers bytes }
{}

/// Of looks from when nothing was known of the file, at moments none of which is earlier than the one before: where one offers bytes, the
/// file held them at one of the looks before, a second earlier at least.
pub fn offered_bytes_were_held()
    ensures { (watch : WatchState) (turns : List Turn) (now : ℕ) (answers : Answers) (bytes : List ℕ)
        → watch.seen ≡ seens.Nothing → AreRising watch.looked turns
        → look_at (behind_all watch turns) now answers ≡ Settled bytes → (last : ℕ) × (last + second ≤ now) × WereHeld bytes last turns }
{}

/// What was taken, or refused, isn't offered while the file holds no other bytes, whatever its stamp is, and however often it is gone and back.
pub fn known_bytes_are_not_offered()
    ensures taken { (watch : WatchState) (bytes : List ℕ) (turns : List Turn)
        → HoldNoOther bytes turns → list_any is_offer (looks_over (with_taken watch bytes) turns) ≡ false }
    ensures refused { (watch : WatchState) (bytes : List ℕ) (turns : List Turn)
        → HoldNoOther bytes turns → list_any is_offer (looks_over (with_refused watch bytes) turns) ≡ false }
{}

/// Behind a look there is none for a second; and a second behind a moment at which it was asked for, there is one, whatever the clock said
/// before.
pub fn looks_come_each_second()
    ensures seldom { (watch : WatchState) (now later : ℕ) (answers : Answers)
        → is_due watch now ≡ true → later < now + second → is_due (looked_at watch now answers) later ≡ false }
    ensures again { (watch : WatchState) (now : ℕ) (answers : Answers) → is_due (looked_at watch now answers) (now + second) ≡ true }
{}
