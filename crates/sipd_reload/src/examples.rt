ghost use Rattle.std.specs.Prelude.{◌≡◌, [], ◌∷◌, Ok, codes};
ghost use Rattle.sipd_reload.specs.Courses.{looks_over, behind_all};
ghost use Rattle.sipd_reload.specs.Examples.{at_first, stamp, holds, other_holds, holds_back, fails};
ghost use Rattle.sipd_reload.specs.Watch.{asked_at, with_taken, with_refused};
ghost use Rattle.sipd_reload.specs.declared.file_fault.FileFault.TheVariants.{NoMemory, Gone, TooLong, Device};
ghost use Rattle.sipd_reload.specs.declared.look.Look.TheVariants.{Nothing, Unsettled, Settled, Unread};
ghost use Rattle.sipd_reload.specs.declared.file_answer.FileAnswer.TheVariants.{Stamped, Gave};

/// A file that is written in pieces isn't offered before it stays as it is for a second. One that is put in the place of the old one is
/// offered a second later, though it has the same length and was changed at the same moment; one that changes endlessly never is.
pub fn half_written_example()
    ensures pieces { looks_over at_first
        (holds 1000 1 (codes "n") ∷ holds 2000 2 (codes "ne") ∷ holds 3000 3 (codes "new") ∷ holds 4000 3 (codes "new") ∷ [])
        ≡ Unsettled ∷ Unsettled ∷ Unsettled ∷ Settled (codes "new") ∷ [] }
    ensures replaced { looks_over at_first
        (holds 1000 1 (codes "old") ∷ holds 2000 1 (codes "old") ∷ other_holds 3000 1 (codes "new") ∷ other_holds 4000 1 (codes "new") ∷ [])
        ≡ Nothing ∷ Nothing ∷ Unsettled ∷ Settled (codes "new") ∷ [] }
    ensures endless { looks_over at_first
        (holds 1000 1 (codes "1") ∷ holds 2000 2 (codes "2") ∷ holds 3000 3 (codes "1") ∷ holds 4000 4 (codes "2") ∷ [])
        ≡ Unsettled ∷ Unsettled ∷ Unsettled ∷ Unsettled ∷ [] }
{}

/// A file that is gone is said to be gone once. If it is back with the same bytes, that is nothing; with others, they are offered a second
/// later, though they were seen before it was gone. The same bytes at another moment are nothing.
pub fn gone_and_back_example()
    ensures same { looks_over at_first
        (holds 1000 1 (codes "old") ∷ fails 2000 Gone ∷ fails 3000 Gone ∷ holds 4000 2 (codes "old") ∷ fails 5000 Gone ∷ [])
        ≡ Nothing ∷ Unread Gone ∷ Nothing ∷ Nothing ∷ Unread Gone ∷ [] }
    ensures other { looks_over at_first (holds 1000 1 (codes "new") ∷ fails 2000 Gone ∷ holds 3000 2 (codes "new") ∷ holds 4000 2 (codes "new") ∷ [])
        ≡ Unsettled ∷ Unread Gone ∷ Unsettled ∷ Settled (codes "new") ∷ [] }
    ensures touched { looks_over at_first (holds 1000 1 (codes "old") ∷ holds 2000 2 (codes "old") ∷ holds 3000 3 (codes "old") ∷ [])
        ≡ Nothing ∷ Nothing ∷ Nothing ∷ [] }
{}

/// What is taken isn't offered again, nor is what is refused, until the file held other bytes; what is neither is offered again.
pub fn offered_example()
    ensures taken { looks_over (with_taken at_first (codes "new"))
        (holds 1000 1 (codes "new") ∷ holds 2000 1 (codes "new") ∷ holds 3000 2 (codes "old") ∷ holds 4000 2 (codes "old") ∷ [])
        ≡ Nothing ∷ Nothing ∷ Unsettled ∷ Settled (codes "old") ∷ [] }
    ensures refused { looks_over (with_refused at_first (codes "bad"))
        (holds 1000 1 (codes "bad") ∷ holds 2000 2 (codes "bad") ∷ fails 3000 Gone ∷ holds 4000 3 (codes "bad") ∷ [])
        ≡ Nothing ∷ Nothing ∷ Unread Gone ∷ Nothing ∷ [] }
    ensures refused_again { looks_over (with_refused at_first (codes "bad"))
        (holds 1000 1 (codes "old") ∷ holds 2000 2 (codes "bad") ∷ holds 3000 2 (codes "bad") ∷ [])
        ≡ Nothing ∷ Unsettled ∷ Settled (codes "bad") ∷ [] }
    ensures neither { looks_over at_first
        (holds 1000 1 (codes "new") ∷ holds 2000 1 (codes "new") ∷ holds 3000 1 (codes "new") ∷ holds 4000 1 (codes "new") ∷ [])
        ≡ Unsettled ∷ Settled (codes "new") ∷ Unsettled ∷ Settled (codes "new") ∷ [] }
{}

/// Want of memory is told once, and leaves what is known: the next look that has some goes on. So is any other fault told once, until the
/// file could be read or fails in another way; what was seen once counts no more.
pub fn fault_example()
    ensures memory { looks_over at_first
        (holds 1000 1 (codes "new") ∷ holds_back 2000 1 NoMemory ∷ holds_back 3000 1 NoMemory ∷ holds 4000 1 (codes "new") ∷ [])
        ≡ Unsettled ∷ Unread NoMemory ∷ Nothing ∷ Settled (codes "new") ∷ [] }
    ensures device { looks_over at_first
        (holds_back 1000 1 Device ∷ holds_back 2000 1 Device ∷ fails 3000 TooLong ∷ fails 4000 TooLong ∷ fails 5000 Device ∷ [])
        ≡ Unread Device ∷ Nothing ∷ Unread TooLong ∷ Nothing ∷ Unread Device ∷ [] }
    ensures anew { looks_over at_first
        (holds 1000 1 (codes "new") ∷ holds_back 2000 1 Device ∷ holds 3000 1 (codes "new") ∷ holds 4000 1 (codes "new") ∷ [])
        ≡ Unsettled ∷ Unread Device ∷ Unsettled ∷ Settled (codes "new") ∷ [] }
{}

/// Within a second nothing is asked. A file that held what is in force at two looks under one stamp is asked for its stamp alone; under
/// another stamp, or while other bytes wait, it is read. A clock that is set back delays the next look by a second behind its moment.
pub fn moments_example()
    ensures early { asked_at at_first 999 (holds 999 1 (codes "new")).answers ≡ [] }
    ensures once { asked_at (behind_all at_first (holds 1000 1 (codes "old") ∷ [])) 2000 (holds 2000 1 (codes "old")).answers
        ≡ Stamped (Ok (stamp 1)) ∷ Gave (Ok (codes "old")) ∷ [] }
    ensures twice { asked_at (behind_all at_first (holds 1000 1 (codes "old") ∷ holds 2000 1 (codes "old") ∷ [])) 3000 (holds 3000 1 (codes "old")).answers
        ≡ Stamped (Ok (stamp 1)) ∷ [] }
    ensures changed { asked_at (behind_all at_first (holds 1000 1 (codes "old") ∷ holds 2000 1 (codes "old") ∷ [])) 3000 (holds 3000 2 (codes "old")).answers
        ≡ Stamped (Ok (stamp 2)) ∷ Gave (Ok (codes "old")) ∷ [] }
    ensures waiting { asked_at (behind_all at_first (holds 1000 1 (codes "new") ∷ [])) 2000 (holds 2000 1 (codes "new")).answers
        ≡ Stamped (Ok (stamp 1)) ∷ Gave (Ok (codes "new")) ∷ [] }
    ensures set_back { looks_over at_first
        (holds 9000 1 (codes "new") ∷ holds 5000 1 (codes "new") ∷ holds 5999 1 (codes "new") ∷ holds 6000 1 (codes "new") ∷ [])
        ≡ Unsettled ∷ Nothing ∷ Nothing ∷ Settled (codes "new") ∷ [] }
{}
