ghost use Rattle.std.specs.Prelude.{◌≡◌, ◌<◌, ◌^◌, ℕ, List, Some};
ghost use Rattle.sip_edit.specs.declared.branch_id.BranchId.{BranchId};
ghost use Rattle.sip_edit.specs.BranchId.{branch_id_of};
ghost use Rattle.sip_edit.specs.OwnVia.{branch_text};

/// A branch of this server is read back as the numbers of which it was made, and no other text names them.
pub fn branches_are_read_back()
    ensures read { (boot number target : ℕ) → number < 2 ^ 64 → target < 2 ^ 32
        → branch_id_of boot (branch_text boot number target) ≡ Some (record { number = number; target = target }) }
    ensures written { (boot : ℕ) (text : List ℕ) (id : BranchId) → branch_id_of boot text ≡ Some id
        → text ≡ branch_text boot id.number id.target }
{}

/// Two equal branches of this server are of one datagram's request, and of one target of it.
pub fn branches_tell_apart()
    ensures { (boot number target other_number other_target : ℕ) → number < 2 ^ 64 → target < 2 ^ 32 → other_number < 2 ^ 64 → other_target < 2 ^ 32
        → branch_text boot number target ≡ branch_text boot other_number other_target → (number ≡ other_number) × (target ≡ other_target) }
{}
