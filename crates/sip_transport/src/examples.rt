ghost use Rattle.std.specs.Prelude.{◌≡◌, ◌-◌, ◌^◌, ℕ, List, [], ◌∷◌, length, Some, None};
ghost use Rattle.sip_transport.specs.Told.{counted, most, IsWritable};
ghost use Rattle.sip_transport.specs.MemoryLink.{next_answer, next_sending, received};
ghost use Rattle.sip_transport.specs.MemoryClock.{reading_at, readings_of};
ghost use Rattle.sip_transport.specs.SteadyClock.{moment_after, behind_by};
ghost use Rattle.sip_transport.specs.Examples.{heard, here, two_datagrams, behind_four};
ghost use Rattle.sip_transport.specs.declared.datagram.SendOutcome.TheVariants.{Failed};

/// A link that is to hear two datagrams and fails at its second receive hears the first, fails, hears the second, then nothing;
/// its second send fails. Counts end at 2^64 - 1.
pub fn memory_link_example()
    ensures first { next_answer two_datagrams ≡ Ok (Some here) }
    ensures second { next_answer (received two_datagrams) ≡ Err (record {}) }
    ensures heard { behind_four.heard ≡ Some (heard 1) ∷ Some (heard 2) ∷ None ∷ [] }
    ensures held { behind_four.held ≡ 2 ∷ [] }
    ensures receives { behind_four.receives ≡ 4 }
    ensures failures { behind_four.failures ≡ 1 }
    ensures sends { next_sending two_datagrams ≡ Failed }
    ensures most { counted (2 ^ 64 - 1) ≡ 2 ^ 64 - 1 }
    ensures one_less { counted (2 ^ 64 - 2) ≡ 2 ^ 64 - 1 }
{}

/// A clock of the readings 5 and 7 gives these, then 7 again; one of none gives 0.
pub fn memory_clock_example()
    ensures readings { readings_of 0 (5 ∷ 7 ∷ []) 4 ≡ 5 ∷ 7 ∷ 7 ∷ 7 ∷ [] }
    ensures first { reading_at 0 (5 ∷ 7 ∷ []) 0 ≡ 5 }
    ensures last { reading_at 0 (5 ∷ 7 ∷ []) 3 ≡ 7 }
    ensures none { reading_at 0 [] 1 ≡ 0 }
{}

/// A datagram from any port but 0, and of at most 65,508 bytes, is one that a record can hold.
pub fn writable_example()
    ensures first_port { IsWritable (record here { port = 1 }) (1 ∷ []) }
    ensures nobody { ¬ IsWritable (record here { port = 0 }) (1 ∷ []) }
    ensures longest { (bytes : List ℕ) → length bytes ≡ 65508 → IsWritable here bytes }
    ensures longer { (bytes : List ℕ) → length bytes ≡ 65509 → ¬ IsWritable here bytes }
{}

/// A clock whose wall clock said 100 and whose least moment is 70 says 105 when 5 ms have passed. Where the wall clock said 70 and the
/// least moment is 100, or where it said nothing, that is the same, and it was 30 ms behind or nothing is known of that. Moments end
/// at 2^64 - 1.
pub fn steady_clock_example()
    ensures ahead { moment_after (Some 100) 70 5 ≡ 105 }
    ensures behind { moment_after (Some 70) 100 5 ≡ 105 }
    ensures unread { moment_after None 100 5 ≡ 105 }
    ensures last { moment_after (Some (2 ^ 64 - 3)) 0 5 ≡ 2 ^ 64 - 1 }
    ensures by_none { behind_by (Some 100) 70 ≡ 0 }
    ensures by { behind_by (Some 70) 100 ≡ 30 }
    ensures unknown { behind_by None 100 ≡ 0 }
{}
