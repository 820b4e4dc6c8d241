//! Worked examples, as contracts that compute.
ghost use Rattle.std.specs.Prelude.{◌≡◌, [], ◌∷◌, codes, true, false, Some, None};
ghost use Rattle.sipd_status.specs.Examples.{few, many, mixed, mixed_lines, numbers, numbers_text, odd, status_of_process};
ghost use Rattle.sipd_status.specs.Memory.{memory_said};
ghost use Rattle.sipd_status.specs.Numbers.{status_text};
ghost use Rattle.sipd_status.specs.Tries.{lines_of};

/// The text of some numbers, without a record and where the memory isn't known.
pub fn text_example()
    ensures { status_text numbers ≡ numbers_text }
{}

/// Who is told: a source that gave three wrong passwords; not one that gave two, and none that gave a right one, too.
pub fn told_example()
    ensures told { lines_of (many false ∷ []) ≡ codes "sipd: 192.0.2.151 gave 12 wrong passwords for grace, none right\n" }
    ensures right { lines_of (many true ∷ []) ≡ [] }
    ensures few { lines_of (few ∷ []) ≡ [] }
    ensures odd { lines_of (odd ∷ []) ≡ codes "sipd: 192.0.2.151 gave 3 wrong passwords for a name that is none, none right\n" }
    ensures mixed { lines_of mixed ≡ mixed_lines }
{}

/// What the kernel says of a process.
pub fn memory_example()
    ensures said { memory_said status_of_process ≡ Some 9437184 }
    ensures unsaid { memory_said (codes "Name:\tsipd\n") ≡ None }
{}
