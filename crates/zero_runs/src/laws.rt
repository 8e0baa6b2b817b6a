//! What packing and unpacking mean for each other.
ghost use Rattle.std.specs.Prelude.{◌≡◌, ℕ, List, [], ◌∷◌, ◌++◌, Ok, replicate, length, ◌≢◌, ◌*◌, ◌≤◌};
ghost use Rattle.zero_runs.specs.Packing.{xored, run, packed};
ghost use Rattle.zero_runs.specs.Unpacking.{expand, unpacked};
ghost use Rattle.zero_runs.specs.Laws.{without_last_zeros};

/// States the laws of `pack` and `unpack`, for all lists; the call does nothing.
pub fn unpack_inverts_pack()
    // What was packed over some bytes is unpacked over the same bytes.
    ensures inverts { (new old : List ℕ) → unpacked (packed (xored new old)) old (length new) ≡ Ok new }
    ensures trims { (xs : List ℕ) → expand (packed xs) ≡ Ok (without_last_zeros xs) }

    // A list is zeros alone, or zeros, another byte and a list: these two say what is packed.
    ensures zeros { (n : ℕ) → packed (replicate n 0) ≡ [] }
    ensures other { (n byte : ℕ) (xs : List ℕ) → byte ≢ 0
        → packed (replicate n 0 ++ byte ∷ xs) ≡ run n ++ byte ∷ packed xs }
    ensures short { (xs : List ℕ) → length (packed xs) ≤ 2 * length xs }
{}
