//! Laws on what is read.

ghost use Rattle.std.specs.Prelude.{◌≡◌, ℕ, ◌≤◌, ◌<◌, List, ◌++◌, length, take, All, IsTrue};
ghost use Rattle.ia_inst.specs.Canonical.{valid_of};
ghost use Rattle.ia_inst.specs.Instructions.{decode_of};
ghost use Rattle.ia_inst.specs.declared.inst.Inst.{Inst};

/// What is read of bytes is a valid instruction.
pub fn read_is_valid()
    ensures { (bs : List ℕ) (i : Inst) (n : ℕ) → All (λ b. b < 256) bs → decode_of bs ≡ Some (i, n) → IsTrue (valid_of i) }
{}

/// What is read has 1 to 15 bytes, all of which are there.
pub fn encoding_length()
    ensures { (bs : List ℕ) (i : Inst) (n : ℕ) → decode_of bs ≡ Some (i, n) → (1 ≤ n) × (n ≤ 15) × (n ≤ length bs) }
{}

/// The first 15 bytes decide what is read.
pub fn fifteen_bytes_decide()
    ensures { (bytes : List ℕ) → decode_of (take 15 bytes) ≡ decode_of bytes }
{}

/// What is read is read again, whatever follows its bytes.
pub fn encoding_decides()
    ensures { (bs rest : List ℕ) (i : Inst) (n : ℕ) → decode_of bs ≡ Some (i, n) → decode_of (take n bs ++ rest) ≡ Some (i, n) }
{}
