//! Laws on what is written.

ghost use Rattle.std.specs.Prelude.{◌≡◌, ℕ, List, ◌++◌, length, IsTrue};
ghost use Rattle.ia_inst.specs.Canonical.{valid_of, canonical};
ghost use Rattle.ia_inst.specs.Instructions.{decode_of};
ghost use Rattle.ia_inst.specs.declared.inst.Inst.{Inst};
ghost use Rattle.ia_inst.specs.declared.inst.Inst.TheVariants.{Jcc, Jmp, Call};
ghost use Rattle.ia_encode.specs.Items.{ItemsStand, BytesRead};

use ia_decode::encoding_decides;

/// What is written is read as the instruction, whatever bytes follow.
pub fn round_trip()
    ensures { (i : Inst) (rest : List ℕ) → IsTrue (valid_of i) → decode_of (canonical i ++ rest) ≡ Some (i, length (canonical i)) }
{}

/// The length of a direct jump or call does not depend on its distance.
pub fn direct_lengths()
    ensures jcc { (cond distance : ℕ) → length (canonical (Jcc cond distance)) ≡ 6 }
    ensures jmp { (distance : ℕ) → length (canonical (Jmp distance)) ≡ 5 }
    ensures call { (distance : ℕ) → length (canonical (Call distance)) ≡ 5 }
{}

/// Items whose bytes lie in code stand there: each instruction is read at its address, each jump leads to its destination, and each
/// label names the address of what follows it.
pub fn items_stand()
    ensures { ItemsStand }
{}

/// The bytes of an instruction that are put one by one are read as that instruction, whatever follows.
pub fn bytes_read()
    ensures { BytesRead }
{
    encoding_decides();
}
