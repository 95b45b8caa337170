//! Laws of recovered code: what its sequences and templates do in the machine's own runs. Each is the contract of a call that does
//! nothing, so that a proof above can cite it, and speaks of every list of choices and of every address at which the code stands.
#![tactic(auto)]

ghost use Rattle.std.specs.Prelude.{ℕ, Bool, List};
ghost use Rattle.br_word.specs.State.{State};
ghost use Rattle.br_word.specs.Memory.{Region};
ghost use Rattle.code_laws.specs.Seen.{Cells, IsCode, Sees};
ghost use Rattle.ia_encode.specs.declared.item.Dest.{Dest};
ghost use Rattle.par_moves.specs.Homes.{AreHomes, home_of};
ghost use Rattle.code_laws.specs.Exchange.{Homes, FlagsHeld};
ghost use Rattle.code_laws.specs.Laws.{ExchangeKeeps, TemplateMeans, OwnFound, IslandKeeps, StartSeen, JumpsLead, TestsMean};
ghost use Rattle.par_moves.specs.declared.locations.Place.{Place};
ghost use Rattle.code_laws.specs.Moves.{AreOuts, HomesApart, MayBeGiven, MovesHold, MovesSettle};
ghost use Rattle.emit_ops.specs.Sequences.{live_moves};
ghost use Rattle.code_laws.specs.Placed.{HomesServe, Laid, LinesHold};
ghost use Rattle.ssa_form.specs.declared.form.Val.{Val};
ghost use Rattle.code_laws.specs.Valid.{CodeValid};

/// Capture, restore, and the opening and closing of a native instruction exchange the virtual and
/// the real registers, whichever virtual registers live in registers.
pub fn exchange_keeps()
    ensures { (code : Region) (homes : Homes) (dest : Dest → ℕ) → IsCode code → AreHomes homes →
        (s : State) (a : Cells) (cs : List ℕ) → Sees code s a → FlagsHeld a → ExchangeKeeps code homes dest s a cs }
{}

/// The code of a line, and of a move, gives its place the line's value or does its store, and changes
/// besides only eax, ecx, flags and eip.
pub fn template_means()
    ensures { (code : Region) (s : State) (a : Cells) (to : ℕ) (cs : List ℕ) → IsCode code → Sees code s a → TemplateMeans code s a to cs }
{}

/// The code of a list of lines, each in its place, leaves the values of their fold, wherever it stands.
pub fn lines_hold()
    ensures { (code : Region) (limit : ℕ) (home place : ℕ → Place) (last : ℕ → Bool) → IsCode code → Laid limit home place →
        LinesHold code limit home place last }
{
    run_model::memory_of_bytes();
}

/// The own bytes of a native instruction are found as it.
pub fn own_found()
    ensures { OwnFound }
{
    ia_encode::bytes_read();
}

/// A native instruction between the two exchanges: it begins from the virtual registers, and the
/// virtual registers are what it came to.
pub fn island_keeps()
    ensures { IslandKeeps }
{}

/// A running state with a private segment of zeros is seen.
pub fn start_seen()
    ensures { StartSeen }
{}

/// A jump changes eip alone.
pub fn jumps_lead()
    ensures { (code : Region) (dest : Dest → ℕ) → IsCode code → JumpsLead code dest }
{}

/// The code of a list of moves does them one after another.
pub fn moves_hold()
    ensures { (code : Region) → IsCode code → MovesHold code }
{}

/// The moves on the way to another block may be given to `sequence`, and their code puts the operand of each live register's out, read
/// before the moves, into its home, and leaves each other home and place. Before a side exit every register is live.
pub fn moves_settle()
    ensures given { (limit : ℕ) (home place : ℕ → Place) (live : ℕ → Bool) (outs : List Val) → HomesApart home → AreOuts limit outs →
        MayBeGiven (live_moves home place live 0 outs) }
    ensures settled { (code : Region) (limit : ℕ) (home place : ℕ → Place) → IsCode code → Laid limit home place → HomesApart home →
        MovesSettle code limit home place }
{
    par_moves::moves_at_once();
}

/// The code of lines, moves and native instructions is valid, with each label once; and its sizes.
pub fn code_valid()
    ensures { CodeValid }
{}

/// The tests before conditional jumps set ZF and keep all places.
pub fn tests_mean()
    ensures { (code : Region) (s : State) (a : Cells) (to : ℕ) (cs : List ℕ) → IsCode code → Sees code s a → TestsMean code s a to cs }
{}

/// The homes of virtual registers serve the lines of every block, each in a place of lines, and the moves to another block.
pub fn homes_serve()
    ensures lines { HomesServe }
    ensures moves { HomesApart home_of }
{
    reg_place::places_lie();
}
