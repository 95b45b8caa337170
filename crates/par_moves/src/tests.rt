//! Orders of moves, worked out by hand.
ghost use Rattle.std.specs.Prelude.{◌≡◌, false, All};
ghost use Rattle.par_moves.specs.declared.locations.Place.TheVariants.{Slot};
ghost use Rattle.par_moves.specs.declared.locations.MoveSource.TheVariants.{Place as Of};
ghost use Rattle.par_moves.specs.Locations.{same_place, spare};
ghost use Rattle.par_moves.specs.Moves.{AreApart};

use crate::{MoveSource, Place, PlaceMove, operand, register_homes, sequence, source};
use ia_inst::{Addr, Rm, Src};
use std::test::Fail;

/// A move from slot to slot.
fn slot(to: u32, from: u32) -> PlaceMove
    ensures { result ≡ record { to = Slot to; from = Of (Slot from) } }
{
    PlaceMove {
        to: Place::Slot(to),
        from: MoveSource::Place(Place::Slot(from)),
    }
}

/// Whether these moves are done in this order.
fn is_order(rt: &HostRuntime, moves: &[PlaceMove], order: &[PlaceMove]) -> bool
    requires apart { AreApart moves.now }
    requires to_spare { All (λ m. same_place m.to spare ≡ false) moves.now }
{
    match sequence(rt.alloc(), moves) {
        Ok(done) => done.as_slice() == order,
        Err(_) => false,
    }
}

#[test]
#[tactic(auto, using(crate::proofs::Distinct::apart_of, crate::proofs::Distinct::spare_of))]
fn orders_moves(rt: HostRuntime) {
    assert!(rt; is_order(&rt, &[], &[]));
    // A swap goes through the spare.
    let swap = [slot(0, 1), slot(1, 0)];
    assert!(rt; is_order(&rt, &swap, &[slot(16, 0), slot(0, 1), slot(1, 16)]));
    // So does a cycle of three.
    let cycle = [slot(0, 1), slot(1, 2), slot(2, 0)];
    assert!(rt;
        is_order(
            &rt,
            &cycle,
            &[slot(16, 0), slot(0, 1), slot(1, 2), slot(2, 16)]
        )
    );
    // Of a chain the last place is read first.
    let chain = [slot(1, 0), slot(2, 1), slot(3, 2)];
    assert!(rt; is_order(&rt, &chain, &[slot(3, 2), slot(2, 1), slot(1, 0)]));
    // Two moves from one source stay in order.
    let twice = [slot(1, 0), slot(2, 0)];
    assert!(rt; is_order(&rt, &twice, &[slot(1, 0), slot(2, 0)]));
}

#[test]
#[tactic(auto, using(crate::proofs::Distinct::apart_of, crate::proofs::Distinct::spare_of))]
fn moves_registers_and_numbers(rt: HostRuntime) {
    let to_register = PlaceMove {
        to: Place::Reg(3),
        from: MoveSource::Place(Place::Slot(0)),
    };
    let number = PlaceMove {
        to: Place::Slot(0),
        from: MoveSource::Num(7),
    };
    // The number waits until the slot was read.
    assert!(rt; is_order(&rt, &[number, to_register], &[to_register, number]));
}

#[test]
fn slots_are_words_of_the_private_segment(rt: HostRuntime) {
    let word = Rm::Mem(Addr {
        base: None,
        index: None,
        disp: 0x0700_0040,
    });
    assert!(rt; operand(Place::Slot(16)) == word);
    assert!(rt; source(MoveSource::Place(Place::Slot(16))) == Src::Rm(word));
    assert!(rt; source(MoveSource::Num(5)) == Src::Imm(5));
    assert!(rt; operand(Place::Reg(3)) == Rm::Reg(3));
}

#[test]
fn homes_in_the_order_of_their_loads(rt: HostRuntime) {
    // mov ebp,slot 4; mov ebx,slot 0; mov esi,slot 5
    let homes = register_homes();
    assert!(rt; homes.len() == 3);
    let registers = [homes[0].register, homes[1].register, homes[2].register];
    let slots = [homes[0].slot, homes[1].slot, homes[2].slot];
    assert!(rt; registers == [5, 3, 6] && slots == [4, 0, 5]);
}
