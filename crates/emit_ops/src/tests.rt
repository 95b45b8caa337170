//! Bytes of each template and of each form of a move, written out by hand from the manual.
ghost use Rattle.std.specs.Prelude.{IfOk};
ghost use Rattle.emit_ops.specs.Placed.{HasPlace};
ghost use Rattle.par_moves.specs.Locations.{InRange, IsFit};

use crate::{emit_line, emit_move};
use ia_encode::{Item, Piece, encode};
use ia_inst::valid;
use par_moves::{MoveSource, Place, PlaceMove};
use ssa_form::{BinOp, Line, OneOp, Val, Width};
use std::alloc::{AllocError, Global};
use std::test::Fail;

/// The bytes of a piece of instructions.
fn bytes_of(rt: &HostRuntime, piece: &Piece) -> Result<Vec<u8>, Fail> {
    let mut bytes = Vec::new(rt.alloc());
    for item in piece.items() {
        match *item {
            Item::Inst(inst) => {
                if !valid(&inst) {
                    return Err("no encoding".into());
                }
                let mut out = [0; 15];
                let length = encode(&inst, &mut out);
                bytes.extend_from_slice(&out[..length as usize])?;
            }
            _ => return Err("no instruction".into()),
        }
    }
    Ok(bytes)
}

/// Line 0 in slot 17, and line 1 in edi.
fn places(alloc: Global) -> Result<Vec<Option<Place>>, AllocError>
    ensures { IfOk result (λ v. HasPlace v.items 0 × HasPlace v.items 1) }
{
    Ok(vec![in alloc; Some(Place::Slot(17)), Some(Place::Reg(7))]?)
}

/// Whether a line over edx's and ecx's homes and numbers has these bytes, between the load of its operand from slot 2 and the store
/// to slot 17.
fn is_bin(rt: &HostRuntime, op: BinOp, middle: &[u8]) -> Result<bool, Fail> {
    let places = places(rt.alloc())?;
    let line = Line::Bin {
        op,
        a: Val::Param(2),
        b: Val::Param(1),
    };
    let mut piece = Piece::new(rt.alloc());
    emit_line(&mut piece, &line, 0, places.as_slice())?;
    is_between(rt, &piece, middle)
}

/// Whether these bytes stand between a load of eax from slot 2 and its store to slot 17.
fn is_between(rt: &HostRuntime, piece: &Piece, middle: &[u8]) -> Result<bool, Fail> {
    let mut all = vec![in rt.alloc(); 0x8b, 0x05, 0x08, 0x00, 0x00, 0x07]?;
    all.extend_from_slice(middle)?;
    all.extend_from_slice(&[0x89, 0x05, 0x44, 0x00, 0x00, 0x07])?;
    Ok(bytes_of(rt, piece)?.as_slice() == all.as_slice())
}

#[test]
fn operations_of_eax(rt: HostRuntime) -> Result<(), Fail> {
    // add, sub, and, or, xor eax,[0x07000004]
    assert!(rt; is_bin(&rt, BinOp::Add, &[0x03, 0x05, 0x04, 0x00, 0x00, 0x07])?);
    assert!(rt; is_bin(&rt, BinOp::Sub, &[0x2b, 0x05, 0x04, 0x00, 0x00, 0x07])?);
    assert!(rt; is_bin(&rt, BinOp::And, &[0x23, 0x05, 0x04, 0x00, 0x00, 0x07])?);
    assert!(rt; is_bin(&rt, BinOp::Or, &[0x0b, 0x05, 0x04, 0x00, 0x00, 0x07])?);
    assert!(rt; is_bin(&rt, BinOp::Xor, &[0x33, 0x05, 0x04, 0x00, 0x00, 0x07])?);
    Ok(())
}

#[test]
fn products_and_shifts(rt: HostRuntime) -> Result<(), Fail> {
    // mov ecx,[0x07000004]; imul eax,ecx
    assert!(rt;
        is_bin(
            &rt,
            BinOp::Mul,
            &[0x8b, 0x0d, 0x04, 0x00, 0x00, 0x07, 0x0f, 0xaf, 0xc1]
        )?
    );
    // and mov eax,0; seto al
    let over = [
        0x8b, 0x0d, 0x04, 0x00, 0x00, 0x07, 0x0f, 0xaf, 0xc1, 0xb8, 0x00, 0x00, 0x00, 0x00, 0x0f,
        0x90, 0xc0,
    ];
    assert!(rt; is_bin(&rt, BinOp::MulOver, &over)?);
    // mov ecx,[0x07000004]; shl, shr, sar eax,cl
    assert!(rt;
        is_bin(
            &rt,
            BinOp::Shl,
            &[0x8b, 0x0d, 0x04, 0x00, 0x00, 0x07, 0xd3, 0xe0]
        )?
    );
    assert!(rt;
        is_bin(
            &rt,
            BinOp::Shr,
            &[0x8b, 0x0d, 0x04, 0x00, 0x00, 0x07, 0xd3, 0xe8]
        )?
    );
    assert!(rt;
        is_bin(
            &rt,
            BinOp::Sar,
            &[0x8b, 0x0d, 0x04, 0x00, 0x00, 0x07, 0xd3, 0xf8]
        )?
    );
    Ok(())
}

#[test]
fn comparisons(rt: HostRuntime) -> Result<(), Fail> {
    // cmp eax,[0x07000004]; mov eax,0; sete al
    let same = [
        0x3b, 0x05, 0x04, 0x00, 0x00, 0x07, 0xb8, 0x00, 0x00, 0x00, 0x00, 0x0f, 0x94, 0xc0,
    ];
    assert!(rt; is_bin(&rt, BinOp::Eq, &same)?);
    // setb al
    let below = [
        0x3b, 0x05, 0x04, 0x00, 0x00, 0x07, 0xb8, 0x00, 0x00, 0x00, 0x00, 0x0f, 0x92, 0xc0,
    ];
    assert!(rt; is_bin(&rt, BinOp::Ult, &below)?);
    Ok(())
}

/// Whether a line of one operand has these bytes between its load and its store.
fn is_one(rt: &HostRuntime, op: OneOp, middle: &[u8]) -> Result<bool, Fail> {
    let places = places(rt.alloc())?;
    let line = Line::One {
        op,
        a: Val::Param(2),
    };
    let mut piece = Piece::new(rt.alloc());
    emit_line(&mut piece, &line, 0, places.as_slice())?;
    is_between(rt, &piece, middle)
}

#[test]
fn operators_of_one(rt: HostRuntime) -> Result<(), Fail> {
    // test al,al; mov eax,0; setp al
    let parity = [0x84, 0xc0, 0xb8, 0x00, 0x00, 0x00, 0x00, 0x0f, 0x9a, 0xc0];
    assert!(rt; is_one(&rt, OneOp::Parity, &parity)?);
    // movsx eax,al; movsx eax,ax
    assert!(rt; is_one(&rt, OneOp::Sext8, &[0x0f, 0xbe, 0xc0])?);
    assert!(rt; is_one(&rt, OneOp::Sext16, &[0x0f, 0xbf, 0xc0])?);
    Ok(())
}

#[test]
fn choices(rt: HostRuntime) -> Result<(), Fail> {
    let places = places(rt.alloc())?;
    let line = Line::Select {
        c: Val::Param(2),
        a: Val::Line(1),
        b: Val::Num(5),
    };
    let mut piece = Piece::new(rt.alloc());
    emit_line(&mut piece, &line, 0, places.as_slice())?;
    // test eax,eax; mov eax,5; mov ecx,edi; cmovne eax,ecx
    let middle = [
        0x85, 0xc0, 0xb8, 0x05, 0x00, 0x00, 0x00, 0x89, 0xf9, 0x0f, 0x45, 0xc1,
    ];
    assert!(rt; is_between(&rt, &piece, &middle)?);
    Ok(())
}

/// Whether a load of this width has these bytes between the load of its address and the store of its result.
fn is_load(rt: &HostRuntime, w: Width, middle: &[u8]) -> Result<bool, Fail> {
    let places = places(rt.alloc())?;
    let line = Line::Load {
        w,
        at: Val::Param(2),
    };
    let mut piece = Piece::new(rt.alloc());
    emit_line(&mut piece, &line, 0, places.as_slice())?;
    is_between(rt, &piece, middle)
}

/// Whether a store of this width has these bytes behind the loads of address and number.
fn is_store(rt: &HostRuntime, w: Width, last: &[u8]) -> Result<bool, Fail> {
    let places = places(rt.alloc())?;
    let line = Line::Store {
        w,
        at: Val::Param(2),
        a: Val::Line(0),
    };
    let mut piece = Piece::new(rt.alloc());
    emit_line(&mut piece, &line, 1, places.as_slice())?;
    // mov eax,[0x07000008]; mov ecx,[0x07000044]
    let mut all = vec![in rt.alloc(); 0x8b, 0x05, 0x08, 0x00, 0x00, 0x07]?;
    all.extend_from_slice(&[0x8b, 0x0d, 0x44, 0x00, 0x00, 0x07])?;
    all.extend_from_slice(last)?;
    Ok(bytes_of(rt, &piece)?.as_slice() == all.as_slice())
}

#[test]
fn loads_and_stores(rt: HostRuntime) -> Result<(), Fail> {
    // movzx eax,byte [eax]; movzx eax,word [eax]; mov eax,[eax]
    assert!(rt; is_load(&rt, Width::B8, &[0x0f, 0xb6, 0x00])?);
    assert!(rt; is_load(&rt, Width::B16, &[0x0f, 0xb7, 0x00])?);
    assert!(rt; is_load(&rt, Width::B32, &[0x8b, 0x00])?);
    // mov [eax],cl; mov [eax],cx; mov [eax],ecx
    assert!(rt; is_store(&rt, Width::B8, &[0x88, 0x08])?);
    assert!(rt; is_store(&rt, Width::B16, &[0x66, 0x89, 0x08])?);
    assert!(rt; is_store(&rt, Width::B32, &[0x89, 0x08])?);
    Ok(())
}

#[test]
fn operands_in_registers(rt: HostRuntime) -> Result<(), Fail> {
    let places = places(rt.alloc())?;
    let line = Line::Bin {
        op: BinOp::Add,
        a: Val::Param(0),
        b: Val::Param(4),
    };
    let mut piece = Piece::new(rt.alloc());
    emit_line(&mut piece, &line, 1, places.as_slice())?;
    // mov eax,ebx; add eax,ebp; mov edi,eax
    assert!(rt;
        bytes_of(&rt, &piece)?.as_slice() == [0x89, 0xd8, 0x01, 0xe8, 0x89, 0xc7].as_slice()
    );
    Ok(())
}

#[test]
fn a_line_that_was_taken_away_has_no_code(rt: HostRuntime) -> Result<(), Fail> {
    let mut piece = Piece::new(rt.alloc());
    emit_line(&mut piece, &Line::Gone, 0, &[])?;
    assert!(rt; piece.items().is_empty());
    Ok(())
}

/// Whether a move has these bytes. Slots are below 100 and registers below 8.
fn is_move(rt: &HostRuntime, m: PlaceMove, bytes: &[u8]) -> Result<bool, Fail>
    requires to { InRange m.to }
    requires from { IsFit m.from }
{
    let mut piece = Piece::new(rt.alloc());
    emit_move(&mut piece, &m)?;
    Ok(bytes_of(rt, &piece)?.as_slice() == bytes)
}

#[test]
fn moves(rt: HostRuntime) -> Result<(), Fail> {
    let slot = MoveSource::Place(Place::Slot(1));
    let register = MoveSource::Place(Place::Reg(7));
    let number = MoveSource::Num(5);
    // mov ebx,[0x07000004]
    let m = PlaceMove {
        to: Place::Reg(3),
        from: slot,
    };
    assert!(rt; is_move(&rt, m, &[0x8b, 0x1d, 0x04, 0x00, 0x00, 0x07])?);
    // mov ebx,edi
    let m = PlaceMove {
        to: Place::Reg(3),
        from: register,
    };
    assert!(rt; is_move(&rt, m, &[0x89, 0xfb])?);
    // mov dword [0x07000008],5
    let m = PlaceMove {
        to: Place::Slot(2),
        from: number,
    };
    assert!(rt;
        is_move(
            &rt,
            m,
            &[0xc7, 0x05, 0x08, 0x00, 0x00, 0x07, 0x05, 0x00, 0x00, 0x00]
        )?
    );
    // mov [0x07000008],edi
    let m = PlaceMove {
        to: Place::Slot(2),
        from: register,
    };
    assert!(rt; is_move(&rt, m, &[0x89, 0x3d, 0x08, 0x00, 0x00, 0x07])?);
    // mov eax,[0x07000004]; mov [0x07000008],eax
    let m = PlaceMove {
        to: Place::Slot(2),
        from: slot,
    };
    let two = [
        0x8b, 0x05, 0x04, 0x00, 0x00, 0x07, 0x89, 0x05, 0x08, 0x00, 0x00, 0x07,
    ];
    assert!(rt; is_move(&rt, m, &two)?);
    Ok(())
}
