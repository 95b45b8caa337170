//! Bytes of the sequences, written out by hand from the manual.
use crate::{capture, island, restore, spill};
use ia_encode::{Dest, Item, Piece, encode};
use ia_inst::valid;
use std::test::Fail;

/// The bytes of a piece's items; those of a jump without its distance.
fn bytes_of(rt: &HostRuntime, piece: &Piece) -> Result<Vec<u8>, Fail> {
    let mut bytes = Vec::new(rt.alloc());
    for item in piece.items() {
        match *item {
            Item::Inst(inst) => {
                if !valid(&inst) {
                    return Err("no encoding".into());
                }
                let mut out = [0; 15];
                let length = encode(&inst, &mut out);
                bytes.extend_from_slice(&out[..length as usize])?;
            }
            Item::Byte(byte) => bytes.push(byte)?,
            Item::Jump { cond: Some(4), .. } => bytes.extend_from_slice(&[0x0f, 0x84, 0, 0, 0, 0])?,
            Item::Jump { cond: None, .. } => bytes.extend_from_slice(&[0xe9, 0, 0, 0, 0])?,
            Item::Jump { .. } => return Err("another condition".into()),
            Item::Label(_) => {}
        }
    }
    Ok(bytes)
}

/// mov of each register to its slot, setb, setp, sete, sets and seto of slots 8 to 12, and mov of three slots to their homes.
const CAPTURE: [u8; 101] = [
    0x89, 0x05, 0x00, 0x00, 0x00, 0x07, // mov [0x07000000],eax
    0x89, 0x0d, 0x04, 0x00, 0x00, 0x07, // mov [0x07000004],ecx
    0x89, 0x15, 0x08, 0x00, 0x00, 0x07, // mov [0x07000008],edx
    0x89, 0x1d, 0x0c, 0x00, 0x00, 0x07, // mov [0x0700000c],ebx
    0x89, 0x25, 0x10, 0x00, 0x00, 0x07, // mov [0x07000010],esp
    0x89, 0x2d, 0x14, 0x00, 0x00, 0x07, // mov [0x07000014],ebp
    0x89, 0x35, 0x18, 0x00, 0x00, 0x07, // mov [0x07000018],esi
    0x89, 0x3d, 0x1c, 0x00, 0x00, 0x07, // mov [0x0700001c],edi
    0x0f, 0x92, 0x05, 0x20, 0x00, 0x00, 0x07, // setb [0x07000020]
    0x0f, 0x9a, 0x05, 0x24, 0x00, 0x00, 0x07, // setp [0x07000024]
    0x0f, 0x94, 0x05, 0x28, 0x00, 0x00, 0x07, // sete [0x07000028]
    0x0f, 0x98, 0x05, 0x2c, 0x00, 0x00, 0x07, // sets [0x0700002c]
    0x0f, 0x90, 0x05, 0x30, 0x00, 0x00, 0x07, // seto [0x07000030]
    0x8b, 0x2d, 0x10, 0x00, 0x00, 0x07, // mov ebp,[0x07000010]
    0x8b, 0x1d, 0x00, 0x00, 0x00, 0x07, // mov ebx,[0x07000000]
    0x8b, 0x35, 0x14, 0x00, 0x00, 0x07, // mov esi,[0x07000014]
];

const SPILL: [u8; 18] = [
    0x89, 0x2d, 0x10, 0x00, 0x00, 0x07, // mov [0x07000010],ebp
    0x89, 0x1d, 0x00, 0x00, 0x00, 0x07, // mov [0x07000000],ebx
    0x89, 0x35, 0x14, 0x00, 0x00, 0x07, // mov [0x07000014],esi
];

const RESTORE: [u8; 118] = [
    0xfc, // cld
    0x8b, 0x05, 0x34, 0x00, 0x00, 0x07, // mov eax,[0x07000034]
    0x85, 0xc0, // test eax,eax
    0x0f, 0x84, 0x00, 0x00, 0x00, 0x00, // je, behind the next
    0xfd, // std
    0x8b, 0x05, 0x20, 0x00, 0x00, 0x07, // mov eax,[0x07000020]
    0x8b, 0x0d, 0x24, 0x00, 0x00, 0x07, // mov ecx,[0x07000024]
    0xc1, 0xe1, 0x02, // shl ecx,2
    0x09, 0xc8, // or eax,ecx
    0x8b, 0x0d, 0x28, 0x00, 0x00, 0x07, // mov ecx,[0x07000028]
    0xc1, 0xe1, 0x06, // shl ecx,6
    0x09, 0xc8, // or eax,ecx
    0x8b, 0x0d, 0x2c, 0x00, 0x00, 0x07, // mov ecx,[0x0700002c]
    0xc1, 0xe1, 0x07, // shl ecx,7
    0x09, 0xc8, // or eax,ecx
    0xc1, 0xe0, 0x08, // shl eax,8
    0x8b, 0x0d, 0x30, 0x00, 0x00, 0x07, // mov ecx,[0x07000030]
    0x09, 0xc8, // or eax,ecx
    0x80, 0xc0, 0x7f, // add al,0x7f
    0x9e, // sahf
    0x8b, 0x0d, 0x04, 0x00, 0x00, 0x07, // mov ecx,[0x07000004]
    0x8b, 0x15, 0x08, 0x00, 0x00, 0x07, // mov edx,[0x07000008]
    0x8b, 0x1d, 0x0c, 0x00, 0x00, 0x07, // mov ebx,[0x0700000c]
    0x8b, 0x25, 0x10, 0x00, 0x00, 0x07, // mov esp,[0x07000010]
    0x8b, 0x2d, 0x14, 0x00, 0x00, 0x07, // mov ebp,[0x07000014]
    0x8b, 0x35, 0x18, 0x00, 0x00, 0x07, // mov esi,[0x07000018]
    0x8b, 0x3d, 0x1c, 0x00, 0x00, 0x07, // mov edi,[0x0700001c]
    0x8b, 0x05, 0x00, 0x00, 0x00, 0x07, // mov eax,[0x07000000]
];

#[test]
fn capture_stores_registers_and_flags_and_loads_the_homes(rt: HostRuntime) -> Result<(), Fail> {
    let mut piece = Piece::new(rt.alloc());
    capture(&mut piece)?;
    assert!(rt; bytes_of(&rt, &piece)?.as_slice() == CAPTURE.as_slice());
    Ok(())
}

#[test]
fn spill_stores_the_homes(rt: HostRuntime) -> Result<(), Fail> {
    let mut piece = Piece::new(rt.alloc());
    spill(&mut piece)?;
    assert!(rt; bytes_of(&rt, &piece)?.as_slice() == SPILL.as_slice());
    Ok(())
}

#[test]
fn restore_loads_flags_and_registers(rt: HostRuntime) -> Result<(), Fail> {
    let mut piece = Piece::new(rt.alloc());
    restore(&mut piece, 9)?;
    assert!(rt; bytes_of(&rt, &piece)?.as_slice() == RESTORE.as_slice());
    // The jump leads behind std, where its label stands.
    let items = piece.items();
    let past = Item::Jump {
        cond: Some(4),
        to: Dest::Label(9),
    };
    assert!(rt; items.len() > 6 && items[3] == past && items[5] == Item::Label(9));
    Ok(())
}

#[test]
fn island_has_its_bytes_between(rt: HostRuntime) -> Result<(), Fail> {
    let mut piece = Piece::new(rt.alloc());
    island(&mut piece, &[0xcd, 0x80], Dest::Original(0x0804_8002), 9)?;
    let mut bytes = SPILL.to_vec(rt.alloc())?;
    bytes.extend_from_slice(&RESTORE)?;
    bytes.extend_from_slice(&[0xcd, 0x80])?;
    bytes.extend_from_slice(&CAPTURE)?;
    bytes.extend_from_slice(&[0xe9, 0, 0, 0, 0])?;
    assert!(rt; bytes.len() == 244);
    assert!(rt; bytes_of(&rt, &piece)?.as_slice() == bytes.as_slice());
    let items = piece.items();
    let next = Item::Jump {
        cond: None,
        to: Dest::Original(0x0804_8002),
    };
    assert!(rt; items.last() == Some(&next));
    Ok(())
}
