use crate::decode;
use ia_inst::{Addr, Inst, Rm, Src, Width};

#[test]
fn reads_and_refuses(rt: HostRuntime) {
    let add = Inst::Alu {
        op: 0,
        w: Width::B32,
        dst: Rm::Reg(0),
        src: Src::Imm(0xffff_ffff),
    };
    assert!(rt; decode(&[0x83, 0xc0, 0xff]) == Some((add, 3)));
    assert!(rt; decode(&[0x82, 0xc0, 0x01]) == None);
    assert!(rt; decode(&[0x8d, 0xc0]) == None);
    assert!(rt; decode(&[0x66, 0x90]) == Some((Inst::Nop, 2)));
    let addr = Addr {
        base: Some(6),
        index: None,
        disp: 0,
    };
    let lea = Inst::Lea {
        w: Width::B32,
        dst: 6,
        addr,
    };
    assert!(rt; decode(&[0x2e, 0x8d, 0xb4, 0x26, 0, 0, 0, 0]) == Some((lea, 8)));
    assert!(rt; decode(&[0xf3, 0x0f, 0x1e, 0xfb]) == Some((Inst::Nop, 4)));
    let mut long = [0x66; 16];
    long[12] = 0x0f;
    long[13] = 0x1f;
    long[14] = 0;
    assert!(rt; decode(&long) == Some((Inst::Nop, 15)));
    let mut longer = [0x66; 16];
    longer[13] = 0x0f;
    longer[14] = 0x1f;
    longer[15] = 0;
    assert!(rt; decode(&longer) == None);
    assert!(rt; decode(&[]) == None);
}
