//! The effects that are easiest to get wrong, by hand from the manual (SDM volume 2).

ghost use Rattle.std.specs.Prelude.{IfOk};
ghost use Rattle.elf_read.specs.Elf.{IsGuest};

use super::*;
use br_word::{Perms, ShiftOp, Width};
use elf_read::{Bytes, Exe, Segment, Segments};
use ia_inst::{Addr, Count, Rm, valid};
use std::alloc::{AllocError, Global};
use std::test::Fail;

const CODE: u32 = 0x0804_8000;

const DATA: u32 = 0x0804_9000;

// A guest with 12 bytes that can be written, behind one of code.
fn guest(alloc: Global) -> Result<Exe, AllocError>
    ensures { IfOk result IsGuest }
{
    let mut segments = Vec::new(alloc);
    segments.push(Segment {
        start: CODE,
        size: 1,
        perms: Perms {
            read: true,
            write: false,
            exec: true,
        },
        bytes: Bytes::of(Vec::new(alloc)),
    })?;
    segments.push(Segment {
        start: DATA,
        size: 12,
        perms: Perms {
            read: true,
            write: true,
            exec: false,
        },
        bytes: Bytes::of(Vec::new(alloc)),
    })?;
    Ok(Exe {
        entry: CODE,
        segments: Segments::of(segments),
        brk_start: 0x0804_A000,
    })
}

// Bits 0 to 4 are CF, PF, ZF, SF and OF.
fn flags(bits: u8) -> Flags {
    Flags {
        cf: bits & 1 != 0,
        pf: bits & 2 != 0,
        zf: bits & 4 != 0,
        sf: bits & 8 != 0,
        of: bits & 16 != 0,
    }
}

// Before each step OF alone is undefined.
fn processor(regs: [u32; 8], bits: u8) -> Cpu {
    Cpu {
        regs,
        eip: 0x1000,
        flags: flags(bits),
        df: false,
        known: flags(0x0F),
        undefined: 0,
    }
}

// One step of an instruction of two bytes, where OF becomes 1 if it is left undefined.
fn step(i: &Inst, cpu: &mut Cpu, m: &mut Memory) -> Option<Outcome> {
    if !valid(i) || cpu.undefined > 9 {
        return None;
    }
    Some(execute(i, 2, cpu, m, 0x10))
}

#[derive(Clone, Copy)]
struct Row {
    i: Inst,
    regs: [u32; 8],
    flags: u8,
    new_regs: [u32; 8],
    new_flags: u8,
    new_known: u8,
}

#[test]
fn registers_and_flags(rt: HostRuntime) -> Result<(), Fail> {
    let mut memory = Memory::of(rt.alloc(), &guest(rt.alloc())?, &[])?;
    let (al, ecx) = (Rm::Reg(0), Rm::Reg(1));
    for row in [
        // a count of 64 is one of 0: nothing changes
        Row {
            i: Inst::Shift {
                op: ShiftOp::Shl,
                w: Width::B8,
                dst: al,
                count: Count::Cl,
            },
            regs: [0x81, 0x40, 0, 0, 0, 0, 0, 0],
            flags: 0x1F,
            new_regs: [0x81, 0x40, 0, 0, 0, 0, 0, 0],
            new_flags: 0x1F,
            new_known: 0x0F,
        },
        // a byte shifted by 9: CF is undefined too
        Row {
            i: Inst::Shift {
                op: ShiftOp::Shl,
                w: Width::B8,
                dst: al,
                count: Count::Imm(9),
            },
            regs: [0x81, 0, 0, 0, 0, 0, 0, 0],
            flags: 0x1F,
            new_regs: [0, 0, 0, 0, 0, 0, 0, 0],
            new_flags: 0x16,
            new_known: 0x0E,
        },
        Row {
            i: Inst::Shift {
                op: ShiftOp::Sar,
                w: Width::B32,
                dst: al,
                count: Count::Imm(31),
            },
            regs: [0x8000_0000, 0, 0, 0, 0, 0, 0, 0],
            flags: 0,
            new_regs: [0xFFFF_FFFF, 0, 0, 0, 0, 0, 0, 0],
            new_flags: 0x1A,
            new_known: 0x0F,
        },
        Row {
            i: Inst::Rotate {
                right: false,
                dst: al,
                count: Count::Imm(1),
            },
            regs: [0x8000_0000, 0, 0, 0, 0, 0, 0, 0],
            flags: 0,
            new_regs: [1, 0, 0, 0, 0, 0, 0, 0],
            new_flags: 0x11,
            new_known: 0x1F,
        },
        // CF stays
        Row {
            i: Inst::Inc {
                w: Width::B8,
                dst: al,
            },
            regs: [0x12FF, 0, 0, 0, 0, 0, 0, 0],
            flags: 1,
            new_regs: [0x1200, 0, 0, 0, 0, 0, 0, 0],
            new_flags: 7,
            new_known: 0x1F,
        },
        // al and ah
        Row {
            i: Inst::Xchg {
                w: Width::B8,
                dst: al,
                reg: 4,
            },
            regs: [0x1234, 0, 0, 0, 0, 0, 0, 0],
            flags: 0x15,
            new_regs: [0x3412, 0, 0, 0, 0, 0, 0, 0],
            new_flags: 0x15,
            new_known: 0x0F,
        },
        Row {
            i: Inst::Sahf,
            regs: [0xC500, 0, 0, 0, 0, 0, 0, 0],
            flags: 0x10,
            new_regs: [0xC500, 0, 0, 0, 0, 0, 0, 0],
            new_flags: 0x1F,
            new_known: 0x0F,
        },
        Row {
            i: Inst::MulDiv { op: 4, src: ecx },
            regs: [0xFFFF_FFFF, 2, 9, 0, 0, 0, 0, 0],
            flags: 0,
            new_regs: [0xFFFF_FFFE, 2, 1, 0, 0, 0, 0, 0],
            new_flags: 0x11,
            new_known: 0x11,
        },
        // -7 by 2
        Row {
            i: Inst::MulDiv { op: 7, src: ecx },
            regs: [0xFFFF_FFF9, 2, 0xFFFF_FFFF, 0, 0, 0, 0, 0],
            flags: 0x0F,
            new_regs: [0xFFFF_FFFD, 2, 0xFFFF_FFFF, 0, 0, 0, 0, 0],
            new_flags: 0x10,
            new_known: 0,
        },
        Row {
            i: Inst::Movs {
                w: Width::B32,
                rep: true,
            },
            regs: [0, 0, 0, 0, 0, 0, 1, 2],
            flags: 0,
            new_regs: [0, 0, 0, 0, 0, 0, 1, 2],
            new_flags: 0,
            new_known: 0x0F,
        },
    ] {
        let mut cpu = processor(row.regs, row.flags);
        assert_eq!(rt; step(&row.i, &mut cpu, &mut memory), Some(Outcome::Next));
        assert_eq!(rt; cpu.regs, row.new_regs);
        assert_eq!(rt; cpu.flags, flags(row.new_flags));
        assert_eq!(rt; cpu.known, flags(row.new_known));
        assert_eq!(rt; (cpu.eip, cpu.undefined), (0x1002, 0));
    }
    Ok(())
}

#[test]
fn memory_and_faults(rt: HostRuntime) -> Result<(), Fail> {
    let mut memory = Memory::of(rt.alloc(), &guest(rt.alloc())?, &[])?;
    let at_esp = Rm::Mem(Addr {
        base: Some(4),
        index: None,
        disp: 0,
    });

    assert!(rt; memory.store(DATA, Width::B32, 0x0403_0201));

    // the destination takes the stack pointer as it is afterwards
    let mut cpu = processor([0, 0, 0, 0, DATA, 0, 0, 0], 0);
    assert_eq!(rt;
        step(&Inst::Pop { dst: at_esp }, &mut cpu, &mut memory),
        Some(Outcome::Next)
    );
    assert_eq!(rt; cpu.regs[4], DATA + 4);
    assert_eq!(rt; memory.load(DATA + 4, Width::B32), Some(0x0403_0201));

    // one iteration of two
    let mut cpu = processor([0, 2, 0, 0, 0, 0, DATA, DATA + 8], 0);
    let repeated = Inst::Movs {
        w: Width::B16,
        rep: true,
    };
    assert_eq!(rt; step(&repeated, &mut cpu, &mut memory), Some(Outcome::Next));
    assert_eq!(rt; cpu.regs, [0, 1, 0, 0, 0, 0, DATA + 2, DATA + 10]);
    assert_eq!(rt; cpu.eip, 0x1000);
    assert_eq!(rt; memory.load(DATA + 8, Width::B32), Some(0x0201));

    // the source is read though OF is 0, and OF is not defined
    let mut cpu = processor([0; 8], 0);
    let moved = Inst::Cmov {
        cond: 0,
        dst: 1,
        src: at_esp,
    };
    let fault = Some(Outcome::Fault(GuestFault::Access(0)));
    assert_eq!(rt; step(&moved, &mut cpu, &mut memory), fault);
    assert_eq!(rt; (cpu.eip, cpu.undefined), (0x1000, 1));

    // the quotient of -2 ^ 31 by -1 does not fit
    let before = [0x8000_0000, 0xFFFF_FFFF, 0xFFFF_FFFF, 0, 0, 0, 0, 0];
    let mut cpu = processor(before, 0x0A);
    let divided = Inst::MulDiv {
        op: 7,
        src: Rm::Reg(1),
    };
    let fault = Some(Outcome::Fault(GuestFault::Divide(0x1000)));
    assert_eq!(rt; step(&divided, &mut cpu, &mut memory), fault);
    assert_eq!(rt; cpu, processor(before, 0x0A));

    assert_eq!(rt;
        step(&Inst::Int80, &mut cpu, &mut memory),
        Some(Outcome::Trap)
    );
    assert_eq!(rt; cpu.eip, 0x1002);
    Ok(())
}
