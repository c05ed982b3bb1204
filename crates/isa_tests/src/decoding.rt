//! The groups of the instructions, and the places of their operands and results.

use crate::given::x;
use rv_decode::{Group, Immediate, Instr, Reads, Slot};

/// sh x4, 6(x3)
fn store() -> Instr {
    Instr::Sh {
        rs1: x(3),
        rs2: x(4),
        imm: Immediate::of_bits(6),
    }
}

/// addi x1, x2, 0
fn add() -> Instr {
    Instr::Addi {
        rd: x(1),
        rs1: x(2),
        imm: Immediate::of_bits(0),
    }
}

#[test]
fn groups_and_places_are_those_of_the_table(rt: HostRuntime) {
    let from_store = Reads {
        t1: Some(x(3)),
        t2: Some(x(4)),
        word: true,
    };
    assert!(rt; store().reads() == from_store);
    // instruction, number in a7, its group and where it writes, and the registers of the operands and of the result: x0 stands
    // for no operand and no result
    let rows = [
        (store(), 0, Group::StorePart, Slot::Word, [3, 4, 0]),
        (add(), 0, Group::Move, Slot::Reg(x(1)), [2, 0, 1]),
        (Instr::Ecall, 0, Group::Exit, Slot::Nothing, [10, 17, 0]),
        (Instr::Ecall, 1, Group::Put, Slot::Nothing, [10, 17, 0]),
        (Instr::Ecall, 2, Group::Get, Slot::Reg(x(10)), [10, 17, 10]),
        (Instr::Ecall, 3, Group::Call, Slot::Nothing, [10, 17, 0]),
        (Instr::Ecall, 48, Group::Call, Slot::Nothing, [10, 17, 0]),
        (Instr::Ebreak, 0, Group::Break, Slot::Nothing, [0, 0, 0]),
    ];
    for (instr, service, group, slot, registers) in rows {
        assert!(rt; instr.group(service) == group, "service {service}");
        assert!(rt; instr.writes(service) == slot, "service {service}");
        let places = instr.places(service);
        let found = [places.first, places.second, places.result].map(|register| register.number());
        assert!(rt; found == registers, "service {service}");
    }
}
