// Instruction words, as short as a listing spells them.
use instructions::{Instruction, Operation};

fn word(operation: Operation, loop_number: u8, label_number: u32) -> u64 {
    u64::from(Instruction {
        operation,
        loop_number,
        label_number,
    })
}

pub(crate) fn b(k: u32, l: u32) -> u64 {
    word(Operation::Block(k, l), 0, 0)
}

pub(crate) fn lp(l: u8) -> u64 {
    word(Operation::Loop, l, 0)
}

pub(crate) fn rep(l: u8, t: u16) -> u64 {
    word(Operation::Repeat(t), l, 0)
}

pub(crate) fn lb(label: u32) -> u64 {
    word(Operation::Label, 0, label)
}

pub(crate) fn jmp(l: u8, t: u16, label: u32) -> u64 {
    word(Operation::Jump(t), l, label)
}

pub(crate) fn njmp(l: u8, t: u16, label: u32) -> u64 {
    word(Operation::JumpUnless(t), l, label)
}
