use im_mem::{FlatMem, Memory};
use im_rv::Regs;
use im_rv::decode::decode;
use im_rv::encode::encode;
use im_rv::step::step;
use im_trial::{Case, Row, Stop};

/// `instruction`, a word: what it is decoded to, and the word that this is encoded to.
pub(crate) fn instruction(row: &Row<'_>, case: &mut Case) {
    let Some(it) = decode(case.hex(row.field(1))) else {
        case.say(" none");
        return;
    };
    case.debug(&it.op);
    case.show(it.rd);
    case.show(it.rs1);
    case.show(it.rs2);
    case.show(it.imm);
    case.say(",");
    case.word(encode(it));
}

// Memory that holds a word at an address, and nothing else.
fn memory_with(at: u32, word: u32, case: &mut Case) -> Option<FlatMem> {
    match FlatMem::new(case.alloc) {
        Ok(mut memory) => {
            memory.store(at, 4, word);
            Some(memory)
        }
        Err(_) => {
            case.end(Stop::Memory);
            None
        }
    }
}

/// `x3`, a name, a word, x1 and x2: what x3 holds behind that one instruction at 0.
pub(crate) fn x3(row: &Row<'_>, case: &mut Case) {
    let mut regs = Regs { pc: 0, x: [0; 32] };
    regs.x[1] = case.hex(row.field(3));
    regs.x[2] = case.hex(row.field(4));
    let word = case.hex(row.field(2));
    if let Some(mut memory) = memory_with(0, word, case) {
        step(&mut regs, &mut memory);
        case.word(regs.x[3]);
    }
}

/// `step`, a word at 4096, a pc: how the run goes on.
pub(crate) fn one_step(row: &Row<'_>, case: &mut Case) {
    let mut regs = Regs {
        pc: case.small(row.field(2)),
        x: [0; 32],
    };
    let word = case.hex(row.field(1));
    if let Some(mut memory) = memory_with(4096, word, case) {
        case.say(" at ");
        case.say(row.field(2));
        case.debug(&step(&mut regs, &mut memory));
    }
}
