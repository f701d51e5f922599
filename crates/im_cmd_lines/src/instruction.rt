ghost use Rattle.std.specs.Prelude.{◌≡◌, ◌++◌, Some, codes};
ghost use Rattle.std.specs.Fmt.{signed_decimal};
ghost use Rattle.im_io.specs.Whole.{Sends};
ghost use Rattle.im_rv.specs.Decode.{decode as decoded_word};
ghost use Rattle.im_rv.specs.Lines.{line_of};
ghost use Rattle.im_cmd_lines.specs.Dumps.{op_name, register_text, instruction_text};

use im_io::{Failed, Sink, send, send_pieces};
use im_rv::decode::decode;
use im_rv::{Format, Instr, Op};
use itoa::Buffer;

// The operation's name in the manual's assembly text.
fn name_of(op: Op) -> &'static str
    ensures { result.now ≡ op_name op }
{
    match op {
        Op::Lui => "lui",
        Op::Auipc => "auipc",
        Op::Jal => "jal",
        Op::Jalr => "jalr",
        Op::Beq => "beq",
        Op::Bne => "bne",
        Op::Blt => "blt",
        Op::Bge => "bge",
        Op::Bltu => "bltu",
        Op::Bgeu => "bgeu",
        Op::Lb => "lb",
        Op::Lh => "lh",
        Op::Lw => "lw",
        Op::Lbu => "lbu",
        Op::Lhu => "lhu",
        Op::Sb => "sb",
        Op::Sh => "sh",
        Op::Sw => "sw",
        Op::Addi => "addi",
        Op::Slti => "slti",
        Op::Sltiu => "sltiu",
        Op::Xori => "xori",
        Op::Ori => "ori",
        Op::Andi => "andi",
        Op::Slli => "slli",
        Op::Srli => "srli",
        Op::Srai => "srai",
        Op::Add => "add",
        Op::Sub => "sub",
        Op::Sll => "sll",
        Op::Slt => "slt",
        Op::Sltu => "sltu",
        Op::Xor => "xor",
        Op::Srl => "srl",
        Op::Sra => "sra",
        Op::Or => "or",
        Op::And => "and",
        Op::Mul => "mul",
        Op::Mulh => "mulh",
        Op::Mulhsu => "mulhsu",
        Op::Mulhu => "mulhu",
        Op::Div => "div",
        Op::Divu => "divu",
        Op::Rem => "rem",
        Op::Remu => "remu",
        Op::Fence => "fence",
        Op::Ebreak => "ebreak",
    }
}

fn send_registers<S: Sink>(sink: &mut S, name: &str, rd: u8, rs1: u8, rs2: u8) -> Result<(), Failed>
    ensures { Sends (name.now ++ register_text rd ++ register_text rs1 ++ register_text rs2) result
        (S.state sink.old) (S.state sink.new) }
{
    let mut rd_text = Buffer::new();
    let mut rs1_text = Buffer::new();
    let mut rs2_text = Buffer::new();
    send_pieces(
        sink,
        &[
            name.as_bytes(),
            b" ",
            rd_text.format(rd).as_bytes(),
            b" ",
            rs1_text.format(rs1).as_bytes(),
            b" ",
            rs2_text.format(rs2).as_bytes(),
        ],
    )
}

fn send_two<S: Sink>(
    sink: &mut S,
    name: &str,
    first: u8,
    second: u8,
    immediate: i32,
) -> Result<(), Failed>
    ensures { Sends (name.now ++ register_text first ++ register_text second ++ codes " "
        ++ signed_decimal immediate) result (S.state sink.old) (S.state sink.new) }
{
    let mut first_text = Buffer::new();
    let mut second_text = Buffer::new();
    let mut immediate_text = Buffer::new();
    send_pieces(
        sink,
        &[
            name.as_bytes(),
            b" ",
            first_text.format(first).as_bytes(),
            b" ",
            second_text.format(second).as_bytes(),
            b" ",
            immediate_text.format(immediate).as_bytes(),
        ],
    )
}

fn send_one<S: Sink>(sink: &mut S, name: &str, register: u8, immediate: i32) -> Result<(), Failed>
    ensures { Sends (name.now ++ register_text register ++ codes " " ++ signed_decimal immediate)
        result (S.state sink.old) (S.state sink.new) }
{
    let mut register_digits = Buffer::new();
    let mut immediate_digits = Buffer::new();
    send_pieces(
        sink,
        &[
            name.as_bytes(),
            b" ",
            register_digits.format(register).as_bytes(),
            b" ",
            immediate_digits.format(immediate).as_bytes(),
        ],
    )
}

fn send_operation<S: Sink>(sink: &mut S, instr: Instr) -> Result<(), Failed>
    ensures { Sends (instruction_text (Some (line_of instr))) result (S.state sink.old)
        (S.state sink.new) }
{
    let name = name_of(instr.op);
    match instr.op.format() {
        Format::Register => send_registers(sink, name, instr.rd, instr.rs1, instr.rs2),
        Format::Immediate | Format::Shift | Format::Order => {
            send_two(sink, name, instr.rd, instr.rs1, instr.imm)
        }
        Format::Store | Format::Branch => { send_two(sink, name, instr.rs1, instr.rs2, instr.imm) }
        Format::Upper | Format::Jump => send_one(sink, name, instr.rd, instr.imm),
        Format::Whole => send(sink, name.as_bytes()),
    }
}

/// Sends the text of the instruction that a word stands for.
pub fn send_instruction<S: Sink>(sink: &mut S, word: u32) -> Result<(), Failed>
    ensures { Sends (instruction_text (decoded_word word)) result (S.state sink.old)
        (S.state sink.new) }
{
    match decode(word) {
        None => send(sink, b"word"),
        Some(instr) => send_operation(sink, instr),
    }
}
