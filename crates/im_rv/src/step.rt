ghost use Rattle.std.specs.Prelude.{◌≡◌, ◌<◌};
ghost use Rattle.im_rv.specs.Steps.{effected, cpu_of, regs_of, row, with_reg, word, extended};
ghost use Rattle.im_rv.specs.Steps.{done_by};
ghost use Rattle.im_rv.specs.Runs.{step_of};

use crate::decode::decode;
use crate::effect::{Effect, Extension};
use crate::instr::Instr;
use crate::rows::row_of;
use im_mem::Memory;

/// How a run goes on.
#[derive(Clone, Copy, PartialEq, Eq, Debug)]
pub enum Went {
    /// The next step may be made.
    On,
    /// `ebreak` was executed.
    Halted,
    /// A machine fault, with the pc of the instruction or of the fetch.
    Faulted(u32),
}

/// The place in the code and the registers; x0 reads as 0, whatever the array holds.
#[derive(Clone, Copy)]
pub struct Regs {
    pub pc: u32,
    pub x: [u32; 32],
}

impl Regs {
    fn get(&self, i: u8) -> u32
        requires { i < 32 }
        ensures { result ≡ regs_of self.now.x i }
    {
        if i == 0 { 0 } else { self.x[i as usize] }
    }

    fn set(&mut self, rd: u8, v: u32)
        requires { rd < 32 }
        ensures pc { self.new.pc ≡ self.old.pc }
        ensures x { regs_of self.new.x ≡ with_reg (regs_of self.old.x) rd v }
    {
        self.x[rd as usize] = v;
    }
}

fn sign_extend(v: u32, size: u32) -> u32
    ensures { result ≡ extended size Extension.Sign v }
{
    match size {
        1 => if v < 128 {
            v
        } else {
            v.wrapping_add(0xFFFF_FF00)
        },
        2 => if v < 32768 {
            v
        } else {
            v.wrapping_add(0xFFFF_0000)
        },
        _ => v,
    }
}

fn extend(v: u32, size: u32, extension: Extension) -> u32
    ensures { result ≡ extended size extension v }
{
    match extension {
        Extension::Sign => sign_extend(v, size),
        Extension::Zero => v,
    }
}

fn apply<M: Memory>(regs: &mut Regs, memory: &mut M, rd: u8, effect: Effect) -> Went
    requires { rd < 32 }
    ensures went { result ≡ (effected (cpu_of regs.old) (M.bytes memory.old) rd effect).went }
    ensures cpu { cpu_of regs.new ≡ (effected (cpu_of regs.old) (M.bytes memory.old) rd
        effect).cpu }
    ensures mem { M.bytes memory.new ≡ (effected (cpu_of regs.old) (M.bytes memory.old) rd
        effect).mem }
{
    let next = regs.pc.wrapping_add(4);
    match effect {
        Effect::Puts { value, next } => {
            regs.set(rd, value);
            regs.pc = next;
            Went::On
        }
        Effect::Goes { next } => {
            regs.pc = next;
            Went::On
        }
        Effect::Loads {
            address,
            size,
            extension,
        } => match memory.load(address, size) {
            None => Went::Faulted(regs.pc),
            Some(v) => {
                regs.set(rd, extend(v, size, extension));
                regs.pc = next;
                Went::On
            }
        },
        Effect::Stores {
            address,
            size,
            value,
        } => {
            if memory.store(address, size, value) {
                regs.pc = next;
                Went::On
            } else {
                Went::Faulted(regs.pc)
            }
        }
        Effect::Stops => Went::Halted,
    }
}

/// What an instruction does with these registers. A step and a torn store both ask it, so it is
/// inlined by hand.
#[inline(always)]
pub(crate) fn effect_of(regs: &Regs, i: &Instr) -> Effect
    requires rs1 { i.now.rs1 < 32 }
    requires rs2 { i.now.rs2 < 32 }
    ensures { let c = cpu_of regs.now in result
        ≡ row i.now.op c.pc (c.x i.now.rs1) (c.x i.now.rs2) (word i.now.imm) }
{
    row_of(
        i.op,
        regs.pc,
        regs.get(i.rs1),
        regs.get(i.rs2),
        i.imm.cast_unsigned(),
    )
}

fn perform<M: Memory>(regs: &mut Regs, memory: &mut M, i: &Instr) -> Went
    requires rd { i.now.rd < 32 }
    requires rs1 { i.now.rs1 < 32 }
    requires rs2 { i.now.rs2 < 32 }
    ensures went { result ≡ (done_by (cpu_of regs.old) (M.bytes memory.old) i.now.op i.now.rd
        i.now.rs1 i.now.rs2 (word i.now.imm)).went }
    ensures cpu { cpu_of regs.new ≡ (done_by (cpu_of regs.old) (M.bytes memory.old) i.now.op
        i.now.rd i.now.rs1 i.now.rs2 (word i.now.imm)).cpu }
    ensures mem { M.bytes memory.new ≡ (done_by (cpu_of regs.old) (M.bytes memory.old) i.now.op
        i.now.rd i.now.rs1 i.now.rs2 (word i.now.imm)).mem }
{
    let effect = effect_of(regs, i);
    apply(regs, memory, i.rd, effect)
}

/// One step: the word at the pc is fetched, decoded and done.
pub fn step<M: Memory>(regs: &mut Regs, memory: &mut M) -> Went
    ensures went { result ≡ (step_of (cpu_of regs.old) (M.bytes memory.old)).went }
    ensures cpu { cpu_of regs.new ≡ (step_of (cpu_of regs.old) (M.bytes memory.old)).cpu }
    ensures mem { M.bytes memory.new ≡ (step_of (cpu_of regs.old) (M.bytes memory.old)).mem }
{
    match memory.load(regs.pc, 4) {
        None => Went::Faulted(regs.pc),
        Some(w) => match decode(w) {
            None => Went::Faulted(regs.pc),
            Some(i) => perform(regs, memory, &i),
        },
    }
}
