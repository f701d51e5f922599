ghost use Rattle.std.specs.Prelude.{◌≡◌, true};
ghost use Rattle.im_num.specs.Bytes.{bytes_of};
ghost use Rattle.im_mem.specs.Memory.{is_place};
ghost use Rattle.im_rv.specs.Steps.{cpu_of};
ghost use Rattle.im_rv.specs.Torn.{masked, torn_by, torn_of};

use crate::decode::decode;
use crate::effect::Effect;
use crate::step::{Regs, effect_of};
use im_mem::Memory;

// The lowest byte of a number is written where the lowest bit of the mask is set.
fn put_if<M: Memory>(memory: &mut M, address: u32, bytes: u32, mask: u32)
    requires { is_place address 1 ≡ true }
    ensures { M.bytes memory.new ≡ masked mask (M.bytes memory.old) address (bytes_of 1 bytes) }
{
    if mask % 2 == 1 {
        memory.store(address, 1, bytes);
    }
}

// Of a store's bytes those are written that the mask names: byte i where bit i is set.
fn put_masked<M: Memory>(memory: &mut M, address: u32, size: u32, value: u32, mask: u32)
    requires { is_place address size ≡ true }
    ensures { M.bytes memory.new ≡ masked mask (M.bytes memory.old) address (bytes_of size value) }
{
    let mut bytes = value;
    let mut bits = mask;
    for i in 0..size {
        put_if(memory, address + i, bytes, bits);
        bytes /= 256;
        bits /= 2;
    }
}

fn tear_effect<M: Memory>(memory: &mut M, effect: Effect, mask: u32)
    ensures { M.bytes memory.new ≡ torn_by mask (M.bytes memory.old) effect }
{
    match effect {
        Effect::Stores {
            address,
            size,
            value,
        } => {
            if memory.load(address, size).is_some() {
                put_masked(memory, address, size, value, mask);
            }
        }
        Effect::Puts { .. } | Effect::Goes { .. } | Effect::Loads { .. } | Effect::Stops => {}
    }
}

/// Power fails within the instruction at the pc. Of a store that wouldn't fault byte i is written
/// where bit i of the mask is set; nothing else happens.
pub fn tear<M: Memory>(regs: &Regs, memory: &mut M, mask: u32)
    ensures { M.bytes memory.new ≡ torn_of mask (cpu_of regs.now) (M.bytes memory.old) }
{
    if let Some(word) = memory.load(regs.pc, 4) {
        if let Some(i) = decode(word) {
            tear_effect(memory, effect_of(regs, &i), mask);
        }
    }
}
