ghost use Rattle.std.specs.Prelude.{◌≡◌};

use crate::fault::LoadFault;
use crate::load::first_memory;
use crate::objects::copy_objects;
use crate::shows::{output, word_at};
use crate::stretch::run_period;
use crate::vars::variables;
use im_image::{Form, Image, Object, Version};
use im_mem::{INPUT_CAPACITY, Memory, REASON, STATUS};
use im_mem_file::{MemoryFault, read_memory, write_memory};
use im_mem_paged::PagedMem;
use im_num::{NoMemory, Var};
use im_power::{Period, Trace};
use im_rv::Went;
use std::alloc::Global;
use std::marker::Model;

/// A memory, and what has been run on it.
#[derive(Drop)]
pub struct Machine<M: Memory> {
    memory: M,
    went: Went,
    /// Instructions executed; 2^64-1 once that is reached.
    instructions: u64,
    /// Steps and torn stores that changed INDEX; 2^64-1 once that is reached.
    commits: u64,
    /// The image's.
    version: Version,
    /// The image's, or the memory file's.
    form: Form,
    /// The image's, by address.
    objects: Vec<Object>,
}

impl<M: Memory> Model for Machine<M> {
    ghost use Rattle.std.specs.Prelude.{◌<◌, ◌^◌};
    ghost use Rattle.im_emu.specs.State.{Held};
    ghost use Rattle.im_emu.specs.Layouts.{AreLaidOut};

    ghost Value = { Held M };

    ghost view = { λ s. record {
      memory = s.memory;
      went = s.went;
      steps = s.instructions;
      commits = s.commits;
      version = s.version;
      form = s.form;
      objects = s.objects.items;
    } };

    ghost invariant = { λ s. record {
      steps : s.instructions < 2 ^ 64;
      commits : s.commits < 2 ^ 64;
      objects : AreLaidOut s.objects.items;
    } };
}

impl<M: Memory> Machine<M> {
    ghost use Rattle.std.specs.Prelude.{◌≡◌, ◌<◌, ◌^◌, [], ◌∷◌, map, IfOk};
    ghost use Rattle.im_rv.specs.declared.step.Went.TheVariants.{On};
    ghost use Rattle.im_device.specs.Periods.{power, powered};
    ghost use Rattle.im_device.specs.Shows.{status_of, reason_of};
    ghost use Rattle.im_image.specs.Text.{form_number};
    ghost use Rattle.im_device.specs.Variables.{vars_of};
    ghost use Rattle.im_emu.specs.State.{counted, device_of, SameImage};
    ghost use Rattle.im_num.specs.Variables.{variable_of};

    /// Runs one period of power as often as it says, or until the machine halts or faults. One
    /// that has halted or faulted stays as it is.
    pub fn power(&mut self, period: Period) -> Went
        ensures device { device_of M.bytes self.new
            ≡ counted (power (period ∷ []) (device_of M.bytes self.old)) }
        ensures went { result ≡ self.new.went }
        ensures image { SameImage self.old self.new }
    {
        let mut went = self.went;
        'repeats: for _ in 0..period.count {
            match went {
                Went::On => went = self.run_once(&period),
                Went::Halted | Went::Faulted(_) => return went,
            }
        }
        went
    }

    /// Runs all periods of the trace in order, or until the machine halts or faults. One that has
    /// halted or faulted stays as it is.
    pub fn run(&mut self, trace: &Trace) -> Went
        ensures device { device_of M.bytes self.new
            ≡ counted (power trace.now (device_of M.bytes self.old)) }
        ensures went { result ≡ self.new.went }
        ensures image { SameImage self.old self.new }
    {
        for period in trace.as_slice() {
            self.power(*period);
        }
        self.went
    }

    fn run_once(&mut self, period: &Period) -> Went
        requires { self.old.went ≡ On }
        ensures went { result ≡ self.new.went }
        ensures steps { self.new.steps < 2 ^ 64 }
        ensures commits { self.new.commits < 2 ^ 64 }
        ensures device { device_of M.bytes self.new ≡
            counted (powered period.now.n period.now.junk period.now.mask (device_of M.bytes self.old)) }
        ensures image { SameImage self.old self.new }
    {
        let stretch = run_period(&mut self.memory, period);
        self.went = stretch.went;
        self.instructions = self.instructions.saturating_add(u64::from(stretch.steps));
        self.commits = self.commits.saturating_add(stretch.commits);
        stretch.went
    }

    /// Instructions executed so far, the one that halted or faulted included; 2^64-1 once that is
    /// reached.
    pub fn instructions(&self) -> u64
        ensures { result ≡ self.now.steps }
    {
        self.instructions
    }

    /// Steps and torn stores so far that changed INDEX, the word that says which register buffer is
    /// live; 2^64-1 once that is reached.
    pub fn commits(&self) -> u64
        ensures { result ≡ self.now.commits }
    {
        self.commits
    }

    /// How the run has gone so far.
    pub fn went(&self) -> Went
        ensures { result ≡ self.now.went }
    {
        self.went
    }

    /// The version of the image's text.
    pub fn version(&self) -> Version
        ensures { result ≡ self.now.version }
    {
        self.version
    }

    /// How memory tells the length of the output: after `load` the image's form, after `resume` the
    /// memory file's.
    pub fn output_form(&self) -> Form
        ensures { result ≡ self.now.form }
    {
        self.form
    }

    /// The number of that form, as the texts of images and memories have it: 0 or 1.
    pub fn form(&self) -> u32
        ensures number { result ≡ form_number self.now.form }
        ensures below { result < 2 }
    {
        self.form.number()
    }

    /// The word STATUS, read as a signed number.
    pub fn status(&self) -> i32
        ensures { result ≡ status_of (M.bytes self.now.memory) }
    {
        word_at(&self.memory, STATUS).cast_signed()
    }

    /// The word REASON: 1 where the stack was exhausted.
    pub fn reason(&self) -> u32
        ensures { result ≡ reason_of (M.bytes self.now.memory) }
    {
        word_at(&self.memory, REASON)
    }

    /// The variables that memory shows: each object's name, and the values of its cells.
    pub fn vars(&self, alloc: Global) -> Result<Vec<Var>, NoMemory>
        ensures { IfOk result (λ vars. map variable_of vars.items
            ≡ vars_of self.now.objects (M.bytes self.now.memory)) }
    {
        variables(alloc, &self.memory, &self.objects)
    }
}

impl Machine<PagedMem> {
    ghost use Rattle.std.specs.Prelude.{◌≡◌, ◌≤◌, ◌<◌, length, IfOk, OnOk, IfErr, IsOkUnless, Err};
    ghost use Rattle.std.specs.Prelude.{None};
    ghost use Rattle.im_mem.specs.Memory.{Mem, view};
    ghost use Rattle.im_mem.specs.Map.{input_capacity};
    ghost use Rattle.im_image.specs.declared.version.Version.{Version};
    ghost use Rattle.im_image.specs.declared.version.Version.TheVariants.{Two};
    ghost use Rattle.im_image.specs.declared.form.Form.{Form};
    ghost use Rattle.im_mem_file.specs.Text.{MemoryText};
    ghost use Rattle.im_mem_file.specs.Faults.{fault_of, memory_at, IsFaultOf};
    ghost use Rattle.im_device.specs.Periods.{fresh};
    ghost use Rattle.im_device.specs.Load.{memory_of};
    ghost use Rattle.im_device.specs.Shows.{output_of};
    ghost use Rattle.im_emu.specs.State.{device_of, IsImageOf};
    ghost use Rattle.im_emu.specs.Resume.{IsResumed, Resumes};

    /// A machine with an image and an input, before power comes. An input of more than 1048576
    /// bytes is refused, and then no machine is made.
    pub fn load(alloc: Global, image: &Image, input: &[u8]) -> Result<Machine<PagedMem>, LoadFault>
        ensures made { IfOk result (λ machine. device_of view machine
            ≡ fresh (memory_of image.now input.now)) }
        ensures image { IfOk result (λ machine. IsImageOf image.now machine) }
        ensures too_long { input_capacity < length input.now →
            result ≡ Err (LoadFault.InputTooLong (length input.now) input_capacity) }
        ensures fits { length input.now ≤ input_capacity → IsOkUnless result LoadFault.OutOfMemory }
    {
        if input.len() > INPUT_CAPACITY as usize {
            return Err(LoadFault::InputTooLong(input.len() as u64, u64::from(INPUT_CAPACITY)));
        }
        Ok(Machine {
            memory: first_memory(alloc, image, input)?,
            went: Went::On,
            instructions: 0,
            commits: 0,
            version: image.version,
            form: image.form,
            objects: copy_objects(alloc, &image.objects)?,
        })
    }

    fn resumed(alloc: Global, image: &Image, text: &[u8]) -> Result<Machine<PagedMem>, MemoryFault>
        ensures made { IfOk result (λ machine. device_of view machine
            ≡ fresh (memory_at text.now)) }
        ensures image { IfOk result (λ machine. IsResumed image.now text.now machine) }
        ensures right { OnOk result (fault_of text.now ≡ None) }
        ensures wrong { IfErr result (λ fault. IsFaultOf fault (fault_of text.now)) }
    {
        let saved = read_memory(alloc, text)?;
        let objects = copy_objects(alloc, &image.objects)?;
        Ok(Machine {
            memory: saved.memory,
            went: Went::On,
            instructions: 0,
            commits: 0,
            version: image.version,
            form: saved.form,
            objects,
        })
    }

    /// A machine with the memory and the form of a memory file, before power comes. Of the image it
    /// has the version and the objects alone.
    pub fn resume(
        alloc: Global,
        image: &Image,
        text: &[u8],
    ) -> Result<Machine<PagedMem>, MemoryFault>
        ensures made { IfOk result (λ machine. device_of view machine
            ≡ fresh (memory_at text.now)) }
        ensures image { IfOk result (λ machine. IsResumed image.now text.now machine) }
        // A machine is made of a memory's text alone; a refusal names the first fault.
        ensures right { OnOk result (fault_of text.now ≡ None) }
        ensures wrong { IfErr result (λ fault. IsFaultOf fault (fault_of text.now)) }
        // The text of a memory, as `save` writes it, gives that memory back.
        ensures reads_back { (version : Version) (form : Form) (m : Mem) →
            MemoryText text.now version form m → Resumes result form m }
    {
        Machine::resumed(alloc, image, text)
    }

    /// The text of a memory file, of version 2, with the memory and its form.
    pub fn save(&self, alloc: Global) -> Result<Vec<u8>, NoMemory>
        ensures { IfOk result (λ text. MemoryText text.items Two self.now.form
            (view self.now.memory)) }
    {
        write_memory(alloc, &self.memory, self.form)
    }

    /// The output so far, as long as memory says by its form, and at most 1048576 bytes.
    pub fn output(&self) -> &[u8]
        ensures { result.now ≡ output_of self.now.form (view self.now.memory) }
    {
        output(&self.memory, self.form)
    }
}
