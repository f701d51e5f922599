ghost use Rattle.std.specs.Prelude.{◌≡◌, ◌≢◌, ℕ, length, nat_eq, OnOk, IfOk, IfSome, Some};
ghost use Rattle.std.specs.HashMap as hash;
ghost use Rattle.im_link.specs.State.{AreAccessesOf};

use im_num::NoMemory;
use im_rv::Line;
use std::alloc::Global;
use std::collections::HashMap;

/// The number of the line that each label stands at.
pub type Places = HashMap<u32, usize>;

/// The number of the line that each access is.
pub type Accesses = HashMap<u64, usize>;

/// Notes that a label, if there is one, stands at this line.
pub fn note(places: &mut Places, label: Option<u32>, at: usize) -> Result<(), NoMemory>
    ensures here { OnOk result (IfSome label (λ l. hash.get nat_eq places.new l ≡ Some at)) }
    ensures others { OnOk result ((q : ℕ) → label ≢ Some q
        → hash.get nat_eq places.new q ≡ hash.get nat_eq places.old q) }
{
    if let Some(label) = label {
        places.insert(label, at)?;
    }
    Ok(())
}

/// The place that a label has.
pub fn find(places: &Places, label: u32) -> Option<usize>
    ensures { result ≡ hash.get nat_eq places.now label }
{
    places.get(&label).copied()
}

fn note_access(accesses: &mut Accesses, access: Option<u64>, at: usize) -> Result<(), NoMemory>
    ensures here { OnOk result (IfSome access (λ a. hash.get nat_eq accesses.new a ≡ Some at)) }
    ensures others { OnOk result ((q : ℕ) → access ≢ Some q
        → hash.get nat_eq accesses.new q ≡ hash.get nat_eq accesses.old q) }
{
    if let Some(access) = access {
        accesses.insert(access, at)?;
    }
    Ok(())
}

/// The place that an access has.
pub fn find_access(accesses: &Accesses, access: u64) -> Option<usize>
    ensures { result ≡ hash.get nat_eq accesses.now access }
{
    accesses.get(&access).copied()
}

/// The places of the accesses of these lines; that of the last one where several lines are one.
pub fn accesses_of(alloc: Global, lines: &[Line]) -> Result<Accesses, NoMemory>
    ensures { IfOk result
        (λ accesses. AreAccessesOf lines.now (length lines.now) (hash.get nat_eq accesses)) }
{
    let mut accesses = HashMap::new(alloc);
    for i in 0..lines.len() {
        note_access(&mut accesses, lines[i].access, i)?;
    }
    Ok(accesses)
}
