// The stack and PC. A record is copied whole and then changed: made anew with `..r` it takes some ten instructions a word more (docs/SPEED.md, "Forms").
ghost use Rattle.std.specs.Prelude.{◌≡◌, [], ◌∷◌, slice_index_or};
ghost use Rattle.flow.specs.Stack.{pushed, popped, stepped};

use device::{Chip, InstructionAddress, Registers};

// The address in the stack cell numbered by the depth, which goes up; nothing where there is no such cell. C has the four cells by their names.
#[tactic(auto, unfolding(crate::specs::Stack::pushed))]
pub fn push(r: Registers, address: InstructionAddress) -> Registers
    ensures { result ≡ pushed r address }
{
    let mut q = r;
    match r.depth {
        0 => {
            q.stack0 = address;
            q.depth = 1;
            q
        }
        1 => {
            q.stack1 = address;
            q.depth = 2;
            q
        }
        2 => {
            q.stack2 = address;
            q.depth = 3;
            q
        }
        3 => {
            q.stack3 = address;
            q.depth = 4;
            q
        }
        _ => q,
    }
}

// One of four addresses. It takes the cells and not the record, which would be put into memory to be indexed.
fn cell_of(
    n: u8,
    cell0: InstructionAddress,
    cell1: InstructionAddress,
    cell2: InstructionAddress,
    cell3: InstructionAddress,
) -> InstructionAddress
    ensures { result ≡ slice_index_or (cell0 ∷ cell1 ∷ cell2 ∷ []) n cell3 }
{
    match n {
        0 => cell0,
        1 => cell1,
        2 => cell2,
        _ => cell3,
    }
}

// The depth goes down, and the cell so numbered into PC.
#[tactic(auto, unfolding(crate::specs::Stack::popped))]
pub fn pop(r: Registers) -> Registers
    ensures { result ≡ popped r }
{
    let depth = r.depth.saturating_sub(1);
    let pc = cell_of(depth, r.stack0, r.stack1, r.stack2, r.stack3);
    let mut q = r;
    q.depth = depth;
    q.pc = pc;
    q
}

// The next word.
pub fn step<C: Chip>(r: Registers) -> Registers
    ensures { result ≡ stepped C.LARGE r }
{
    let mut q = r;
    q.pc = r.pc.next::<C>();
    q
}
