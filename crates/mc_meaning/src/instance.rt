//! One instance of a task.
ghost use Rattle.std.specs.Prelude.{◌≡◌, ◌++◌, length, IfOk, OnOk, List, ℤ, pos, [], take, drop, replicate, if◌then◌else◌};
ghost use Rattle.mc_tree.specs.Plain.{plain_list, plain_task};
ghost use Rattle.mc_tree.specs.Instance.{ended, instance_of, cell_at_start, words_at_start, words_of};
ghost use Rattle.mc_tree.specs.Meaning.{all_do};
ghost use Rattle.mc_meaning.specs.Run.{params_of, calls_of};
ghost use Rattle.mc_meaning.specs.Outcome.{plain_outcome, has_role};

use crate::statement::run_block;
use mars_base::{Memory, Role, Words};
use mc_tree::{Cell, Task};
use std::alloc::Global;

/// How an instance ends.
#[derive(Debug, Drop)]
pub enum Outcome {
    /// The words of the state cells and of the out cells, each in the order of the cells.
    Done { state: Words, outs: Words },
    /// It broke: it has no outputs, and the state stays as it was.
    Broken,
}

/// One instance of a checked task, from the words of its state cells and of its in cells, each in the
/// order of the cells and as many as those cells have together. `Memory` comes only where there is none.
/// The language is this project's own.
pub fn interpret(alloc: Global, task: &Task, state: &[i32], ins: &[i32]) -> Result<Outcome, Memory>
    ensures { IfOk result (λ outcome. plain_outcome outcome ≡ instance_of (plain_task task.now) state.now ins.now) }
{
    let mut words = start(alloc, task.cells.as_slice(), state, ins)?;
    let outcome = run_body(alloc, task, words.as_mut_slice())?;
    Ok(outcome)
}

// The body, from the words at the start.
fn run_body(alloc: Global, task: &Task, words: &mut [i32]) -> Result<Outcome, Memory>
    ensures { IfOk result (λ outcome. plain_outcome outcome ≡ ended task.now.cells (all_do (params_of task.now) (calls_of task.now (length task.now.funcs)) (plain_list task.now.cells task.now.body) words.old 0)) }
{
    let known = task.funcs.len();
    if run_block(alloc, task, known, words, 0, task.body.as_slice())?.is_none() {
        return Ok(Outcome::Broken);
    }
    let state = given(alloc, task.cells.as_slice(), words, Role::State)?;
    let outs = given(alloc, task.cells.as_slice(), words, Role::Out)?;
    Ok(Outcome::Done { state, outs })
}

// Appends the first words of a list, as many as it has up to so many, and answers the others.
fn move_words<'a>(words: &mut Vec<i32>, from: &'a [i32], many: usize) -> Result<&'a [i32], Memory>
    ensures moved { OnOk result (words.new.items ≡ words.old.items ++ take many from.now) }
    ensures rest { IfOk result (λ rest. rest.now ≡ drop many from.now) }
{
    let (front, rest) = from.split_at(many.min(from.len()));
    words.extend_from_slice(front)?;
    Ok(rest)
}

// Appends so many words of 0.
fn push_zeros(words: &mut Vec<i32>, many: usize) -> Result<(), Memory>
    ensures { OnOk result (words.new.items ≡ words.old.items ++ replicate many (pos 0)) }
{
    for _done in 0..many {
        words.push(0)?;
    }
    Ok(())
}

// Appends the words of a cell at the start, and answers what is left of the state and of the in words.
fn start_cell<'a>(
    words: &mut Vec<i32>,
    cell: &Cell,
    state: &'a [i32],
    ins: &'a [i32],
) -> Result<(&'a [i32], &'a [i32]), Memory>
    ensures { IfOk result (λ left. (rest : List ℤ → List ℤ → List ℤ) → words.new.items ++ rest left.0.now left.1.now ≡ words.old.items ++ cell_at_start cell.now.role cell.now.width rest state.now ins.now) }
{
    let width = usize::from(cell.width);
    match cell.role {
        Role::In => {
            let ins = move_words(words, ins, width)?;
            Ok((state, ins))
        }
        Role::State => {
            let state = move_words(words, state, width)?;
            Ok((state, ins))
        }
        Role::Out => {
            push_zeros(words, width)?;
            Ok((state, ins))
        }
        Role::Local => {
            push_zeros(words, width)?;
            Ok((state, ins))
        }
    }
}

// The words of all cells at the start.
fn start(alloc: Global, cells: &[Cell], state: &[i32], ins: &[i32]) -> Result<Vec<i32>, Memory>
    ensures { IfOk result (λ words. words.items ≡ words_at_start cells.now state.now ins.now) }
{
    let mut words = Vec::new(alloc);
    let mut state = state;
    let mut ins = ins;
    for cell in cells {
        (state, ins) = start_cell(&mut words, cell, state, ins)?;
    }
    Ok(words)
}

// Whether a role is the one that is wanted.
fn is_role(wanted: Role, role: Role) -> bool
    ensures { result ≡ has_role wanted role }
{
    match wanted {
        Role::In => matches!(role, Role::In),
        Role::Out => matches!(role, Role::Out),
        Role::State => matches!(role, Role::State),
        Role::Local => matches!(role, Role::Local),
    }
}

// Appends the first words of a list where they are wanted, and answers the others.
fn keep_words<'a>(
    list: &mut Vec<i32>,
    wanted: bool,
    from: &'a [i32],
    many: usize,
) -> Result<&'a [i32], Memory>
    ensures kept { OnOk result (list.new.items ≡ list.old.items ++ (if wanted then take many from.now else [])) }
    ensures rest { IfOk result (λ rest. rest.now ≡ drop many from.now) }
{
    if wanted {
        return move_words(list, from, many);
    }
    let (_front, rest) = from.split_at(many.min(from.len()));
    Ok(rest)
}

// The words of the cells of one role, in order.
fn given(alloc: Global, cells: &[Cell], words: &[i32], role: Role) -> Result<Words, Memory>
    ensures { IfOk result (λ list. list ≡ words_of (has_role role) cells.now words.now) }
{
    let mut list = Vec::new(alloc);
    let mut from = words;
    for cell in cells {
        let wanted = is_role(role, cell.role);
        from = keep_words(&mut list, wanted, from, usize::from(cell.width))?;
    }
    Ok(Words::from_vec(list))
}
