//! The words at the start of an execution, and those that it gives at its end.
ghost use Rattle.std.specs.Prelude.{◌≡◌, ◌+◌, ◌≤◌, ◌++◌, length, take};
ghost use Rattle.word_code.specs.Cells.{words_at_start, width_of, total_width, cell_words, is_in, is_out, is_state};
ghost use Rattle.word_code.specs.Typing.{IsVerified};

use crate::places::Places;
use mars_base::Role;
use word_code::Code;

/// Makes the words with which an execution begins. It takes no memory.
pub fn fill(words: &mut Places, code: &Code, state: &[i32], ins: &[i32])
    requires verified { IsVerified code.now }
    requires state { length state.now ≡ width_of is_state code.now.cells }
    requires ins { length ins.now ≡ width_of is_in code.now.cells }
    ensures words { words.new ≡ words_at_start code.now state.now ins.now }
    ensures places { length words.new ≡ code.now.places }
{
    words.clear();
    let mut state = state;
    let mut ins = ins;
    for cell in code.cells.as_slice() {
        let width = usize::from(cell.width);
        match cell.role {
            Role::In => {
                let (front, rest) = ins.split_at(width);
                words.append(front);
                ins = rest;
            }
            Role::State => {
                let (front, rest) = state.split_at(width);
                words.append(front);
                state = rest;
            }
            Role::Out | Role::Local => words.add_zeros(width),
        }
    }
    let rest = usize::from(code.places) - words.len();
    words.add_zeros(rest);
}

// Copies words to a place, and gives the place after them.
fn put_at(into: &mut [i32], at: usize, more: &[i32]) -> usize
    requires { at + length more.now ≤ length into.old }
    ensures end { result ≡ at + length more.now }
    ensures copied { take result into.new ≡ take at into.old ++ more.now }
{
    if let [word] = more {
        into[at] = *word;
        return at + 1;
    }
    let end = at + more.len();
    into[at..end].copy_from_slice(more);
    end
}

/// Copies the words of the out cells.
pub fn copy_outs(code: &Code, words: &[i32], into: &mut [i32])
    requires room { length into.old ≡ width_of is_out code.now.cells }
    requires words { total_width code.now.cells ≤ length words.now }
    ensures { into.new ≡ cell_words is_out code.now.cells words.now }
{
    let mut words = words;
    let mut filled = 0usize;
    for cell in code.cells.as_slice() {
        let (front, rest) = words.split_at(usize::from(cell.width));
        if let Role::Out = cell.role {
            filled = put_at(into, filled, front);
        }
        words = rest;
    }
}

/// Copies the words of the state cells.
pub fn copy_state(code: &Code, words: &[i32], into: &mut [i32])
    requires room { length into.old ≡ width_of is_state code.now.cells }
    requires words { total_width code.now.cells ≤ length words.now }
    ensures { into.new ≡ cell_words is_state code.now.cells words.now }
{
    let mut words = words;
    let mut filled = 0usize;
    for cell in code.cells.as_slice() {
        let (front, rest) = words.split_at(usize::from(cell.width));
        if let Role::State = cell.role {
            filled = put_at(into, filled, front);
        }
        words = rest;
    }
}
