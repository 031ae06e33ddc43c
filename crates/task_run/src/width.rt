//! How many words the ports and states of a task have.
ghost use Rattle.std.specs.Prelude.{◌≡◌, ◌<◌, ◌*◌, ◌^◌, length, IfOk, replicate, pos};
ghost use Rattle.mc_tree.specs.Instance.{is_in, is_out, is_state, width_of};

use mars_base::{Memory, Role};
use mc_tree::Cell;
use std::alloc::Global;

/// How many words the in ports have together.
pub fn in_words(cells: &[Cell]) -> usize
    requires { length cells.now < 2 ^ 40 }
    ensures { result ≡ width_of is_in cells.now }
{
    let mut total = 0usize;
    for cell in cells {
        if cell.role == Role::In {
            total += usize::from(cell.width);
        }
    }
    total
}

/// How many words the out ports have together.
pub fn out_words(cells: &[Cell]) -> usize
    requires { length cells.now < 2 ^ 40 }
    ensures { result ≡ width_of is_out cells.now }
{
    let mut total = 0usize;
    for cell in cells {
        if cell.role == Role::Out {
            total += usize::from(cell.width);
        }
    }
    total
}

/// How many words the states have together.
pub fn state_words(cells: &[Cell]) -> usize
    requires { length cells.now < 2 ^ 40 }
    ensures { result ≡ width_of is_state cells.now }
{
    let mut total = 0usize;
    for cell in cells {
        if cell.role == Role::State {
            total += usize::from(cell.width);
        }
    }
    total
}

/// So many words of 0.
pub fn zeros(alloc: Global, count: usize) -> Result<Vec<i32>, Memory>
    ensures { IfOk result (λ words. words.items ≡ replicate count (pos 0)) }
{
    Ok(vec![in alloc; 0i32; count]?)
}
