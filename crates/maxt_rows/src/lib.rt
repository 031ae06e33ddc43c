//! MAXT and folding from texts: rows worked by hand, and free runs tried one by one. It is for tests.
#![tactic(auto)]

ghost use Rattle.std.specs.Prelude.{◌≤◌, length, IfSome};
ghost use Rattle.mc_tree.specs.CheckedTask.{IsCheckedTask};

use mc_check::{CheckFault, check};
use mc_lex::lex;
use mc_reader::read;
use mc_tree::Task;
use std::alloc::Global;

#[cfg(test)]
mod tests;
#[cfg(test)]
mod tries;

/// The checked task of a text of at most 65,536 bytes. There is none where the text has a fault, or where there is
/// no memory.
pub fn task_of(alloc: Global, text: &[u8]) -> Option<Task>
    requires { length text.now ≤ 65536 }
    ensures { IfSome result IsCheckedTask }
{
    let Ok(tokens) = lex(alloc, text) else {
        return None;
    };
    let Ok(raw) = read(alloc, text, tokens.as_slice()) else {
        return None;
    };
    match check(alloc, &raw) {
        Ok(task) => Some(task),
        Err(CheckFault::Bad { kind: _, span: _ } | CheckFault::Memory) => None,
    }
}
