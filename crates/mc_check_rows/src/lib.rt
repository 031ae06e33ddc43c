//! Checked sources as rows: what `lex`, `read` and `check` make of a text together. It is for tests.
#![tactic(auto)]

ghost use Rattle.std.specs.Prelude.{◌≤◌, length, IfSome};
ghost use Rattle.mc_tree.specs.CheckedTask.{IsCheckedTask};

use mc_check::{CheckFault, check};
use mc_lex::lex;
use mc_reader::read;
use mc_tree::{Fault, Task};
use std::alloc::Global;

#[cfg(test)]
mod tests;

/// The checked task of a text, where it has one and there is memory.
pub fn task_of(alloc: Global, text: &[u8]) -> Option<Task>
    requires { length text.now ≤ 65536 }
    ensures { IfSome result IsCheckedTask }
{
    let Ok(tokens) = lex(alloc, text) else {
        return None;
    };
    let Ok(raw) = read(alloc, text, tokens.as_slice()) else {
        return None;
    };
    check(alloc, &raw).ok()
}

/// The first fault of a text that spells a task, where it has one and there is memory.
pub fn fault_of(alloc: Global, text: &[u8]) -> Option<Fault>
    requires { length text.now ≤ 65536 }
{
    let Ok(tokens) = lex(alloc, text) else {
        return None;
    };
    let Ok(raw) = read(alloc, text, tokens.as_slice()) else {
        return None;
    };
    match check(alloc, &raw) {
        Ok(_) => None,
        Err(CheckFault::Bad { kind, span }) => Some(Fault { kind, span }),
        Err(CheckFault::Memory) => None,
    }
}
