//! The translation of a checked task to machine code, and what is proved of it.
#![tactic(auto)]

ghost use Rattle.mc_compile.specs.Coded.{CodedTask};
ghost use Rattle.mc_compile.specs.Correct.{IsRight, KeepsWords};
ghost use Rattle.mc_compile.specs.Cost.{costs_of, ex_cost};
ghost use Rattle.mc_compile.specs.Translate.{ex_code};
ghost use Rattle.mc_compile.specs.Whole.{translate, code_len};
ghost use Rattle.mc_compile.specs.Widths.{HasWidths};
ghost use Rattle.mc_tree.specs.Checked.{IsChecked};
ghost use Rattle.mc_tree.specs.Tree.{Ex, Tree};
ghost use Rattle.std.specs.Prelude.{◌≡◌, ◌≤◌, ℕ, length};
ghost use Rattle.word_code.specs.Typing.{IsVerified};

mod expression;
mod fault;
mod measure;
mod statement;
mod task;

pub use fault::CompileFault;
pub use task::compile;

/// What holds of the translation of every task. Its parts stand one after another, and each jump goes to where
/// its part begins or ends. Its length is known beforehand. From each state and each in words the code of a
/// checked task halts with the state and the outs that the task's instance gives, or breaks where the instance
/// breaks, and ends in no other way; that state and those outs are words, as many as the task's cells have.
/// Where the code isn't too long, it meets the typing rules. Its cells have as many words as the task's. An
/// expression's code costs the same each time.
pub fn translation()
    ensures stands { (t : Tree) → CodedTask t (translate t) }
    ensures size { (t : Tree) → length (translate t).instrs ≡ code_len t }
    ensures right { (t : Tree) → IsChecked t → IsRight t (translate t) }
    ensures words { (t : Tree) → IsChecked t → KeepsWords t }
    ensures widths { (t : Tree) → IsChecked t → HasWidths t (translate t) }
    ensures verified { (t : Tree) → IsChecked t → code_len t ≤ 65535 → IsVerified (translate t) }
    ensures costs { (h : ℕ) → (e : Ex) → costs_of (ex_code h e) ≡ ex_cost e }
{}
