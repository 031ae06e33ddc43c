//! Reads the raw tree that the tokens of a text spell.
#![tactic(auto)]

ghost use Rattle.std.specs.Prelude.{◌≡◌, ◌≤◌, ℕ, length, IfOk, IsErrAnd, MatchResult, ◌⊎◌, Err};
ghost use Rattle.mc_tree.specs.Tokens.{IsTokens};
ghost use Rattle.mc_tree.specs.Raw.{Task};
ghost use Rattle.mc_tree.specs.RawPlain.{plain_task};
ghost use Rattle.mc_tree.specs.RawSize.{raw_nodes};
ghost use Rattle.mc_tree.specs.Spellable.{IsSpellable};
ghost use Rattle.mc_tree.specs.Grammar.{Spells, IsHopelessAt};

mod cursor;
mod declaration;
mod expression;
mod role;
mod statement;
mod task;

use cursor::Cursor;
use mc_tree::{RawTask, Token};
use std::alloc::Global;

/// Why no tree was read.
#[derive(Clone, Copy, Debug, PartialEq, Eq)]
pub enum ReadFault {
    /// The tokens before this one begin a task, and with it they begin none. The number of tokens
    /// means that all of them begin a task and are none.
    Syntax(u32),
    /// There was no memory.
    Memory,
}

/// The raw tree that a text spells, from its tokens. It goes once from left to right, in a time that
/// grows with their number.
///
/// The answer is `Syntax` exactly where the tokens spell no tree. It tells the number of the first
/// token with which they begin no task, whatever follows, or their number where all of them begin
/// one. The language is this project's own.
pub fn read(alloc: Global, bytes: &[u8], tokens: &[Token]) -> Result<RawTask, ReadFault>
    requires short { length bytes.now ≤ 65536 }
    requires tokens { IsTokens bytes.now tokens.now }
    ensures ok { IfOk result (λ t. Spells bytes.now tokens.now (plain_task t)) }
    ensures bad { (n : ℕ) → result ≡ Err (ReadFault.Syntax n) → IsHopelessAt tokens.now n }

    // The tree has at most as many nodes as the text has tokens, and its declarations stand in their
    // places.
    ensures small { IfOk result (λ t. raw_nodes (plain_task t) ≤ length tokens.now) }
    ensures spellable { IfOk result (λ t. IsSpellable (plain_task t)) }

    // Unless memory runs out, a text that spells a tree gives it, and one that spells none tells its
    // hopeless token. So it has at most one of them.
    ensures only { (t : Task) → Spells bytes.now tokens.now t → MatchResult result (λ r. plain_task r ≡ t) (λ fault. fault ≡ ReadFault.Memory) }
    ensures only_bad { (n : ℕ) → IsHopelessAt tokens.now n → IsErrAnd result (λ fault. (fault ≡ ReadFault.Syntax n) ⊎ (fault ≡ ReadFault.Memory)) }
{
    let mut cursor = Cursor { at: 0 };
    task::task(alloc, bytes, &mut cursor, tokens)
}
