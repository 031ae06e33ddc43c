//! Tokens: cuts a source text into names, numbers, keywords and signs.
#![tactic(auto)]

ghost use Rattle.std.specs.Prelude.{◌≡◌, ◌≤◌, ℕ, List, length, ◌⊎◌, IfOk, IsErrAnd, MatchResult, Err, ◌<◌, ◌^◌};
ghost use Rattle.mc_tree.specs.declared.token.Token.{Token as TokenData};
ghost use Rattle.mc_tree.specs.Tokens.{IsTokens, IsBadAt, token};

mod scan;
mod table;

use mars_base::Span;
pub use mc_tree::{Key, Sign, Token, TokenKind};
use scan::{Lexeme, front_of};
use std::alloc::{AllocFailed, Global};

/// Why a text has no list of tokens.
#[derive(Clone, Copy, Debug, PartialEq, Eq)]
pub enum LexFault {
    /// No token, blank or comment begins at this offset, after those before it.
    Bad(u32),
    /// There was no memory.
    Memory,
}

impl<T: Drop> From<AllocFailed<T>> for LexFault {
    ghost use Rattle.mc_lex.specs.declared.LexFault.TheVariants.{Memory};

    ghost from_gives = { λ _ fault. fault ≡ Memory };

    fn from(_error: AllocFailed<T>) -> LexFault {
        LexFault::Memory
    }
}

/// The tokens of a text, the longest one each time, with blanks and comments left out. The time grows
/// with the length of the text.
///
/// The answer is `Bad` exactly where some byte begins nothing: a byte of no token, a `/*` that isn't
/// closed, or a `0` before a digit. It tells the offset of the first one.
pub fn lex(alloc: Global, bytes: &[u8]) -> Result<Vec<Token>, LexFault>
    requires { length bytes.now ≤ 65536 }
    ensures ok { IfOk result (λ tokens. IsTokens bytes.now tokens.items) }
    ensures bad { (offset : ℕ) → result ≡ Err (LexFault.Bad offset) → IsBadAt bytes.now offset }

    // Unless memory runs out, a text that has tokens gives them, and a text that has a bad byte tells it.
    ensures only { (tokens : List TokenData) → IsTokens bytes.now tokens
        → MatchResult result (λ v. v.items ≡ tokens) (λ fault. fault ≡ LexFault.Memory) }
    ensures only_bad { (offset : ℕ) → IsBadAt bytes.now offset
        → IsErrAnd result (λ fault. (fault ≡ LexFault.Bad offset) ⊎ (fault ≡ LexFault.Memory)) }
{
    cut(alloc, bytes)
}

// Cuts lexeme after lexeme from the front.
fn cut(alloc: Global, bytes: &[u8]) -> Result<Vec<Token>, LexFault>
    requires { length bytes.now ≤ 65536 }
    ensures ok { IfOk result (λ tokens. IsTokens bytes.now tokens.items) }
    ensures bad { (offset : ℕ) → result ≡ Err (LexFault.Bad offset) → IsBadAt bytes.now offset }
{
    let mut tokens = Vec::new(alloc);
    let mut at: usize = 0;
    while at < bytes.len() {
        let Some(front) = front_of(&bytes[at..]) else {
            return Err(LexFault::Bad(at as u32));
        };
        let end = at + front.len;
        match front.lexeme {
            Lexeme::Gap => {}
            Lexeme::Token(kind) => tokens.push(spanned(kind, at, end))?,
            Lexeme::Malformed => return Err(LexFault::Bad(at as u32)),
        }
        at = end;
    }
    Ok(tokens)
}

// A token and where it stands.
fn spanned(kind: TokenKind, from: usize, to: usize) -> Token
    requires from { from < 2 ^ 32 }
    requires to { to < 2 ^ 32 }
    ensures { result ≡ token kind from to }
{
    let span = Span {
        from: from as u32,
        to: to as u32,
    };
    Token { kind, span }
}

#[cfg(test)]
mod tests;
