//! The longest lexeme at the front of a text.
ghost use Rattle.std.specs.Prelude.{◌≡◌, ◌≢◌, ◌+◌, ◌^◌, ◌<◌, ◌≤◌, ℕ, length, take, min, slice_index, false, true, IfSome, None};
ghost use Rattle.std.specs.List.{list_all, prefix_len};
ghost use Rattle.std.specs.Char.{is_ascii_digit};
ghost use Rattle.mc_tree.specs.Lexeme.{is_blank, is_letter, is_word_byte, is_in_line, word_kind, value, in_table, signs};
ghost use Rattle.mc_tree.specs.Tokens.{Longest, NothingBegins};
ghost use Rattle.mc_lex.specs.Scan.{plain, closes, IsOther, BeginsNoComment};

use crate::table::{keyword, sign_of};
use mc_tree::{Sign, TokenKind};

/// What stands at the front of a text.
#[derive(Clone, Copy)]
pub enum Lexeme {
    /// Blanks or a comment.
    Gap,
    /// A token.
    Token(TokenKind),
    /// A zero before a digit, or a comment that isn't closed.
    Malformed,
}

/// The longest lexeme at the front of a text.
#[derive(Clone, Copy)]
pub struct Front {
    /// How many bytes it has.
    pub len: usize,
    /// What it is.
    pub lexeme: Lexeme,
}

/// The longest lexeme at the front of the text, where one begins there.
pub fn front_of(rest: &[u8]) -> Option<Front>
    requires { 0 < length rest.now }
    ensures some { IfSome result (λ front. Longest rest.now front.len (plain front.lexeme)) }
    ensures none { result ≡ None → NothingBegins rest.now }
{
    let first = rest[0];
    if is_blank_byte(first) {
        return Some(blanks(rest));
    }
    if first.is_ascii_digit() {
        return Some(number(rest));
    }
    if begins_word(first) {
        return Some(word(rest));
    }
    if first == b'/' && rest.len() > 1 && rest[1] == b'/' {
        return Some(line_comment(rest));
    }
    if first == b'/' && rest.len() > 1 && rest[1] == b'*' {
        return Some(comment(rest));
    }
    sign(rest)
}

fn is_blank_byte(b: u8) -> bool
    ensures { result ≡ is_blank b }
{
    b == b' ' || b == b'\t' || b == b'\n' || b == b'\r'
}

fn begins_word(b: u8) -> bool
    ensures { result ≡ is_letter b }
{
    b.is_ascii_alphabetic() || b == b'_'
}

fn continues_word(b: u8) -> bool
    ensures { result ≡ is_word_byte b }
{
    b.is_ascii_alphanumeric() || b == b'_'
}

// The blanks at the front.
fn blanks(rest: &[u8]) -> Front
    requires some { 0 < length rest.now }
    requires first { is_blank (slice_index rest.now 0) ≡ true }
    ensures { Longest rest.now result.len (plain result.lexeme) }
{
    Front {
        len: blank_count(rest),
        lexeme: Lexeme::Gap,
    }
}

fn blank_count(rest: &[u8]) -> usize
    ensures { result ≡ prefix_len is_blank rest.now }
{
    rest.iter().take_while(|b| is_blank_byte(**b)).count()
}

// The number at the front.
fn number(rest: &[u8]) -> Front
    requires some { 0 < length rest.now }
    requires blank { is_blank (slice_index rest.now 0) ≡ false }
    requires first { is_ascii_digit (slice_index rest.now 0) ≡ true }
    ensures { Longest rest.now result.len (plain result.lexeme) }
{
    let len = digit_count(rest);
    let value = value_of(&rest[..len]);
    let lexeme = if rest[0] == b'0' && len > 1 {
        Lexeme::Malformed
    } else {
        Lexeme::Token(TokenKind::Number(value))
    };
    Front { len, lexeme }
}

fn digit_count(rest: &[u8]) -> usize
    ensures { result ≡ prefix_len is_ascii_digit rest.now }
{
    rest.iter().take_while(|b| b.is_ascii_digit()).count()
}

// A greater number than this one is kept as this one.
const GREATEST: u64 = 4_294_967_296;

// The number that digits write, as it is kept.
fn value_of(digits: &[u8]) -> u64
    requires { list_all is_ascii_digit digits.now ≡ true }
    ensures { result ≡ min (value digits.now) (2 ^ 32) }
{
    let mut n: u64 = 0;
    for digit in digits {
        n = (n * 10 + u64::from(*digit - b'0')).min(GREATEST);
    }
    n
}

// The keyword or name at the front.
fn word(rest: &[u8]) -> Front
    requires some { 0 < length rest.now }
    requires blank { is_blank (slice_index rest.now 0) ≡ false }
    requires digit { is_ascii_digit (slice_index rest.now 0) ≡ false }
    requires first { is_letter (slice_index rest.now 0) ≡ true }
    ensures { Longest rest.now result.len (plain result.lexeme) }
{
    let len = word_count(rest);
    Front {
        len,
        lexeme: Lexeme::Token(kind_of(&rest[..len])),
    }
}

fn word_count(rest: &[u8]) -> usize
    ensures { result ≡ prefix_len is_word_byte rest.now }
{
    rest.iter().take_while(|b| continues_word(**b)).count()
}

#[tactic(auto, unfolding(mc_tree::specs::Lexeme::word_kind))]
fn kind_of(word: &[u8]) -> TokenKind
    ensures { result ≡ word_kind word.now }
{
    match keyword(word) {
        Some(key) => TokenKind::Key(key),
        None => TokenKind::Name,
    }
}

// The comment at the front, from `//` to the end of the line.
fn line_comment(rest: &[u8]) -> Front
    requires two { 1 < length rest.now }
    requires first { slice_index rest.now 0 ≡ 47 }
    requires second { slice_index rest.now 1 ≡ 47 }
    ensures { Longest rest.now result.len (plain result.lexeme) }
{
    Front {
        len: line_count(rest),
        lexeme: Lexeme::Gap,
    }
}

fn line_count(rest: &[u8]) -> usize
    ensures { result ≡ prefix_len is_in_line rest.now }
{
    rest.iter().take_while(|b| **b != b'\n').count()
}

// The comment at the front, from `/*` to the next `*/`.
fn comment(rest: &[u8]) -> Front
    requires two { 1 < length rest.now }
    requires first { slice_index rest.now 0 ≡ 47 }
    requires second { slice_index rest.now 1 ≡ 42 }
    ensures { Longest rest.now result.len (plain result.lexeme) }
{
    match closing(&rest[2..]) {
        Some(i) => Front {
            len: i + 4,
            lexeme: Lexeme::Gap,
        },
        None => Front {
            len: rest.len(),
            lexeme: Lexeme::Malformed,
        },
    }
}

// Where the first `*/` stands.
fn closing(inner: &[u8]) -> Option<usize>
    ensures found { IfSome result (λ i. (i + 1 < length inner.now) × (closes inner.now i ≡ true)) }
    ensures first { IfSome result (λ i. (j : ℕ) → j < i → closes inner.now j ≡ false) }
    ensures none { result ≡ None → (j : ℕ) → closes inner.now j ≡ false }
{
    for i in 1..inner.len() {
        if inner[i - 1] == b'*' && inner[i] == b'/' {
            return Some(i - 1);
        }
    }
    None
}

// The longest sign at the front.
fn sign(rest: &[u8]) -> Option<Front>
    requires some { 0 < length rest.now }
    requires other { IsOther (slice_index rest.now 0) }
    requires no_comment { BeginsNoComment rest.now }
    ensures some { IfSome result (λ front. Longest rest.now front.len (plain front.lexeme)) }
    ensures none { result ≡ None → NothingBegins rest.now }
{
    match sign_of_first(rest, 2) {
        Some(sign) => Some(sign_front(sign, 2)),
        None => match sign_of_first(rest, 1) {
            Some(sign) => Some(sign_front(sign, 1)),
            None => None,
        },
    }
}

// The sign that the first bytes spell, where there are so many.
fn sign_of_first(rest: &[u8], len: usize) -> Option<Sign>
    ensures long { len ≤ length rest.now → result ≡ in_table signs (take len rest.now) }
    ensures short { length rest.now < len → result ≡ None }
{
    if rest.len() < len {
        return None;
    }
    sign_of(&rest[..len])
}

fn sign_front(sign: Sign, len: usize) -> Front
    ensures { result ≡ record { len = len; lexeme = Lexeme.Token (TokenKind.Sign sign) } }
{
    Front {
        len,
        lexeme: Lexeme::Token(TokenKind::Sign(sign)),
    }
}
