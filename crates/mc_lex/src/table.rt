//! How keywords and signs are spelled.
ghost use Rattle.std.specs.Prelude.{◌≡◌, map};
ghost use Rattle.mc_tree.specs.Lexeme.{in_table, keywords, signs};

use mc_tree::{Key, Sign};

const KEYWORDS: [(&[u8], Key); 15] = [
    (b"task", Key::Task),
    (b"in", Key::In),
    (b"out", Key::Out),
    (b"state", Key::State),
    (b"func", Key::Func),
    (b"return", Key::Return),
    (b"body", Key::Body),
    (b"var", Key::Var),
    (b"if", Key::If),
    (b"else", Key::Else),
    (b"while", Key::While),
    (b"max", Key::Max),
    (b"scope", Key::Scope),
    (b"mark", Key::Mark),
    (b"sequence", Key::Sequence),
];

const SIGNS: [(&[u8], Sign); 29] = [
    (b";", Sign::Semicolon),
    (b",", Sign::Comma),
    (b"(", Sign::OpenParen),
    (b")", Sign::CloseParen),
    (b"[", Sign::OpenBracket),
    (b"]", Sign::CloseBracket),
    (b"{", Sign::OpenBrace),
    (b"}", Sign::CloseBrace),
    (b"=", Sign::Assign),
    (b"||", Sign::OrOr),
    (b"&&", Sign::AndAnd),
    (b"|", Sign::Bar),
    (b"^", Sign::Caret),
    (b"&", Sign::Ampersand),
    (b"==", Sign::EqualEqual),
    (b"!=", Sign::NotEqual),
    (b"<", Sign::Less),
    (b"<=", Sign::LessEqual),
    (b">", Sign::Greater),
    (b">=", Sign::GreaterEqual),
    (b"<<", Sign::ShiftLeft),
    (b">>", Sign::ShiftRight),
    (b"+", Sign::Plus),
    (b"-", Sign::Minus),
    (b"*", Sign::Star),
    (b"/", Sign::Slash),
    (b"%", Sign::Percent),
    (b"!", Sign::Exclamation),
    (b"~", Sign::Tilde),
];

// What a table has for a spelling.
fn lookup<T: Copy>(table: &[(&[u8], T)], word: &[u8]) -> Option<T>
    ensures { result ≡ in_table (map (λ row. (row.0.now, row.1)) table.now) word.now }
{
    for row in table {
        if word == row.0 {
            return Some(row.1);
        }
    }
    None
}

/// The keyword that a word is.
pub fn keyword(word: &[u8]) -> Option<Key>
    ensures { result ≡ in_table keywords word.now }
{
    lookup(&KEYWORDS, word)
}

/// The sign that a word is.
pub fn sign_of(word: &[u8]) -> Option<Sign>
    ensures { result ≡ in_table signs word.now }
{
    lookup(&SIGNS, word)
}
