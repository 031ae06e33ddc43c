//! Texts with their tokens, and texts with a bad byte, written from the grammar.
use super::*;
use std::test::Fail;

// A kind of token, and the offsets of its first byte and after its last one.
type Row = (TokenKind, u32, u32);

const NAME: TokenKind = TokenKind::Name;

const SLASH: TokenKind = TokenKind::Sign(Sign::Slash);

const KEYWORDS: [Row; 15] = [
    (TokenKind::Key(Key::Task), 0, 4),
    (TokenKind::Key(Key::In), 5, 7),
    (TokenKind::Key(Key::Out), 8, 11),
    (TokenKind::Key(Key::State), 12, 17),
    (TokenKind::Key(Key::Func), 18, 22),
    (TokenKind::Key(Key::Return), 23, 29),
    (TokenKind::Key(Key::Body), 30, 34),
    (TokenKind::Key(Key::Var), 35, 38),
    (TokenKind::Key(Key::If), 39, 41),
    (TokenKind::Key(Key::Else), 42, 46),
    (TokenKind::Key(Key::While), 47, 52),
    (TokenKind::Key(Key::Max), 53, 56),
    (TokenKind::Key(Key::Scope), 57, 62),
    (TokenKind::Key(Key::Mark), 63, 67),
    (TokenKind::Key(Key::Sequence), 68, 76),
];

const SIGNS: [Row; 29] = [
    (TokenKind::Sign(Sign::Semicolon), 0, 1),
    (TokenKind::Sign(Sign::Comma), 1, 2),
    (TokenKind::Sign(Sign::OpenParen), 2, 3),
    (TokenKind::Sign(Sign::CloseParen), 3, 4),
    (TokenKind::Sign(Sign::OpenBracket), 4, 5),
    (TokenKind::Sign(Sign::CloseBracket), 5, 6),
    (TokenKind::Sign(Sign::OpenBrace), 6, 7),
    (TokenKind::Sign(Sign::CloseBrace), 7, 8),
    (TokenKind::Sign(Sign::Assign), 9, 10),
    (TokenKind::Sign(Sign::OrOr), 11, 13),
    (TokenKind::Sign(Sign::AndAnd), 14, 16),
    (TokenKind::Sign(Sign::Bar), 17, 18),
    (TokenKind::Sign(Sign::Caret), 19, 20),
    (TokenKind::Sign(Sign::Ampersand), 21, 22),
    (TokenKind::Sign(Sign::EqualEqual), 23, 25),
    (TokenKind::Sign(Sign::NotEqual), 26, 28),
    (TokenKind::Sign(Sign::Less), 29, 30),
    (TokenKind::Sign(Sign::LessEqual), 31, 33),
    (TokenKind::Sign(Sign::Greater), 34, 35),
    (TokenKind::Sign(Sign::GreaterEqual), 36, 38),
    (TokenKind::Sign(Sign::ShiftLeft), 39, 41),
    (TokenKind::Sign(Sign::ShiftRight), 42, 44),
    (TokenKind::Sign(Sign::Plus), 45, 46),
    (TokenKind::Sign(Sign::Minus), 46, 47),
    (TokenKind::Sign(Sign::Star), 47, 48),
    (TokenKind::Sign(Sign::Slash), 48, 49),
    (TokenKind::Sign(Sign::Percent), 49, 50),
    (TokenKind::Sign(Sign::Exclamation), 50, 51),
    (TokenKind::Sign(Sign::Tilde), 51, 52),
];

const GOOD: [(&[u8], &[Row]); 22] = [
    (b"", &[]),
    (b" \t\r\n", &[]),
    (b"// only", &[]),
    (b"/**//***/", &[]),
    (b"x", &[(NAME, 0, 1)]),
    (
        b"marker _a9 Task",
        &[(NAME, 0, 6), (NAME, 7, 10), (NAME, 11, 15)],
    ),
    (
        b"task in out state func return body var if else while max scope mark sequence",
        &KEYWORDS,
    ),
    (
        b";,()[]{} = || && | ^ & == != < <= > >= << >> +-*/%!~",
        &SIGNS,
    ),
    (
        b"a<<=b",
        &[
            (NAME, 0, 1),
            (TokenKind::Sign(Sign::ShiftLeft), 1, 3),
            (TokenKind::Sign(Sign::Assign), 3, 4),
            (NAME, 4, 5),
        ],
    ),
    (
        b"===",
        &[
            (TokenKind::Sign(Sign::EqualEqual), 0, 2),
            (TokenKind::Sign(Sign::Assign), 2, 3),
        ],
    ),
    (
        b"|||",
        &[
            (TokenKind::Sign(Sign::OrOr), 0, 2),
            (TokenKind::Sign(Sign::Bar), 2, 3),
        ],
    ),
    (
        b"0 10",
        &[(TokenKind::Number(0), 0, 1), (TokenKind::Number(10), 2, 4)],
    ),
    (b"12ab", &[(TokenKind::Number(12), 0, 2), (NAME, 2, 4)]),
    (b"4294967295", &[(TokenKind::Number(4_294_967_295), 0, 10)]),
    (b"4294967296", &[(TokenKind::Number(4_294_967_296), 0, 10)]),
    (b"4294967297", &[(TokenKind::Number(4_294_967_296), 0, 10)]),
    (
        b"99999999999999999999999",
        &[(TokenKind::Number(4_294_967_296), 0, 23)],
    ),
    (b"// a\rb\nc", &[(NAME, 7, 8)]),
    (b"x//\xff*/\n/", &[(NAME, 0, 1), (SLASH, 7, 8)]),
    (b"a/* \xff\n */b", &[(NAME, 0, 1), (NAME, 9, 10)]),
    (
        b"/* a */ b */",
        &[
            (NAME, 8, 9),
            (TokenKind::Sign(Sign::Star), 10, 11),
            (SLASH, 11, 12),
        ],
    ),
    (b"/ /", &[(SLASH, 0, 1), (SLASH, 2, 3)]),
];

const BAD: [(&[u8], u32); 12] = [
    (b"@", 0),
    (b"task t; @", 8),
    (b"a\x00", 1),
    (b"x \xc3\xa9", 2),
    (b"01", 0),
    (b"x = 007;", 4),
    (b"00", 0),
    (b"/*", 0),
    (b"a /*/", 2),
    (b"/**/ /* b * /", 5),
    (b"// a\n#", 5),
    (b"y = \"z\" @", 4),
];

#[test]
fn texts_have_these_tokens(rt: HostRuntime) -> Result<(), Fail> {
    for (text, rows) in GOOD {
        assert!(rt; text.len() <= 65_536);
        let tokens = lex(rt.alloc(), text)?;
        assert_eq!(rt; tokens.len(), rows.len(), "in {text:?}");
        for (token, row) in tokens.iter().zip(rows) {
            assert_eq!(rt; token.kind, row.0, "in {text:?}");
            assert_eq!(rt; token.span.from, row.1, "in {text:?}");
            assert_eq!(rt; token.span.to, row.2, "in {text:?}");
        }
    }
    Ok(())
}

#[test]
fn texts_have_this_bad_byte(rt: HostRuntime) {
    for (text, offset) in BAD {
        assert!(rt; text.len() <= 65_536);
        assert_eq!(rt;
            lex(rt.alloc(), text).err(),
            Some(LexFault::Bad(offset)),
            "in {text:?}"
        );
    }
}

// The greatest length, with a token for each byte, and with the longest ones.
#[test]
fn a_text_of_the_greatest_length(rt: HostRuntime) -> Result<(), Fail> {
    let alloc = rt.alloc();
    for (part, len, kind) in [
        (b";".as_slice(), 1, TokenKind::Sign(Sign::Semicolon)),
        (b"sequence\n".as_slice(), 8, TokenKind::Key(Key::Sequence)),
        (b"// any bytes\na".as_slice(), 1, NAME),
    ] {
        let mut text = Vec::new(alloc);
        let count = 65_536 / part.len().max(1);
        for _ in 0..count {
            text.extend_from_slice(part)?;
        }
        assert!(rt; text.len() <= 65_536);
        let tokens = lex(alloc, &text)?;
        assert_eq!(rt; tokens.len(), count);
        for token in &tokens {
            assert_eq!(rt; token.kind, kind);
            assert!(rt; token.span.from < token.span.to && token.span.to - token.span.from == len);
        }
    }
    Ok(())
}
