//! What a line of a script says.
ghost use Rattle.std.specs.Prelude.{◌≡◌, false};
ghost use Rattle.std.specs.Option.{option_map};
ghost use Rattle.script_reader.specs.Entry.{Silent, Paced, unit_of, side_of, number_in, silence_of, pace_of, text_entry};
ghost use Rattle.script_reader.specs.Reads.{Reads, said};
ghost use Rattle.script_reader.specs.Words.{words_between};

use crate::words::{first_word, number_of};
use mars_base::Side;
use script::{Pace, Silence};

/// What a line says.
#[derive(Clone, Copy, Debug, PartialEq, Eq)]
pub enum Line {
    /// Nothing: it is blank, or a comment.
    Nothing,
    /// A replica falls silent.
    Silence(Silence),
    /// A replica's clock goes ahead.
    Pace(Pace),
}

/// What a line says, for a cluster of so many units and a cycle of so many ticks; None exactly where it isn't in
/// the grammar.
pub fn line_of(text: &[u8], units: u8, ticks: u32) -> Option<Line>
    ensures { option_map said result ≡ text_entry false units ticks text.now }
{
    if let [b'#', ..] = text {
        return Some(Line::Nothing);
    }
    let Some((keyword, text)) = first_word(text) else {
        return Some(Line::Nothing);
    };
    if keyword == b"silence".as_slice() {
        return Some(Line::Silence(silence(text, units, ticks)?));
    }
    if keyword == b"pace".as_slice() {
        return Some(Line::Pace(pace(text, units)?));
    }
    None
}

// A silence by the words behind the first.
fn silence(text: &[u8], units: u8, ticks: u32) -> Option<Silence>
    ensures { option_map Silent result ≡ silence_of units ticks (words_between text.now) }
{
    let (unit, text) = unit_word(text, units)?;
    let (side, text) = side_word(text)?;
    let (cycle, text) = number_word(text, 0, 1_000_000)?;
    let (tick, text) = number_word(text, 0, ticks)?;
    match first_word(text) {
        None => Some(Silence {
            unit,
            side,
            cycle,
            tick,
        }),
        Some(_) => None,
    }
}

// A pace by the words behind the first.
fn pace(text: &[u8], units: u8) -> Option<Pace>
    ensures { option_map Paced result ≡ pace_of units (words_between text.now) }
{
    let (cycle, text) = number_word(text, 0, 1_000_000)?;
    let (unit, text) = unit_word(text, units)?;
    let (side, text) = side_word(text)?;
    let (count, text) = number_word(text, 1, 65_537)?;
    match first_word(text) {
        None => Some(Pace {
            cycle,
            unit,
            side,
            count,
        }),
        Some(_) => None,
    }
}

// A unit's number as the first word, and what stands behind it.
fn unit_word(text: &[u8], units: u8) -> Option<(u8, &[u8])>
    ensures { Reads (unit_of units) text.now result }
{
    let (word, behind) = first_word(text)?;
    Some((unit_of(word, units)?, behind))
}

// A side as the first word, and what stands behind it.
fn side_word(text: &[u8]) -> Option<(Side, &[u8])>
    ensures { Reads side_of text.now result }
{
    let (word, behind) = first_word(text)?;
    Some((side_of(word)?, behind))
}

// A number from `low` on and below `past` as the first word, and what stands behind it.
fn number_word(text: &[u8], low: u32, past: u32) -> Option<(u32, &[u8])>
    ensures { Reads (number_in low past) text.now result }
{
    let (word, behind) = first_word(text)?;
    Some((number_in(word, low, past)?, behind))
}

// The number of a unit: `u` and one digit.
fn unit_of(word: &[u8], units: u8) -> Option<u8>
    ensures { result ≡ unit_of units word.now }
{
    match word {
        [b'u', digit @ b'0'..=b'9'] if *digit - b'0' < units => Some(*digit - b'0'),
        _ => None,
    }
}

// `A` or `B`.
fn side_of(word: &[u8]) -> Option<Side>
    ensures { result ≡ side_of word.now }
{
    match word {
        [b'A'] => Some(Side::A),
        [b'B'] => Some(Side::B),
        _ => None,
    }
}

// A number of 1 to 10 digits from `low` on and below `past`.
fn number_in(word: &[u8], low: u32, past: u32) -> Option<u32>
    ensures { result ≡ number_in low past word.now }
{
    let number = number_of(word)?;
    if number < u64::from(low) || u64::from(past) <= number {
        return None;
    }
    Some(number as u32)
}
