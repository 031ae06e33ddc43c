//! The words of a line.
ghost use Rattle.std.specs.Prelude.{◌≡◌, ◌≢◌, ◌<◌, ◌≤◌, ◌⊎◌, [], length, drop, slice_index, Some, None, MatchOption, IfSome, IfNone, true, false};
ghost use Rattle.lines.specs.Found.{NoFeedBelow};
ghost use Rattle.lines.specs.Grammar.{is_blank, parts, words_in, onto_words, number_of, words_of};
ghost use Rattle.lines.specs.First.{line_text, first_part, in_range, reading_of, BeginsWord, EndsLine, ReadsWord};

/// The words of the first line of a text, put into `into`: how many bytes the line has with its end, or
/// None exactly where it hasn't as many words as `into`. Where it is None, what `into` holds is open. The
/// line is gone over once, and its end is found on the way.
pub fn read_line(text: &[u8], into: &mut [i32]) -> Option<usize>
    ensures words { IfSome result (λ _. words_of (length into.old) (line_text text.now) ≡ Some into.new) }
    ensures end { IfSome result (EndsLine text.now) }
    ensures none { IfNone result (words_of (length into.old) (line_text text.now) ≡ None) }
{
    let mut at = 0;
    for word in into.iter_mut() {
        let (value, next) = word_at(text, behind_blanks(text, at))?;
        *word = value;
        at = next;
    }
    line_end(text, behind_blanks(text, at))
}

// The place behind the blanks that stand at a place.
fn behind_blanks(text: &[u8], from: usize) -> usize
    requires within { from ≤ length text.now }
    requires line { NoFeedBelow from text.now }
    ensures within { result ≤ length text.now }
    ensures line { NoFeedBelow result text.now }
    ensures words { words_in (parts (line_text (drop from text.now))) ≡ words_in (parts (line_text (drop result text.now))) }
    ensures begins { result < length text.now → is_blank (slice_index text.now result) ≡ false }
{
    let mut at = from;
    while at < text.len() {
        match text[at] {
            b' ' | b'\t' => at += 1,
            _ => return at,
        }
    }
    at
}

// The word that begins at a place, and where it ends; None where the line ends there, or where the bytes up
// to the next blank or the line's end are no word.
fn word_at(text: &[u8], from: usize) -> Option<(i32, usize)>
    requires within { from ≤ length text.now }
    requires line { NoFeedBelow from text.now }
    requires begins { from < length text.now → is_blank (slice_index text.now from) ≡ false }
    ensures word { ReadsWord (line_text (drop from text.now)) (λ next. line_text (drop next text.now)) result }
    ensures within { IfSome result (λ r. r.1 ≤ length text.now) }
    ensures line { IfSome result (λ r. NoFeedBelow r.1 text.now) }
{
    let negative = begins_minus(text, from);
    digits_at(text, from + usize::from(negative), negative)
}

// Whether a minus stands at a place.
fn begins_minus(text: &[u8], from: usize) -> bool
    ensures minus { result ≡ true → (from < length text.now) × (slice_index text.now from ≡ 45) }
    ensures other { result ≡ false → from < length text.now → slice_index text.now from ≢ 45 }
{
    from < text.len() && text[from] == b'-'
}

// The word of the digits at a place, behind a minus or with none.
fn digits_at(text: &[u8], from: usize, negative: bool) -> Option<(i32, usize)>
    requires within { from ≤ length text.now }
    requires line { NoFeedBelow from text.now }
    ensures word { BeginsWord (reading_of negative) (line_text (drop from text.now)) (λ next. line_text (drop next text.now)) result }
    ensures within { IfSome result (λ r. r.1 ≤ length text.now) }
    ensures line { IfSome result (λ r. NoFeedBelow r.1 text.now) }
{
    let (n, next) = number(text, from)?;
    let word = word_of(n, negative)?;
    Some((word, next))
}

// The word of a number behind a minus or with none, where it is in a word's range.
fn word_of(n: u64, negative: bool) -> Option<i32>
    ensures { result ≡ in_range negative n }
{
    if n > (1 << 31) - u64::from(!negative) {
        return None;
    }
    let n = n as i64;
    Some(if negative { -n } else { n } as i32)
}

// The number of 1 to 10 digits at a place, and where they end; None where fewer or more stand there, or
// where neither a blank nor the line's end follows them.
fn number(text: &[u8], from: usize) -> Option<(u64, usize)>
    requires within { from ≤ length text.now }
    requires line { NoFeedBelow from text.now }
    ensures number { BeginsWord number_of (line_text (drop from text.now)) (λ next. line_text (drop next text.now)) result }
    ensures within { IfSome result (λ r. r.1 ≤ length text.now) }
    ensures line { IfSome result (λ r. NoFeedBelow r.1 text.now) }
{
    let mut n = 0u64;
    let mut at = from;
    while at < text.len() {
        match text[at] {
            byte @ b'0'..=b'9' => n = n.wrapping_mul(10).wrapping_add(u64::from(byte - b'0')),
            _ => break,
        }
        at += 1;
    }
    if at == from || at - from > 10 || !ends_part(text, at) {
        return None;
    }
    Some((n, at))
}

// Whether a blank or the line's end stands at a place.
fn ends_part(text: &[u8], at: usize) -> bool
    requires { at ≤ length text.now }
    ensures ends { result ≡ true → first_part (line_text (drop at text.now)) ≡ [] }
    ensures goes { result ≡ false → (at < length text.now) × (0 < length (first_part (line_text (drop at text.now)))) × (slice_index (first_part (line_text (drop at text.now))) 0 ≡ slice_index text.now at) }
{
    matches!(
        &text[at..],
        [] | [b' ' | b'\t' | b'\n', ..] | [b'\r', b'\n', ..]
    )
}

// How many bytes the line has whose end stands at a place; None where it doesn't end there.
fn line_end(text: &[u8], at: usize) -> Option<usize>
    requires within { at ≤ length text.now }
    requires line { NoFeedBelow at text.now }
    ensures ends { IfSome result (λ _. line_text (drop at text.now) ≡ []) }
    ensures end { IfSome result (EndsLine text.now) }
    ensures none { IfNone result ((at < length text.now) × (0 < length (line_text (drop at text.now))) × (slice_index (line_text (drop at text.now)) 0 ≡ slice_index text.now at)) }
{
    match &text[at..] {
        [] => Some(at),
        [b'\n', ..] => Some(at + 1),
        [b'\r', b'\n', ..] => Some(at + 2),
        _ => None,
    }
}
