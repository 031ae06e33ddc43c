//! The lines of an input.
ghost use Rattle.std.specs.Prelude.{◌≡◌, ◌≤◌, ◌+◌, ℕ, Ok, Err, Some, None, IfOk, IsErr, OnErr, IfSome, IfNone, IsTrue, ◌↔◌, ◌⊎◌, ◌<◌, true, false, [], length, take, All, FitsSigned};
ghost use Rattle.std.specs.Int.{w32};
ghost use Rattle.std.specs.Option.{option_map, ForSome, ForNone};
ghost use Rattle.std.specs.Io.KnownBytes.{prepend_known, IsAtEnd};
ghost use Rattle.mars_base.specs.Causes.{HasCause, Rose};
ghost use Rattle.lines.specs.Found.{Finds, HoldsFeed, IsWhole, NoFeedBelow, NoneCame, WithoutFeed};
ghost use Rattle.lines.specs.First.{PassesLine, RefusesLine};

use crate::LineBuf;
use crate::grammar::read_line;
use crate::window::{LONGEST, Window};
use mars_base::{Memory, Source, SourceFault};
use memchr::memrchr;
use std::alloc::Global;

/// How many lines an input has at most; a further line is a bad line.
const MOST_LINES: u64 = 1_000_000;

/// What `next` came to.
#[derive(Clone, Copy, Debug, PartialEq, Eq)]
pub enum Next {
    /// A line, whose words stand in the given slice.
    Line,
    /// The end of the input.
    End,
}

/// Why there is no next line.
#[derive(Clone, Copy, Debug, PartialEq, Eq)]
pub enum LineFault {
    /// The line of this number, from 1, isn't in the grammar, or is the 1,000,001st.
    Bad(u64),
    /// A read of the source failed.
    Read,
}

impl From<SourceFault> for LineFault {
    ghost use Rattle.lines.specs.declared.reader.LineFault.TheVariants as line_fault;

    ghost from_gives = { λ _ e. e ≡ line_fault.Read };

    fn from(_fault: SourceFault) -> LineFault {
        LineFault::Read
    }
}

// What stands first among the bytes that are kept.
enum Found {
    // A line that a line feed ends.
    Line,
    // No line feed, and the input ends behind them; they are at most as many as a line has.
    Rest,
    // No line feed, and more bytes than a line has.
    Long,
}

/// Reads an input line by line. It takes all its memory at once, keeps what it took beyond a line, and
/// asks its source only where that holds no line feed, and never behind its end.
#[derive(Drop)]
pub struct LineReader {
    window: Window,
    count: u64,
    // How many of the bytes that are kept stand up to the last line feed among them, with it.
    whole: usize,
    // Whether the source came to its end; nothing is kept then.
    ended: bool,
    ghost counted: { count ≤ 1000000 },
    ghost lines: { IsWhole whole window },
    ghost over: { ended ≡ true → window ≡ [] },
}

impl LineReader {
    ghost use Rattle.lines.specs.Reader.{kept_of, count_of, is_over, lines_left, ReadsLine, StillHolds};
    ghost use Rattle.lines.specs.Lines.{Line, Bad, End};

    /// A reader at the first line.
    pub fn new(alloc: Global) -> Result<LineReader, Memory>
        ensures kept { IfOk result (λ r. kept_of r ≡ []) }
        ensures count { IfOk result (λ r. count_of r ≡ 0) }
        ensures over { IfOk result (λ r. is_over r ≡ false) }
    {
        Ok(LineReader {
            window: Window::new(alloc)?,
            count: 0,
            whole: 0,
            ended: false,
        })
    }

    /// Whether a whole line is kept, so that `next` asks nothing of the source.
    pub fn holds_line(&self) -> bool
        ensures { IsTrue result ↔ HoldsFeed (kept_of self.now) }
    {
        self.whole > 0
    }

    /// Puts the words of the next line into `into`, which has as many places as a line has words. `unsent`
    /// is the text that the lines before gave: where the source is asked, none of it waits any more.
    pub fn next<I: Source>(
        &mut self,
        source: &mut I,
        unsent: &LineBuf,
        into: &mut [i32],
    ) -> Result<Next, LineFault>
        requires sent { HoldsFeed (kept_of self.old) ⊎ (unsent.now ≡ []) }
        requires over { is_over self.old ≡ true → IsAtEnd (I.left source.old) }
        ensures alone { HoldsFeed (kept_of self.old) → source.new ≡ source.old }
        ensures line { result ≡ Ok Next.Line → lines_left self.old (I.left source.old) (length into.old) ≡ option_map (Line into.new) (lines_left self.new (I.left source.new) (length into.old)) }
        ensures counted { result ≡ Ok Next.Line → (count_of self.new ≡ count_of self.old + 1) × (count_of self.old < 1000000) }
        ensures fits { result ≡ Ok Next.Line → All (FitsSigned w32) into.new }
        ensures reads { result ≡ Ok Next.Line → ReadsLine self.old self.new (I.left source.old) (I.left source.new) (length into.old) into.new }
        ensures end { result ≡ Ok Next.End → IfSome (lines_left self.old (I.left source.old) (length into.old)) (λ lines. lines ≡ End) }
        ensures over { is_over self.new ≡ true → IsAtEnd (I.left source.new) }
        ensures at_end { result ≡ Ok Next.End → IsAtEnd (I.left source.new) }
        ensures bad { (n : ℕ) → result ≡ Err (LineFault.Bad n) → IfSome (lines_left self.old (I.left source.old) (length into.old)) (λ lines. lines ≡ Bad n) }
        ensures read { result ≡ Err LineFault.Read → Rose (I.faults source.old) (I.faults source.new) }
        ensures still { result ≡ Err LineFault.Read → StillHolds self.old self.new (I.left source.old) (I.left source.new) }
        ensures later { I.faults source.old ≤ I.faults source.new }
    {
        if self.ended {
            return Ok(Next::End);
        }
        match self.find_line(source, unsent)? {
            Found::Line => self.read_first(into, false),
            Found::Rest if self.window.bytes().is_empty() => {
                self.ended = true;
                Ok(Next::End)
            }
            Found::Rest => self.read_first(into, true),
            Found::Long => Err(LineFault::Bad(self.count + 1)),
        }
    }

    // What stands first, of the bytes that are kept or of what the source still gives.
    fn find_line<I: Source>(
        &mut self,
        source: &mut I,
        unsent: &LineBuf,
    ) -> Result<Found, SourceFault>
        requires going { is_over self.old ≡ false }
        requires sent { HoldsFeed (kept_of self.old) ⊎ (unsent.now ≡ []) }
        ensures bytes { prepend_known (kept_of self.new) (I.left source.new) ≡ prepend_known (kept_of self.old) (I.left source.old) }
        ensures front { take (length (kept_of self.old)) (kept_of self.new) ≡ kept_of self.old }
        ensures found { IfOk result (λ found. Finds (kept_of self.new) (I.left source.new) found) }
        ensures alone { HoldsFeed (kept_of self.old) → source.new ≡ source.old }
        ensures before { IsErr result → HoldsFeed (kept_of self.old) → ⊥ }
        ensures single { IsErr result → HoldsFeed (kept_of self.new) → ⊥ }
        ensures count { count_of self.new ≡ count_of self.old }
        ensures going { is_over self.new ≡ false }
        ensures cause { HasCause (I.faults source.old) (I.faults source.new) result }
    {
        if self.whole > 0 {
            return Ok(Found::Line);
        }
        self.ask_line(source, unsent)
    }

    // The same, where no line feed is kept.
    fn ask_line<I: Source>(
        &mut self,
        source: &mut I,
        unsent: &LineBuf,
    ) -> Result<Found, SourceFault>
        requires going { is_over self.old ≡ false }
        requires none { self.old.whole ≡ 0 }
        requires sent { unsent.now ≡ [] }
        ensures bytes { prepend_known (kept_of self.new) (I.left source.new) ≡ prepend_known (kept_of self.old) (I.left source.old) }
        ensures front { take (length (kept_of self.old)) (kept_of self.new) ≡ kept_of self.old }
        ensures found { IfOk result (λ found. Finds (kept_of self.new) (I.left source.new) found) }
        ensures none { OnErr result (NoFeedBelow (length (kept_of self.new)) (kept_of self.new)) }
        ensures count { count_of self.new ≡ count_of self.old }
        ensures going { is_over self.new ≡ false }
        ensures cause { HasCause (I.faults source.old) (I.faults source.new) result }
    {
        self.whole = fill_to_feed(&mut self.window, source, unsent)?;
        if self.whole > 0 {
            return Ok(Found::Line);
        }
        Ok(without_feed(self.window.bytes()))
    }

    // Reads the first line and goes over it, where it is one and not one too many; `last` tells that no line
    // feed ends it.
    fn read_first(&mut self, into: &mut [i32], last: bool) -> Result<Next, LineFault>
        requires going { is_over self.old ≡ false }
        requires last { last ≡ true → NoFeedBelow (length (kept_of self.old)) (kept_of self.old) × (length (kept_of self.old) ≤ 65536) }
        requires fed { last ≡ false → HoldsFeed (kept_of self.old) }
        ensures line { result ≡ Ok Next.Line → PassesLine (kept_of self.old) (kept_of self.new) (count_of self.old) (count_of self.new) (length into.old) into.new last }
        ensures over { result ≡ Ok Next.Line → is_over self.new ≡ last }
        ensures going { IsErr result → is_over self.new ≡ false }
        ensures bad { (n : ℕ) → result ≡ Err (LineFault.Bad n) → (n ≡ count_of self.old + 1) × RefusesLine (kept_of self.old) (length into.old) n last }
        ensures no_end { result ≡ Ok Next.End → ⊥ }
        ensures no_read { result ≡ Err LineFault.Read → ⊥ }
    {
        let Some(taken) = read_line(self.window.bytes(), into) else {
            return Err(LineFault::Bad(self.count + 1));
        };
        if taken > LONGEST + 1 || self.count >= MOST_LINES {
            return Err(LineFault::Bad(self.count + 1));
        }
        self.window.consume(taken);
        self.whole = self.whole.saturating_sub(taken);
        self.count += 1;
        self.ended = last;
        Ok(Next::Line)
    }
}

// Takes bytes from the source until a line feed comes, and answers how many stand up to the last one with
// it; or until there are more than a line has, or the input ends, and answers 0.
fn fill_to_feed<I: Source>(
    window: &mut Window,
    source: &mut I,
    unsent: &LineBuf,
) -> Result<usize, SourceFault>
    requires none { NoFeedBelow (length window.old) window.old }
    requires sent { unsent.now ≡ [] }
    ensures bytes { prepend_known window.new (I.left source.new) ≡ prepend_known window.old (I.left source.old) }
    ensures front { take (length window.old) window.new ≡ window.old }
    ensures whole { IfOk result (λ whole. IsWhole whole window.new) }
    ensures came { IfOk result (λ whole. whole ≡ 0 → NoneCame window.new (I.left source.new)) }
    ensures none { OnErr result (NoFeedBelow (length window.new) window.new) }
    ensures cause { HasCause (I.faults source.old) (I.faults source.new) result }
{
    let mut searched = window.bytes().len();
    while searched <= LONGEST {
        if window.fill(source, unsent)? == 0 {
            return Ok(0);
        }
        let whole = up_to_last_feed(window.bytes(), searched);
        if whole > 0 {
            return Ok(whole);
        }
        searched = window.bytes().len();
    }
    Ok(0)
}

// How many bytes stand up to the last line feed with it, or 0, where none stands among those that were
// searched.
fn up_to_last_feed(kept: &[u8], searched: usize) -> usize
    requires within { searched ≤ length kept.now }
    requires none { NoFeedBelow searched kept.now }
    ensures { IsWhole result kept.now }
{
    match memrchr(b'\n', &kept[searched..]) {
        Some(place) => searched + place + 1,
        None => 0,
    }
}

// What bytes without a line feed mean, where more than a line has came or the input ended.
fn without_feed(kept: &[u8]) -> Found
    ensures { WithoutFeed (length kept.now) result }
{
    if kept.len() <= LONGEST {
        Found::Rest
    } else {
        Found::Long
    }
}
