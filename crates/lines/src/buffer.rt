//! Output text, gathered until it is sent.
ghost use Rattle.std.specs.Prelude.{◌≡◌, ◌+◌, ◌<◌, ◌≤◌, ◌++◌, ◌∷◌, [], IfOk, IsTrue, ◌↔◌, length, decimal, if◌then◌else◌};
ghost use Rattle.lines.specs.Gathered.{Writes};
ghost use Rattle.std.specs.Fmt.{signed_decimal};
ghost use Rattle.mars_base.specs.Causes.{HasCause};
ghost use Rattle.mars_base.specs.Outside.{Puts};

use itoa::{Buffer, write_digits};
use mars_base::{Memory, Sink, SinkFault};
use std::alloc::Global;
use std::marker::Model;

// How many bytes a buffer holds.
const ROOM: usize = 65_536;

/// Up to 65,536 bytes of text that wait to be sent, seen as their list. Numbers are formatted in their
/// place among them.
#[derive(Drop)]
pub struct LineBuf {
    bytes: Vec<u8>,
    used: usize,
}

impl Model for LineBuf {
    ghost use Rattle.std.specs.Prelude.{◌≡◌, ◌≤◌, List, ℕ, take, length};

    ghost Value = { List ℕ };

    ghost view = { λ b. take b.used b.bytes.items };

    ghost invariant = { λ b. (length b.bytes.items ≡ 65536) × (b.used ≤ 65536) };
}

impl LineBuf {
    /// An empty buffer that has its room already.
    pub fn new(alloc: Global) -> Result<LineBuf, Memory>
        ensures { IfOk result (λ b. b ≡ []) }
    {
        Ok(LineBuf {
            bytes: vec![in alloc; 0u8; ROOM]?,
            used: 0,
        })
    }

    /// How many more bytes fit.
    pub fn room(&self) -> usize
        ensures { result + length self.now ≡ 65536 }
    {
        ROOM - self.used
    }

    /// Whether nothing waits.
    pub fn is_empty(&self) -> bool
        ensures { IsTrue result ↔ (self.now ≡ []) }
    {
        self.used == 0
    }

    /// Appends bytes that fit.
    pub fn text(&mut self, bytes: &[u8])
        requires { length self.old + length bytes.now ≤ 65536 }
        ensures { self.new ≡ self.old ++ bytes.now }
    {
        let end = self.used + bytes.len();
        self.bytes[self.used..end].copy_from_slice(bytes);
        self.used = end;
    }

    /// Appends one byte that fits.
    pub fn byte(&mut self, byte: u8)
        requires { length self.old < 65536 }
        ensures { self.new ≡ self.old ++ byte ∷ [] }
    {
        self.bytes[self.used] = byte;
        self.used += 1;
    }

    /// Appends a word in decimal digits, with a minus before it where it is negative; it fits.
    pub fn word(&mut self, word: i32)
        requires { length self.old + 11 ≤ 65536 }
        ensures text { self.new ≡ self.old ++ signed_decimal word }
        ensures room { length self.new ≤ length self.old + 11 }
    {
        self.minus(word < 0);
        self.digits(word.unsigned_abs());
    }

    // Appends a minus where it is wanted; it is written in any case, without a branch, and counts where it is.
    fn minus(&mut self, wanted: bool)
        requires { length self.old < 65536 }
        ensures { self.new ≡ self.old ++ (if wanted then 45 ∷ [] else []) }
    {
        self.bytes[self.used] = b'-';
        self.used += usize::from(wanted);
    }

    // Appends the digits of a number; they fit.
    #[tactic(auto, using(crate::proofs::Digits::placed))]
    fn digits(&mut self, number: u32)
        requires { length self.old + 10 ≤ 65536 }
        ensures text { self.new ≡ self.old ++ decimal number }
        ensures room { length self.new ≤ length self.old + 10 }
    {
        let end = self.used + digits_of(number);
        write_digits(u64::from(number), &mut self.bytes, end);
        self.used = end;
    }

    /// Puts what waits, and is empty then, also after an `Err`.
    pub fn send<O: Sink>(&mut self, out: &mut O) -> Result<(), SinkFault>
        ensures empty { self.new ≡ [] }
        ensures bytes { Puts (O.holds out.old) (O.holds out.new) result self.old }
        ensures cause { HasCause (O.faults out.old) (O.faults out.new) result }
    {
        let answer = out.put(&self.bytes[..self.used]);
        self.used = 0;
        answer
    }

    /// Writes bytes of any length: they wait where they fit, and else go out behind what waits.
    pub fn write<O: Sink>(&mut self, out: &mut O, bytes: &[u8]) -> Result<(), SinkFault>
        ensures bytes { Writes (O.holds out.old) self.old bytes.now (O.holds out.new) self.new result }
        ensures cause { HasCause (O.faults out.old) (O.faults out.new) result }
    {
        if bytes.len() <= self.room() {
            self.text(bytes);
            return Ok(());
        }
        if let Err(fault) = self.send(out) {
            return Err(fault);
        }
        if bytes.len() <= ROOM {
            self.text(bytes);
            return Ok(());
        }
        out.put(bytes)
    }

    /// Writes a number in decimal digits, with a minus before it where it is negative.
    pub fn write_number<O: Sink>(&mut self, out: &mut O, value: i64) -> Result<(), SinkFault>
        ensures bytes { Writes (O.holds out.old) self.old (signed_decimal value) (O.holds out.new) self.new result }
        ensures cause { HasCause (O.faults out.old) (O.faults out.new) result }
    {
        let mut digits = Buffer::new();
        self.write(out, digits.format(value).as_bytes())
    }

    /// Sends what waits, where something does.
    pub fn flush<O: Sink>(&mut self, out: &mut O) -> Result<(), SinkFault>
        ensures empty { self.new ≡ [] }
        ensures bytes { Writes (O.holds out.old) self.old [] (O.holds out.new) [] result }
        ensures cause { HasCause (O.faults out.old) (O.faults out.new) result }
    {
        if self.is_empty() {
            return Ok(());
        }
        self.send(out)
    }
}

// How many decimal digits a number has: by sums of comparisons, since which it is can't be foreseen.
fn digits_of(number: u32) -> usize
    ensures count { result ≡ length (decimal number) }
    ensures most { result ≤ 10 }
{
    if number < 100_000 {
        digits_of_few(number)
    } else {
        digits_of_many(number)
    }
}

// The same, up to five digits.
#[tactic(auto, using(crate::proofs::Digits::digit_rules))]
fn digits_of_few(number: u32) -> usize
    requires { number < 100000 }
    ensures count { result ≡ length (decimal number) }
    ensures most { result ≤ 10 }
{
    1 + usize::from(number >= 10)
        + usize::from(number >= 100)
        + usize::from(number >= 1_000)
        + usize::from(number >= 10_000)
}

// The same, from six digits on.
#[tactic(auto, using(crate::proofs::Digits::digit_rules))]
fn digits_of_many(number: u32) -> usize
    requires { 100000 ≤ number }
    ensures count { result ≡ length (decimal number) }
    ensures most { result ≤ 10 }
{
    6 + usize::from(number >= 1_000_000)
        + usize::from(number >= 10_000_000)
        + usize::from(number >= 100_000_000)
        + usize::from(number >= 1_000_000_000)
}
