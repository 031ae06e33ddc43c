//! What a processor does with a program.
ghost use Rattle.std.specs.Prelude.{◌≡◌, ◌<◌, ◌≤◌, ◌^◌, ℕ, ℤ, List, max, length};
ghost use Rattle.processor.specs.Ends.{Halted, cycles_in, IsOver, end_under};
ghost use Rattle.processor.specs.Results.{Ran, AreWords, turn_of, outs_in, state_in};

/// How an execution stands under its limit.
#[derive(Clone, Copy, Debug, PartialEq, Eq)]
pub enum Turn {
    /// It has ended.
    Halted,
    /// It has broken.
    Broken,
    /// The next instruction's cost would pass the limit.
    Short,
}

/// A processor: it is loaded with a program, its state words and its input words, and runs it as far as a
/// limit of cycles allows, as often as the limit grows. No call takes memory.
pub trait Cpu {
    type Program;

    /// How many input words a program takes.
    ghost ins_of: { Self.Program → ℕ };

    /// How many output words a program gives.
    ghost outs_of: { Self.Program → ℕ };

    /// How many state words a program takes and leaves.
    ghost states_of: { Self.Program → ℕ };

    /// What the execution of a program comes to under a limit, from its state and its inputs.
    ghost execution: { Self.Program → ℕ → List ℤ → List ℤ → Ran };

    /// Each word that the program itself has is a word.
    ghost has_words: { Self.Program → Type 0 };

    /// The processor has this program loaded with this state and these inputs, and this is the greatest
    /// limit so far.
    ghost runs: { Self → Self.Program → List ℤ → List ℤ → ℕ → Type 0 };

    /// Begins an execution of the program from its state words and its input words.
    fn load(&mut self, program: &Self::Program, state: &[i32], ins: &[i32])
        requires state { length state.now ≡ states_of program.now }
        requires ins { length ins.now ≡ ins_of program.now }
        ensures runs { runs self.new program.now state.now ins.now 0 }
        ensures words { has_words program.now };

    /// Runs while the next instruction's cost keeps the cycles at or below the limit, and tells how the
    /// execution stands. A limit below an earlier one changes nothing. After `Halted` or `Broken` every later
    /// call before the next `load` answers the same and changes nothing.
    fn advance(&mut self, program: &Self::Program, limit: u32) -> Turn
        requires limit { limit < 2 ^ 31 }
        requires loaded { (state ins : List ℤ) × (m : ℕ) × runs self.old program.now state ins m }
        ensures runs { (state ins : List ℤ) (m : ℕ) → runs self.old program.now state ins m
            → runs self.new program.now state ins (max m limit) }
        ensures turn { (state ins : List ℤ) (m : ℕ) → runs self.old program.now state ins m
            → result ≡ turn_of (execution program.now (max m limit) state ins) }
        ensures still { (state ins : List ℤ) (m : ℕ) → runs self.old program.now state ins m
            → IsOver (execution program.now m state ins) → self.new ≡ self.old };

    /// The cycles of the execution so far; an instruction that broke is counted, one that was cut is not.
    fn cycles(&self) -> u32
        ensures { (program : Self.Program) (state ins : List ℤ) (m : ℕ) → runs self.now program state ins m
            → result ≡ cycles_in (execution program m state ins) };

    /// The output words of an execution that has halted, cell after cell.
    fn outs(&self, program: &Self::Program, into: &mut [i32])
        requires room { length into.old ≡ outs_of program.now }
        requires halted { (state ins : List ℤ) × (m : ℕ) × runs self.now program.now state ins m
            × (turn_of (execution program.now m state ins) ≡ Turn.Halted) }
        ensures { (state ins : List ℤ) (m : ℕ) → runs self.now program.now state ins m
            → into.new ≡ outs_in (execution program.now m state ins) };

    /// The state words that an execution that has halted leaves, cell after cell.
    fn state(&self, program: &Self::Program, into: &mut [i32])
        requires room { length into.old ≡ states_of program.now }
        requires halted { (state ins : List ℤ) × (m : ℕ) × runs self.now program.now state ins m
            × (turn_of (execution program.now m state ins) ≡ Turn.Halted) }
        ensures { (state ins : List ℤ) (m : ℕ) → runs self.now program.now state ins m
            → into.new ≡ state_in (execution program.now m state ins) };

    /// The cycles never pass the limit.
    ghost within: { (program : Self.Program) (limit : ℕ) (state ins : List ℤ)
        → cycles_in (execution program limit state ins) ≤ limit };

    /// An execution that is over took at least one cycle, since each step costs at least 1.
    ghost costs: { (program : Self.Program) (limit : ℕ) (state ins : List ℤ)
        → IsOver (execution program limit state ins)
        → 1 ≤ cycles_in (execution program limit state ins) };

    /// An execution that is over comes to the same under each limit that its cycles keep.
    ghost agrees: { (program : Self.Program) (limit other : ℕ) (state ins : List ℤ)
        → IsOver (execution program limit state ins)
        → cycles_in (execution program limit state ins) ≤ other
        → execution program other state ins ≡ execution program limit state ins };

    /// The cycles under a limit are those of the longest part that keeps it: where the cycles under a limit keep
    /// a lesser one, they are the same under that.
    ghost prefix: { (program : Self.Program) (high low : ℕ) (state ins : List ℤ) → low ≤ high
        → cycles_in (execution program high state ins) ≤ low
        → cycles_in (execution program low state ins) ≡ cycles_in (execution program high state ins) };

    /// An execution that halts leaves as many state words as the program takes, and gives its number of outputs.
    ghost sized: { (program : Self.Program) (limit : ℕ) (state ins left outs : List ℤ)
        → length state ≡ states_of program → length ins ≡ ins_of program
        → end_under (execution program limit state ins) ≡ Halted (left, outs)
        → (length left ≡ states_of program) × (length outs ≡ outs_of program) };

    /// They are words where the state, the inputs and the program's own words are.
    ghost words: { (program : Self.Program) (limit : ℕ) (state ins left outs : List ℤ)
        → has_words program → AreWords state → AreWords ins
        → end_under (execution program limit state ins) ≡ Halted (left, outs)
        → AreWords left × AreWords outs };
}
