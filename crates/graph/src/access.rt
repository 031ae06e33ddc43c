//! What the numbers of a net name.
ghost use Rattle.std.specs.Prelude.{◌≡◌, ◌<◌, ◌↔◌, IsTrue};
ghost use Rattle.std.specs.Int.{bit_at};

use crate::net::{Edge, Net};

impl Net {
    ghost use Rattle.std.specs.Prelude.{◌≡◌, ◌<◌, ◌≤◌, ◌↔◌, IsTrue};
    ghost use Rattle.graph.specs.Net.{transaction_of, units_of, IsAllowed, ins_of, outs_of, width_of, period_of, deadline_of, instances};

    /// The number of a task's transaction; 0 where there is no such task.
    pub fn transaction_of(&self, task: u8) -> u8
        ensures { result ≡ transaction_of self.now task }
    {
        match self.tasks.get(usize::from(task)) {
            Some(task) => task.transaction,
            None => 0,
        }
    }

    /// The units that may run a task, as a mask: bit n stands for unit n.
    pub fn units_of(&self, task: u8) -> u8
        ensures { result ≡ units_of self.now task }
    {
        match self.tasks.get(usize::from(task)) {
            Some(task) => task.units,
            None => 0,
        }
    }

    /// Whether the unit may run the task.
    pub fn allows(&self, task: u8, unit: u8) -> bool
        requires { unit < 8 }
        ensures { IsTrue result ↔ IsAllowed self.now task unit }
    {
        has_unit(self.units_of(task), unit)
    }

    /// The widths in words of a task's in ports; none where there is no such task.
    pub fn ins_of(&self, task: u8) -> &[u8]
        ensures { result.now ≡ ins_of self.now task }
    {
        match self.tasks.get(usize::from(task)) {
            Some(task) => task.ins.as_slice(),
            None => &[],
        }
    }

    /// The widths in words of a task's out ports; none where there is no such task.
    pub fn outs_of(&self, task: u8) -> &[u8]
        ensures { result.now ≡ outs_of self.now task }
    {
        match self.tasks.get(usize::from(task)) {
            Some(task) => task.outs.as_slice(),
            None => &[],
        }
    }

    /// How many words an edge joins: those of its out port. It is 0 where there is no such port.
    pub fn width_of(&self, edge: &Edge) -> u8
        ensures { result ≡ width_of self.now edge.now }
    {
        match self
            .outs_of(edge.from_task)
            .get(usize::from(edge.from_port))
        {
            Some(width) => *width,
            None => 0,
        }
    }

    /// The ticks from one release of a task's jobs to the next: its transaction's period.
    pub fn period_of(&self, task: u8) -> u32
        ensures { result ≡ period_of self.now task }
    {
        match self
            .transactions
            .get(usize::from(self.transaction_of(task)))
        {
            Some(transaction) => transaction.period,
            None => 0,
        }
    }

    /// The ticks from a release of a task's job to its deadline: its transaction's deadline.
    pub fn deadline_of(&self, task: u8) -> u32
        ensures { result ≡ deadline_of self.now task }
    {
        match self
            .transactions
            .get(usize::from(self.transaction_of(task)))
        {
            Some(transaction) => transaction.deadline,
            None => 0,
        }
    }

    /// How many jobs a task has in a cycle of so many ticks.
    pub fn instances(&self, cycle: u32, task: u8) -> u32
        requires { 1 ≤ period_of self.now task }
        ensures { result ≡ instances self.now cycle task }
    {
        cycle / self.period_of(task)
    }
}

/// Whether a mask has the unit.
fn has_unit(mask: u8, unit: u8) -> bool
    requires { unit < 8 }
    ensures { IsTrue result ↔ (bit_at mask unit ≡ 1) }
{
    mask >> unit & 1 == 1
}
