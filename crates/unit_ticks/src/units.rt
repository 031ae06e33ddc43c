//! The ticks that jobs take, by unit.
use crate::row::{free_start, give_back, take};
use decisions::Ticks;
use mars_base::Memory;
use std::alloc::Global;
use std::marker::Model;

/// The ticks that jobs take on each unit, in the order of time. Contracts see it as a `Busy`.
#[derive(Drop)]
pub struct UnitTicks {
    room: usize,
    rows: Vec<Vec<Ticks>>,
}

impl Model for UnitTicks {
    ghost use Rattle.std.specs.Prelude.{map};
    ghost use Rattle.unit_ticks.specs.Busy.{Busy};
    ghost use Rattle.unit_ticks.specs.Rows.{ticks_in, AreRows};

    ghost Value = { Busy };

    ghost view = { λ t. record { room = t.room; rows = map ticks_in t.rows.items } };

    ghost invariant = { λ t. AreRows t.room t.rows.items };
}

impl UnitTicks {
    ghost use Rattle.std.specs.Prelude.{◌≡◌, ℕ, suc, ◌+◌, ◌-◌, ◌<◌, ◌≤◌, IfOk, length, [], slice_set, get_or, true};
    ghost use Rattle.decisions.specs.Place.{first_free, is_free};
    ghost use Rattle.unit_ticks.specs.Busy.{put_ticks, drop_ticks};

    /// No ticks yet, with all memory for so many jobs on each of the units.
    pub fn new(alloc: Global, units: u8, jobs: usize) -> Result<UnitTicks, Memory>
        ensures room { IfOk result (λ t. t.room ≡ jobs) }
        ensures units { IfOk result (λ t. length t.rows ≡ units) }
        ensures none { IfOk result (λ t. (unit : ℕ) → get_or t.rows unit [] ≡ []) }
    {
        let mut rows = Vec::new(alloc);
        for _ in 0..units {
            rows.push(Vec::with_capacity(alloc, jobs)?)?;
        }
        Ok(UnitTicks { room: jobs, rows })
    }

    /// Takes ticks that are free on a unit. It takes no memory.
    pub fn take(&mut self, unit: u8, ticks: Ticks)
        requires unit { unit < length self.old.rows }
        requires room { length (get_or self.old.rows unit []) < self.old.room }
        requires some { ticks.start < ticks.end }
        requires free { is_free (get_or self.old.rows unit []) ticks.start (ticks.end - ticks.start) ≡ true }
        ensures room { self.new.room ≡ self.old.room }
        ensures rows { self.new.rows ≡ slice_set self.old.rows unit (put_ticks ticks (get_or self.old.rows unit [])) }
    {
        take(&mut self.rows[usize::from(unit)], ticks);
    }

    /// Gives the ticks of a unit back that start at a tick.
    pub fn give_back(&mut self, unit: u8, start: u32)
        requires { unit < length self.old.rows }
        ensures room { self.new.room ≡ self.old.room }
        ensures rows { self.new.rows ≡ slice_set self.old.rows unit (drop_ticks start (get_or self.old.rows unit [])) }
    {
        give_back(&mut self.rows[usize::from(unit)], start);
    }

    /// The first tick from which on so many are free on a unit and end by a deadline; None where there is none.
    pub fn free_start(&self, unit: u8, from: u32, ticks: u32, deadline: u32) -> Option<u32>
        requires unit { unit < length self.now.rows }
        requires some { 1 ≤ ticks }
        ensures { result ≡ first_free (get_or self.now.rows unit []) ticks from (suc deadline - (from + ticks)) }
    {
        free_start(
            self.rows[usize::from(unit)].as_slice(),
            from,
            ticks,
            deadline,
        )
    }
}
