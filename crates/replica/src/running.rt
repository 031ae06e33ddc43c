//! A replica that runs.
ghost use Rattle.std.specs.Prelude.{◌≡◌, ◌≤◌, ◌<◌, ◌+◌, ◌++◌, ℕ, List, [], ℤ, IfOk, length, map, option_copied};
ghost use Rattle.mars_base.specs.declared.shape.Side.{Side};
ghost use Rattle.bus.specs.Numbers.{slot_of};
ghost use Rattle.bus.specs.SlotState.{IsSending, cut};
ghost use Rattle.graph.specs.Cycle.{sensor_words};
ghost use Rattle.graph.specs.JobGraph.{JobGraph};
ghost use Rattle.plant.specs.InOrder.{IsInOrder};
ghost use Rattle.plant.specs.Programs.{ProgramsFit};
ghost use Rattle.tables.specs.Valid.{bus_of};
ghost use Rattle.tick_parts.specs.OnBus.{IsBusOf, IsInSlot, StandsAtOwn, bus_on, slots_on};
ghost use Rattle.cluster_model.specs.Cluster.{fresh_held, first_held_states};
ghost use Rattle.cluster_model.specs.Effects.{tick_effects, fall_effects};
ghost use Rattle.cluster_model.specs.State.{state_in, status_in, given};
ghost use Rattle.cluster_model.specs.Tick.{ticked, slots_after};
ghost use Rattle.replica_duties.specs.Duties.{AreDutiesOf};
ghost use Rattle.replica_work.specs.Works.{set_plan, cycles_of};
ghost use Rattle.replica.specs.Alive.{IsAlive, held_by};

use crate::silent::Silent;
use bus::Bus;
use effect_buf::EffectBuf;
use mars_base::{Memory, Side};
use plant::Plant;
use processor::Cpu;
use replica_desk::{Desk, begin};
use replica_duties::Duties;
use replica_room::{outs_room, state_room};
use replica_start::{first_desk, turn};
use replica_work::{cycles_so_far, finish};
use std::alloc::Global;
use tick_parts::fall_silent;

/// A replica that runs: what it looks up and what it holds, and a processor with the job in hand.
#[derive(Drop)]
pub struct Running<C> {
    /// What it looks up.
    pub(crate) duties: Duties,
    /// What it holds.
    pub(crate) desk: Desk,
    /// The processor.
    pub(crate) cpu: C,
    /// Room for the outputs of any job.
    pub(crate) outs: Vec<i32>,
    /// Room for the state of any task.
    pub(crate) state: Vec<i32>,
}

impl<C: Cpu + Drop> Running<C> {
    /// The replica of a unit's side before its first tick. No other call takes memory; without it the processor is
    /// dropped.
    pub fn new(
        alloc: Global,
        plant: &Plant<C::Program>,
        unit: u8,
        side: Side,
        cpu: C,
    ) -> Result<Running<C>, Memory>
        requires in_order { IsInOrder plant.now }
        requires unit { unit < plant.now.net.shape.units }
        ensures alive { IfOk result (IsAlive C.runs plant.now unit side) }
        ensures held { IfOk result (λ r. held_by plant.now.graph r
            ≡ fresh_held (set_plan C.execution plant.now) (first_held_states (set_plan C.execution plant.now) unit)) }
    {
        let words = plant.states.as_slice();
        let duties = Duties::new(alloc, &plant.net, &plant.graph, &plant.tables, unit, side)?;
        let desk = first_desk(alloc, &plant.net, &plant.graph, &plant.tables, words, unit)?;
        let outs = outs_room(alloc)?;
        let state = state_room(alloc, words)?;
        Ok(Running {
            duties,
            desk,
            cpu,
            outs,
            state,
        })
    }
}

impl<C: Cpu> Running<C> {
    /// Performs the tick of its clock, and shows it.
    pub fn tick(
        &mut self,
        plant: &Plant<C::Program>,
        bus: &mut Bus,
        line: &[i32],
        seen: &mut EffectBuf,
    )
        requires in_order { IsInOrder plant.now }
        requires fits { ProgramsFit C.ins_of C.outs_of C.states_of plant.now }
        requires alive { IsAlive C.runs plant.now self.old.duties.unit self.old.duties.side self.old }
        requires clock { self.old.desk.clock < plant.now.graph.cycle }
        requires line { length line.now ≡ sensor_words plant.now.net plant.now.graph.cycle }
        requires bus { IsBusOf (bus_of plant.now.net plant.now.graph) bus.old }
        requires stands { StandsAtOwn bus.old self.old.duties.unit self.old.duties.side self.old.desk.clock }
        requires room { seen.old ≡ [] }
        ensures alive { IsAlive C.runs plant.now self.old.duties.unit self.old.duties.side self.new }
        ensures duties { self.new.duties ≡ self.old.duties }
        ensures held { held_by plant.now.graph self.new ≡ ticked (set_plan C.execution plant.now) (bus_on bus.old) line.now self.old.duties.unit (held_by plant.now.graph self.old) }
        ensures bus { IsBusOf (bus_of plant.now.net plant.now.graph) bus.new }
        ensures own { slots_on bus.new self.old.duties.unit self.old.duties.side
            ≡ slots_after (set_plan C.execution plant.now) self.old.duties.unit self.old.duties.side (held_by plant.now.graph self.old) (slots_on bus.old self.old.duties.unit self.old.duties.side) }
        ensures others { (u : ℕ) (x : Side) → u < plant.now.net.shape.units → (u ≡ self.old.duties.unit → x ≡ self.old.duties.side → ⊥) → slots_on bus.new u x ≡ slots_on bus.old u x }
        ensures effects { seen.new ≡ tick_effects (set_plan C.execution plant.now) (bus_on bus.old) line.now self.old.duties.unit self.old.duties.side (held_by plant.now.graph self.old) }
    {
        begin(
            &plant.net,
            &plant.graph,
            &plant.tables,
            &self.duties,
            &mut self.desk,
            bus,
            line,
            seen,
        );
        finish(
            &mut self.cpu,
            plant,
            &self.duties,
            &mut self.desk,
            self.outs.as_mut_slice(),
            self.state.as_mut_slice(),
            seen,
        );
    }

    /// It falls silent at its clock: the slot that it is sending is cut, and both are shown.
    pub fn silence(
        self,
        plant: &Plant<C::Program>,
        bus: &mut Bus,
        seen: &mut EffectBuf,
    ) -> Silent<C>
        requires in_order { IsInOrder plant.now }
        requires alive { IsAlive C.runs plant.now self.duties.unit self.duties.side self }
        requires clock { self.desk.clock < plant.now.graph.cycle }
        requires bus { IsBusOf (bus_of plant.now.net plant.now.graph) bus.old }
        requires sends { (k : ℕ) → k < (bus_of plant.now.net plant.now.graph).rounds → IsSending (slot_of bus.old k self.duties.unit self.duties.side)
            → IsInSlot (bus_of plant.now.net plant.now.graph) self.duties.unit self.duties.side self.desk.clock k }
        requires room { seen.old ≡ [] }
        ensures last { result.last ≡ self }
        ensures bus { IsBusOf (bus_of plant.now.net plant.now.graph) bus.new }
        ensures own { slots_on bus.new self.duties.unit self.duties.side ≡ map cut (slots_on bus.old self.duties.unit self.duties.side) }
        ensures others { (u : ℕ) (x : Side) → u < plant.now.net.shape.units → (u ≡ self.duties.unit → x ≡ self.duties.side → ⊥) → slots_on bus.new u x ≡ slots_on bus.old u x }
        ensures effects { seen.new ≡ fall_effects (slots_on bus.old self.duties.unit self.duties.side) }
    {
        fall(plant, &self.duties, self.desk.clock, bus, seen);
        Silent { last: self }
    }

    /// The next tick that it performs.
    pub fn clock(&self) -> u32
        ensures { result ≡ self.now.desk.clock }
    {
        self.desk.clock
    }

    /// The cycles of the longest part of the current job's execution that its ticks so far and its greatest number of
    /// cycles allow; 0 without a current job.
    pub fn cycles(&self, plant: &Plant<C::Program>) -> u32
        requires in_order { IsInOrder plant.now }
        requires alive { IsAlive C.runs plant.now self.now.duties.unit self.now.duties.side self.now }
        ensures { result ≡ cycles_of plant.now C.execution self.now.desk self.now.desk.hand }
    {
        match self.desk.hand {
            Some(job) => cycles_so_far(&self.cpu, plant, &self.desk, job),
            None => 0,
        }
    }

    /// The state that it keeps of a task of its unit.
    pub fn state(&self, task: u16) -> &[i32]
        requires { task < length self.now.desk.states }
        ensures { (g : JobGraph) → result.now ≡ state_in (held_by g self.now) task }
    {
        self.desk.states.get(usize::from(task))
    }

    /// The out words that it has given for a job of its unit in this cycle, in port order; None exactly where it
    /// hasn't ended that job in this cycle or the job was broken.
    pub fn outs(&self, job: u16) -> Option<&[i32]>
        requires { job < length self.now.desk.book.jobs }
        ensures { (g : JobGraph) → option_copied result ≡ given (status_in (held_by g self.now) job) }
    {
        self.desk.book.given(usize::from(job))
    }

    /// The begin of the next cycle: no message is taken, all jobs wait, and the states stay.
    pub fn next_cycle(&mut self, plant: &Plant<C::Program>)
        requires alive { IsAlive C.runs plant.now self.old.duties.unit self.old.duties.side self.old }
        ensures alive { IsAlive C.runs plant.now self.old.duties.unit self.old.duties.side self.new }
        ensures duties { self.new.duties ≡ self.old.duties }
        ensures held { held_by plant.now.graph self.new ≡ fresh_held (set_plan C.execution plant.now) (held_by plant.now.graph self.old).states }
    {
        turn(&mut self.desk);
    }
}

// The slot that a replica is sending at a tick is cut.
fn fall<P>(plant: &Plant<P>, duties: &Duties, tick: u32, bus: &mut Bus, seen: &mut EffectBuf)
    requires duties { AreDutiesOf plant.now.net plant.now.graph plant.now.tables duties.now.unit duties.now.side duties.now }
    requires in_order { IsInOrder plant.now }
    requires tick { tick < plant.now.graph.cycle }
    requires bus { IsBusOf (bus_of plant.now.net plant.now.graph) bus.old }
    requires sends { (k : ℕ) → k < (bus_of plant.now.net plant.now.graph).rounds → IsSending (slot_of bus.old k duties.now.unit duties.now.side)
        → IsInSlot (bus_of plant.now.net plant.now.graph) duties.now.unit duties.now.side tick k }
    requires room { seen.old ≡ [] }
    ensures bus { IsBusOf (bus_of plant.now.net plant.now.graph) bus.new }
    ensures own { slots_on bus.new duties.now.unit duties.now.side ≡ map cut (slots_on bus.old duties.now.unit duties.now.side) }
    ensures others { (u : ℕ) (x : Side) → u < plant.now.net.shape.units → (u ≡ duties.now.unit → x ≡ duties.now.side → ⊥) → slots_on bus.new u x ≡ slots_on bus.old u x }
    ensures effects { seen.new ≡ fall_effects (slots_on bus.old duties.now.unit duties.now.side) }
{
    fall_silent(&duties.round, duties.unit, duties.side, tick, bus, seen);
}
