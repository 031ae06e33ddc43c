//! What a cluster asks of each of its replicas.
ghost use Rattle.std.specs.Prelude.{◌≡◌, ◌<◌, ℕ, List, [], ℤ, length, map, not, option_copied, slice_index};
ghost use Rattle.mars_base.specs.declared.shape.Side.{Side};
ghost use Rattle.bus.specs.Numbers.{slot_of};
ghost use Rattle.bus.specs.SlotState.{IsSending, cut};
ghost use Rattle.graph.specs.Cycle.{sensor_words};
ghost use Rattle.plant.specs.InOrder.{IsInOrder};
ghost use Rattle.plant.specs.declared.system.Plant.{Plant};
ghost use Rattle.tables.specs.Valid.{bus_of};
ghost use Rattle.net_run.specs.NetRun.{Execution};
ghost use Rattle.tick_parts.specs.OnBus.{IsBusOf, IsInSlot, StandsAtOwn, bus_on, slots_on};
ghost use Rattle.cluster_agreement.specs.Agreement.{IsSet};
ghost use Rattle.cluster_model.specs.Cluster.{is_silent};
ghost use Rattle.cluster_model.specs.Effects.{tick_effects, fall_effects};
ghost use Rattle.cluster_model.specs.State.{Running, state_in, status_in, given};
ghost use Rattle.cluster_model.specs.Tick.{ticked, slots_after};
ghost use Rattle.cluster_seats.specs.Fresh.{fresh};
ghost use Rattle.cluster_seats.specs.Seats.{Seated, with_held, silenced, plan_for};

use bus::Bus;
use effect_buf::EffectBuf;
use plant::Plant;

/// A replica of a cluster, which runs or fell silent. It is made for one plant, which each of its calls is lent. No call
/// takes memory.
pub trait Seat: Drop {
    type Program;

    /// Whether it runs, what it holds, and whose it is.
    ghost seat: { Self → Seated };

    /// What the programs of a plant come to.
    ghost exec: { Plant Self.Program → Execution };

    /// The cycles that this takes.
    ghost cost: { Plant Self.Program → ℕ → List ℤ → List ℤ → ℕ };

    /// The plant is one that its replicas can run.
    ghost is_fit: { Plant Self.Program → Type 0 };

    /// It is made for the plant, and all that it keeps stands as its clock says.
    ghost is_alive: { Plant Self.Program → Self → Type 0 };

    /// Whether it runs.
    fn is_running(&self) -> bool
        ensures { result ≡ not (is_silent (seat self.now).mode) };

    /// The next tick that it performs; where it fell silent, that of its silence.
    fn clock(&self) -> u32
        ensures { result ≡ (seat self.now).held.clock };

    /// The state that it keeps of a task of its unit.
    fn state(&self, task: u16) -> &[i32]
        requires { task < length (seat self.now).held.states }
        ensures { result.now ≡ state_in (seat self.now).held task };

    /// The out words that it has given for a job of its unit in this cycle, in port order; None exactly where it
    /// hasn't ended that job in this cycle or the job was broken.
    fn outs(&self, job: u16) -> Option<&[i32]>
        requires { job < length (seat self.now).held.jobs }
        ensures { option_copied result ≡ given (status_in (seat self.now).held job) };

    /// Performs the tick of its clock, and shows it.
    fn tick(
        &mut self,
        plant: &Plant<Self::Program>,
        bus: &mut Bus,
        line: &[i32],
        seen: &mut EffectBuf,
    )
        requires fit { is_fit plant.now }
        requires alive { is_alive plant.now self.old }
        requires runs { (seat self.old).mode ≡ Running }
        requires clock { (seat self.old).held.clock < plant.now.graph.cycle }
        requires line { length line.now ≡ sensor_words plant.now.net plant.now.graph.cycle }
        requires bus { IsBusOf (bus_of plant.now.net plant.now.graph) bus.old }
        requires stands { StandsAtOwn bus.old (seat self.old).unit (seat self.old).side (seat self.old).held.clock }
        requires room { seen.old ≡ [] }
        ensures alive { is_alive plant.now self.new }
        ensures seat { seat self.new ≡ with_held (ticked (plan_for exec cost plant.now) (bus_on bus.old) line.now (seat self.old).unit (seat self.old).held) (seat self.old) }
        ensures bus { IsBusOf (bus_of plant.now.net plant.now.graph) bus.new }
        ensures own { slots_on bus.new (seat self.old).unit (seat self.old).side
            ≡ slots_after (plan_for exec cost plant.now) (seat self.old).unit (seat self.old).side (seat self.old).held (slots_on bus.old (seat self.old).unit (seat self.old).side) }
        ensures others { (u : ℕ) (x : Side) → u < plant.now.net.shape.units → (u ≡ (seat self.old).unit → x ≡ (seat self.old).side → ⊥) → slots_on bus.new u x ≡ slots_on bus.old u x }
        ensures effects { seen.new ≡ tick_effects (plan_for exec cost plant.now) (bus_on bus.old) line.now (seat self.old).unit (seat self.old).side (seat self.old).held };

    /// It falls silent at its clock: the slot that it is sending is cut, and both are shown.
    fn silence(&mut self, plant: &Plant<Self::Program>, bus: &mut Bus, seen: &mut EffectBuf)
        requires fit { is_fit plant.now }
        requires alive { is_alive plant.now self.old }
        requires runs { (seat self.old).mode ≡ Running }
        requires clock { (seat self.old).held.clock < plant.now.graph.cycle }
        requires bus { IsBusOf (bus_of plant.now.net plant.now.graph) bus.old }
        requires sends { (k : ℕ) → k < (bus_of plant.now.net plant.now.graph).rounds → IsSending (slot_of bus.old k (seat self.old).unit (seat self.old).side)
            → IsInSlot (bus_of plant.now.net plant.now.graph) (seat self.old).unit (seat self.old).side (seat self.old).held.clock k }
        requires room { seen.old ≡ [] }
        ensures alive { is_alive plant.now self.new }
        ensures seat { seat self.new ≡ silenced (seat self.old) }
        ensures bus { IsBusOf (bus_of plant.now.net plant.now.graph) bus.new }
        ensures own { slots_on bus.new (seat self.old).unit (seat self.old).side ≡ map cut (slots_on bus.old (seat self.old).unit (seat self.old).side) }
        ensures others { (u : ℕ) (x : Side) → u < plant.now.net.shape.units → (u ≡ (seat self.old).unit → x ≡ (seat self.old).side → ⊥) → slots_on bus.new u x ≡ slots_on bus.old u x }
        ensures effects { seen.new ≡ fall_effects (slots_on bus.old (seat self.old).unit (seat self.old).side) };

    /// The begin of the next cycle: no message is taken, all jobs wait, and the states stay.
    fn next_cycle(&mut self, plant: &Plant<Self::Program>)
        requires alive { is_alive plant.now self.old }
        ensures alive { is_alive plant.now self.new }
        ensures seat { seat self.new ≡ fresh (plan_for exec cost plant.now) (seat self.old) };

    /// Such a plant is in order.
    ghost in_order: { (plant : Plant Self.Program) → is_fit plant → IsInOrder plant };

    /// It keeps the premise of the agreement with the graph.
    ghost is_set: { (plant : Plant Self.Program) → is_fit plant → IsSet plant.net plant.graph plant.tables plant.states (exec plant) };

    /// It has the state words of each task of its unit.
    ghost sized: { (plant : Plant Self.Program) (replica : Self) → is_fit plant → is_alive plant replica → (task : ℕ) → task < length plant.net.tasks
        → (plan_for exec cost plant).home task ≡ (seat replica).unit → length (state_in (seat replica).held task) ≡ slice_index plant.states task };
}
