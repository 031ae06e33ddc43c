//! A replica of a cluster.
ghost use Rattle.std.specs.Prelude.{◌≡◌, ◌<◌, ℕ, Some, IfOk, length};
ghost use Rattle.tables.specs.Named.{job_at};
ghost use Rattle.plant.specs.InOrder.{IsInOrder};
ghost use Rattle.replica_work.specs.Works.{set_plan};
ghost use Rattle.replica_seat.specs.Alive.{IsAlive, first_seat, seat_of};

use bus::Bus;
use cluster_seats::Seat;
use effect_buf::EffectBuf;
use graph::Graph;
use mars_base::{Memory, Side};
use plant::Plant;
use processor::Cpu;
use replica_desk::{Desk, begin};
use replica_duties::Duties;
use replica_room::{outs_room, state_room};
use replica_start::{first_desk, turn};
use replica_work::finish;
use std::alloc::Global;
use tick_parts::fall_silent;

/// A replica, which runs or fell silent. Where it is silent, what it holds is what it held at that moment.
#[derive(Drop)]
pub struct Replica<C> {
    /// Whether it fell silent.
    pub is_silent: bool,
    /// What it looks up.
    pub duties: Duties,
    /// What it holds.
    pub desk: Desk,
    /// The task of the job in hand.
    pub task: u8,
    /// Its processor.
    pub cpu: C,
    /// Room for the outputs of any job.
    pub outs: Vec<i32>,
    /// Room for the state of any task.
    pub state: Vec<i32>,
}

impl<C: Cpu + Drop> Replica<C> {
    /// The replica of a unit's side before its first tick. No other call takes memory; without it the processor is
    /// dropped.
    pub fn new(
        alloc: Global,
        plant: &Plant<C::Program>,
        unit: u8,
        side: Side,
        cpu: C,
    ) -> Result<Replica<C>, Memory>
        requires in_order { IsInOrder plant.now }
        requires unit { unit < plant.now.net.shape.units }
        ensures alive { IfOk result (IsAlive C.runs plant.now) }
        ensures seat { IfOk result (λ r. seat_of r ≡ first_seat (set_plan C.execution plant.now) unit side) }
    {
        let net = &plant.net;
        let words = plant.states.as_slice();
        let duties = Duties::new(alloc, net, &plant.graph, &plant.tables, unit, side)?;
        let desk = first_desk(alloc, net, &plant.graph, &plant.tables, words, unit)?;
        let outs = outs_room(alloc)?;
        let state = state_room(alloc, words)?;
        Ok(Replica {
            is_silent: false,
            duties,
            desk,
            task: 0,
            cpu,
            outs,
            state,
        })
    }
}

impl<C: Cpu + Drop> Seat for Replica<C> {
    ghost use Rattle.plant_run.specs.PlantRun.{plant_execution, plant_cost};
    ghost use Rattle.replica_seat.specs.Alive.{IsAlive, IsFit, seat_of};
    ghost use Rattle.cluster_losses.proofs.Fits.{plant_set};
    ghost use Rattle.replica_seat.specs.Sizes.{sized_by};

    type Program = C::Program;

    ghost seat = { seat_of };

    ghost exec = { plant_execution C.execution };

    ghost cost = { plant_cost C.execution };

    ghost is_fit = { IsFit C.ins_of C.outs_of C.states_of C.has_words };

    ghost is_alive = { IsAlive C.runs };

    ghost in_order = { λ plant fit. fit.in_order };

    ghost is_set = { λ plant fit. plant_set C.ins_of C.outs_of C.states_of C.execution C.has_words C.sized C.words plant fit.in_order fit.fits fit.have_words };

    ghost sized = { λ plant replica fit alive task low home. sized_by plant replica.duties.unit replica.desk.states fit.in_order alive.sizes task low home };

    fn is_running(&self) -> bool {
        !self.is_silent
    }

    fn clock(&self) -> u32 {
        self.desk.clock
    }

    fn state(&self, task: u16) -> &[i32] {
        self.desk.states.get(usize::from(task))
    }

    fn outs(&self, job: u16) -> Option<&[i32]> {
        self.desk.book.given(usize::from(job))
    }

    fn tick(
        &mut self,
        plant: &Plant<C::Program>,
        bus: &mut Bus,
        line: &[i32],
        seen: &mut EffectBuf,
    ) {
        begin(
            &plant.net,
            &plant.graph,
            &plant.tables,
            &self.duties,
            &mut self.desk,
            bus,
            line,
            seen,
        );
        finish(
            &mut self.cpu,
            plant,
            &self.duties,
            &mut self.desk,
            self.outs.as_mut_slice(),
            self.state.as_mut_slice(),
            seen,
        );
        self.task = task_in_hand(&plant.graph, self.desk.hand);
    }

    fn silence(&mut self, plant: &Plant<C::Program>, bus: &mut Bus, seen: &mut EffectBuf) {
        fall_silent(
            &self.duties.round,
            self.duties.unit,
            self.duties.side,
            self.desk.clock,
            bus,
            seen,
        );
        self.is_silent = true;
    }

    fn next_cycle(&mut self, plant: &Plant<C::Program>) {
        turn(&mut self.desk);
    }
}

// The task of the job in hand; 0 where there is none.
fn task_in_hand(graph: &Graph, hand: Option<u16>) -> u8
    requires { (job : ℕ) → hand ≡ Some job → job < length graph.now.jobs }
    ensures { (job : ℕ) → hand ≡ Some job → result ≡ (job_at graph.now job).task }
{
    match hand {
        Some(job) => graph.job(job).task,
        None => 0,
    }
}
