//! The lines of an event.
ghost use Rattle.std.specs.Prelude.{◌≡◌, slice_get};
ghost use Rattle.graph.specs.Cycle.{first_job};
ghost use Rattle.graph.specs.NetGraph.{IsNetGraph};
ghost use Rattle.lines.specs.Gathered.{Writes};
ghost use Rattle.mars_base.specs.Causes.{HasCause};
ghost use Rattle.run_texts.specs.Setting.{plug_task, tick_of};
ghost use Rattle.tables_text.specs.Text.{lines_of};
ghost use Rattle.cycle_outputs.specs.Ordered.{setting_in};
ghost use Rattle.cycle_text.specs.Lines.{line_of_output};
ghost use Rattle.trace_text.specs.Lines.{output_of, line_of_effect};

use crate::Place;
use crate::job_line::{write_break, write_end, write_skip, write_start};
use crate::line::{write_cut, write_miss, write_put, write_silent, write_take};
use cluster_model::Effect;
use cycle_outputs::CycleOutput;
use cycle_text::{Outcome, write_outs};
use graph::{Graph, Net};
use lines::LineBuf;
use mars_base::{Sink, SinkFault};
use tables::Tables;
use timetable::entry_at;

/// Writes the line of each effect of an event, in their order: of an output the words that the actuator gets by what
/// the cluster has come to after the event. An `Err` comes only where a put failed, and then a front of the lines was
/// put.
pub fn write_effects<R: Outcome, O: Sink>(
    buffer: &mut LineBuf,
    out: &mut O,
    place: Place,
    net: &Net,
    graph: &Graph,
    tables: &Tables,
    effects: &[Effect],
    outcome: &R,
) -> Result<(), SinkFault>
    requires { IsNetGraph net.now graph.now }
    ensures bytes { Writes (O.holds out.old) buffer.old (lines_of (line_of_effect net.now graph.now tables.now (R.given outcome.now) place) effects.now) (O.holds out.new) buffer.new result }
    ensures cause { HasCause (O.faults out.old) (O.faults out.new) result }
{
    for effect in effects {
        if let Err(fault) = write_effect(buffer, out, place, net, graph, tables, *effect, outcome) {
            return Err(fault);
        }
    }
    Ok(())
}

// Writes the line of an effect.
fn write_effect<R: Outcome, O: Sink>(
    buffer: &mut LineBuf,
    out: &mut O,
    place: Place,
    net: &Net,
    graph: &Graph,
    tables: &Tables,
    effect: Effect,
    outcome: &R,
) -> Result<(), SinkFault>
    requires { IsNetGraph net.now graph.now }
    ensures bytes { Writes (O.holds out.old) buffer.old (line_of_effect net.now graph.now tables.now (R.given outcome.now) place effect) (O.holds out.new) buffer.new result }
    ensures cause { HasCause (O.faults out.old) (O.faults out.new) result }
{
    match effect {
        Effect::Take { from, side, round } => write_take(buffer, out, place, from, side, round),
        Effect::Miss { from, round } => write_miss(buffer, out, place, from, round),
        Effect::Put { word } => write_put(buffer, out, place, word),
        Effect::Start { job } => write_start(buffer, out, place, net, graph, job),
        Effect::Skip { job } => write_skip(buffer, out, place, net, graph, job),
        Effect::End { job, cycles } => {
            write_end(buffer, out, place, net, graph, tables, job, cycles)
        }
        Effect::Break { job } => write_break(buffer, out, place, net, graph, tables, job),
        Effect::Out { actuator, instance } => write_output(
            buffer,
            out,
            place.cycle,
            net,
            graph,
            tables,
            actuator,
            instance,
            outcome,
        ),
        Effect::Fell => write_silent(buffer, out, place),
        Effect::Cut => write_cut(buffer, out, place),
    }
}

// Writes the line of what an actuator gets for an instance, where its job has given words.
fn write_output<R: Outcome, O: Sink>(
    buffer: &mut LineBuf,
    out: &mut O,
    cycle: u32,
    net: &Net,
    graph: &Graph,
    tables: &Tables,
    actuator: u16,
    instance: u32,
    outcome: &R,
) -> Result<(), SinkFault>
    requires { IsNetGraph net.now graph.now }
    ensures bytes { Writes (O.holds out.old) buffer.old (line_of_output net.now cycle (R.given outcome.now) (output_of net.now graph.now tables.now actuator instance)) (O.holds out.new) buffer.new result }
    ensures cause { HasCause (O.faults out.old) (O.faults out.new) result }
{
    let tick = output_tick(net, graph, tables, actuator, instance);
    let outputs = [CycleOutput {
        tick,
        actuator,
        instance,
    }];
    write_outs(buffer, out, cycle, net, &outputs, outcome)
}

// The tick at which an actuator gets its words for an instance: that at which the tables end the job.
fn output_tick(net: &Net, graph: &Graph, tables: &Tables, actuator: u16, instance: u32) -> u32
    requires { IsNetGraph net.now graph.now }
    ensures { result ≡ tick_of (setting_in net.now graph.now tables.now) actuator instance }
{
    let first = first_of(net, graph, actuator);
    entry_at(tables, usize::from(first) + instance as usize).end
}

// The number of the first job of an actuator's task; 0 where there is no such actuator.
fn first_of(net: &Net, graph: &Graph, actuator: u16) -> u16
    requires { IsNetGraph net.now graph.now }
    ensures { result ≡ first_job net.now graph.now.cycle (plug_task (slice_get net.now.actuators actuator)) }
{
    match net.actuators.get(usize::from(actuator)) {
        Some(plug) => graph.first_job(plug.task),
        None => 0,
    }
}
