//! The words of sensors in a line.
ghost use Rattle.std.specs.Prelude.{◌≡◌, ◌<◌, ℕ, IfOk, length, slice_get, slice_index, take, Some};
ghost use Rattle.graph.specs.Cycle.{sensor_words, words_of_sensor, words_of_sensors};
ghost use Rattle.graph.specs.Net.{ins_of, instances};
ghost use Rattle.graph.specs.NetGraph.{IsNetGraph};
ghost use Rattle.graph.specs.declared.net.Plug.{Plug};
ghost use Rattle.net_run.specs.Words.{sensor_at};
ghost use Rattle.job_inputs.specs.Look.{AreStarts, width_at};

use graph::{Graph, Net, Plug};
use mars_base::Memory;
use std::alloc::Global;

/// For each sensor how many words of a line stand before its own.
pub fn sensor_starts(alloc: Global, net: &Net, graph: &Graph) -> Result<Vec<u32>, Memory>
    requires { IsNetGraph net.now graph.now }
    ensures { IfOk result (λ starts. AreStarts net.now graph.now.cycle starts.items) }
{
    let mut starts = Vec::new(alloc);
    let mut words = 0;
    for number in 0..net.sensors.len() {
        starts.push(words)?;
        words += words_in_line(net, graph, &net.sensors.as_slice()[number]);
    }
    Ok(starts)
}

// How many words of a line are a sensor's: those of its port for each instance.
fn words_in_line(net: &Net, graph: &Graph, sensor: &Plug) -> u32
    requires net { IsNetGraph net.now graph.now }
    requires task { sensor.now.task < length net.now.tasks }
    requires port { sensor.now.port < length (ins_of net.now sensor.now.task) }
    requires few { words_of_sensor net.now graph.now.cycle sensor.now < 5000 }
    ensures { result ≡ words_of_sensor net.now graph.now.cycle sensor.now }
{
    let width = net.ins_of(sensor.task)[usize::from(sensor.port)];
    u32::from(width) * net.instances(graph.cycle(), sensor.task)
}

/// A sensor's words of a line for an instance.
pub(crate) fn sensor_part<'a>(
    net: &Net,
    graph: &Graph,
    starts: &[u32],
    line: &'a [i32],
    sensor: u16,
    instance: u32,
) -> &'a [i32]
    requires net { IsNetGraph net.now graph.now }
    requires starts { AreStarts net.now graph.now.cycle starts.now }
    requires line { length line.now ≡ sensor_words net.now graph.now.cycle }
    requires sensor { sensor < length net.now.sensors }
    requires instance { (plug : Plug) → slice_get net.now.sensors sensor ≡ Some plug → instance < instances net.now graph.now.cycle plug.task }
    ensures words { result.now ≡ sensor_at net.now graph.now.cycle sensor instance line.now }
    ensures width { (plug : Plug) → slice_get net.now.sensors sensor ≡ Some plug → length result.now ≡ width_at net.now plug.task plug.port }
{
    let plug = &net.sensors.as_slice()[usize::from(sensor)];
    let width = usize::from(net.ins_of(plug.task)[usize::from(plug.port)]);
    let from = starts[usize::from(sensor)] as usize + instance as usize * width;
    let to = from + width;
    &line[from..to]
}
