//! How many words the line of a cycle has.
ghost use Rattle.std.specs.Prelude.{◌≡◌, ◌<◌, length};
ghost use Rattle.graph.specs.Cycle.{sensor_words, words_of_sensor};
ghost use Rattle.graph.specs.Net.{ins_of};
ghost use Rattle.graph.specs.NetGraph.{IsNetGraph};

use graph::{Graph, Net, Plug};

/// How many words the sensors of a cycle give.
pub fn line_words(net: &Net, graph: &Graph) -> u32
    requires { IsNetGraph net.now graph.now }
    ensures { result ≡ sensor_words net.now graph.now.cycle }
{
    let mut words = 0;
    for number in 0..net.sensors.len() {
        words += words_of_plug(net, graph, &net.sensors.as_slice()[number]);
    }
    words
}

// How many words of a line are a sensor's: those of its port for each instance.
fn words_of_plug(net: &Net, graph: &Graph, sensor: &Plug) -> u32
    requires net { IsNetGraph net.now graph.now }
    requires task { sensor.now.task < length net.now.tasks }
    requires port { sensor.now.port < length (ins_of net.now sensor.now.task) }
    requires few { words_of_sensor net.now graph.now.cycle sensor.now < 5000 }
    ensures { result ≡ words_of_sensor net.now graph.now.cycle sensor.now }
{
    let width = net.ins_of(sensor.task)[usize::from(sensor.port)];
    u32::from(width) * net.instances(graph.cycle(), sensor.task)
}
