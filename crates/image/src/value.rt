//! Images.
ghost use Rattle.std.specs.Prelude.{◌≡◌};
ghost use Rattle.graph.specs.JobGraph.{IsJobGraph};

use crate::ranges::programs_fit;
use graph::Graph;
use plant::Plant;
use std::marker::Model;
use word_code::Verified;

/// A plant in order whose programs are verified code with the ports of its tasks. Contracts see it as the
/// plant, and its codes as code.
#[derive(Debug, Drop)]
pub struct Image {
    plant: Plant<Verified>,
}

impl Model for Image {
    ghost use Rattle.word_code.specs.declared.code.Code.{Code};
    ghost use Rattle.plant.specs.declared.system.Plant.{Plant};
    ghost use Rattle.image_plant.specs.Image.{IsImage};

    ghost Value = { Plant Code };

    ghost view = { λ image. image.plant };

    ghost invariant = { λ image. IsImage image.plant };
}

impl Image {
    ghost use Rattle.std.specs.Prelude.{◌≡◌};
    ghost use Rattle.plant.specs.InOrder.{IsInOrder};
    ghost use Rattle.image_plant.specs.Image.{HasPorts, IsImage};

    /// Keeps a plant in order, each task of which has code with its ports and its state words.
    pub fn new(plant: Plant<Verified>) -> Image
        requires in_order { IsInOrder plant }
        requires ports { HasPorts plant }
        ensures value { result ≡ plant }
        ensures image { IsImage result }
    {
        let Plant {
            net,
            graph,
            tables,
            programs,
            maxts,
            states,
        } = plant;
        programs_fit(programs.as_slice());
        Image {
            plant: Plant {
                net,
                graph: whole(graph),
                tables,
                programs,
                maxts,
                states,
            },
        }
    }

    /// The plant.
    pub fn plant(&self) -> &Plant<Verified>
        ensures value { result.now ≡ self.now }
        ensures image { IsImage result.now }
    {
        &self.plant
    }

    /// The plant.
    pub fn into_plant(self) -> Plant<Verified>
        ensures value { result ≡ self }
        ensures image { IsImage result }
    {
        let Image { plant } = self;
        plant
    }
}

// A graph, whose own facts are told.
fn whole(graph: Graph) -> Graph
    ensures same { result ≡ graph }
    ensures whole { IsJobGraph result }
{
    graph
}
