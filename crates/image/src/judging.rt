//! Whether the fields of an image are one's.
ghost use Rattle.std.specs.Prelude.{◌≡◌, ◌<◌, ◌^◌, All, IfOk, IfErr, length, map};
ghost use Rattle.graph.specs.GraphOf.{IsFaultOf};
ghost use Rattle.graph.specs.JobGraph.{IsJobGraph};
ghost use Rattle.graph.specs.NetGraph.{IsNetGraph, IsNetGraphFor};
ghost use Rattle.graph.specs.Sound.{IsSound};
ghost use Rattle.word_code.specs.Typing.{IsVerified};
ghost use Rattle.word_code.specs.declared.code.Code.{Code};
ghost use Rattle.plant.specs.Lengths.{lengths_of};
ghost use Rattle.image_fields.specs.declared.parts.Parts.{Parts};
ghost use Rattle.image_fields.specs.Image.{image};
ghost use Rattle.image_plant.specs.Image.{IsImage};
ghost use Rattle.image_plant.specs.Said.{entry_of, message_of, IsSaid};
ghost use Rattle.image.specs.Decoded.{MayRefuse, IsBadCode};
ghost use Rattle.image.specs.Helpers.{IsTaken, IsChecked};

use crate::decoding::ImageFault;
use crate::entries::{entries_of, messages_of};
use crate::value::Image;
use graph::{Graph, GraphFault, Net, sound};
use image_fields::Parts;
use image_sides::{CodesFault, are_all_narrow, split, states_of, verify_codes};
use image_tables::{JobPart, MessagePart};
use mars_base::Memory;
use plant::{Plant, lengths_of};
use sqlite_items::Items;
use std::alloc::Global;
use tables::{Tables, valid};
use word_code::{Code, Verified};

/// The fields taken apart, with a sound net.
#[derive(Debug, Drop)]
pub(crate) struct Taken {
    net: Net,
    codes: Vec<Code>,
    maxts: Items<u32>,
    jobs: Items<JobPart>,
    messages: Items<MessagePart>,
}

fn take_apart(alloc: Global, parts: Parts) -> Result<Taken, ImageFault>
    ensures ok { IfOk result (IsTaken parts) }
    ensures fault { IfErr result (MayRefuse parts) }
{
    let Parts {
        shape,
        tasks,
        transactions,
        edges,
        sensors,
        actuators,
        jobs,
        messages,
    } = parts;
    if !are_all_narrow(tasks.as_slice()) {
        return Err(ImageFault::Net);
    }
    let sides = split(alloc, tasks.into_vec())?;
    let net = Net {
        shape,
        tasks: sides.tasks,
        transactions,
        edges,
        sensors,
        actuators,
    };
    if !sound(alloc, &net)? {
        return Err(ImageFault::Net);
    }
    Ok(Taken {
        net,
        codes: sides.codes,
        maxts: sides.maxts,
        jobs,
        messages,
    })
}

/// The fields taken apart, with a sound net and verified codes.
#[derive(Debug, Drop)]
pub(crate) struct Checked {
    net: Net,
    programs: Items<Verified>,
    maxts: Items<u32>,
    jobs: Items<JobPart>,
    messages: Items<MessagePart>,
}

fn check_codes(alloc: Global, codes: Vec<Code>) -> Result<Items<Verified>, ImageFault>
    requires few { length codes.items < 2 ^ 16 }
    requires short { All (λ (c : Code). length c.instrs < 2 ^ 32) codes.items }
    ensures ok { IfOk result (λ programs. (programs ≡ codes.items) × All IsVerified codes.items) }
    ensures fault { IfErr result (IsBadCode codes.items) }
{
    match verify_codes(alloc, codes) {
        Ok(programs) => Ok(programs),
        Err(CodesFault::Code(number)) => Err(ImageFault::Code(number)),
        Err(CodesFault::Memory) => Err(ImageFault::Memory),
    }
}

fn no_graph(net: &Net, fault: GraphFault) -> Memory
    requires sound { IsSound net.now }
    requires fault { IsFaultOf net.now fault }
{
    match fault {
        GraphFault::Memory => Memory,
        GraphFault::CycleTooLong(_) => unreachable!(),
        GraphFault::TooManyJobs(_) => unreachable!(),
        GraphFault::TooManySensorWords(_) => unreachable!(),
    }
}

fn graph_of(alloc: Global, net: &Net, maxts: &[u32]) -> Result<Graph, Memory>
    requires sound { IsSound net.now }
    requires maxts { length maxts.now ≡ length net.now.tasks }
    ensures { IfOk result (λ g. IsNetGraphFor net.now (lengths_of maxts.now net.now.shape.cycles_per_tick) g × IsJobGraph g) }
{
    let lengths = lengths_of(alloc, maxts, net.shape.cycles_per_tick)?;
    match Graph::jobs(alloc, net, lengths.as_slice()) {
        Ok(graph) => Ok(graph),
        Err(fault) => Err(no_graph(net, fault)),
    }
}

fn tables_of(
    alloc: Global,
    net: &Net,
    graph: &Graph,
    jobs: &[JobPart],
    messages: &[MessagePart],
) -> Result<Tables, Memory>
    requires { IsNetGraph net.now graph.now }
    ensures jobs { IfOk result (λ tables. tables.jobs ≡ map (entry_of net.now graph.now.cycle) jobs.now) }
    ensures messages { IfOk result (λ tables. tables.messages ≡ map message_of messages.now) }
{
    let jobs = entries_of(alloc, net, graph, jobs)?;
    let messages = messages_of(alloc, messages)?;
    Ok(Tables { jobs, messages })
}

fn assemble(alloc: Global, checked: Checked) -> Result<Image, ImageFault>
    requires { (p : Parts) × IsChecked p checked }
    ensures ok { (p : Parts) → IsChecked p checked → IfOk result (λ made. IsImage made × IsSaid p made) }
    ensures fault { (p : Parts) → IsChecked p checked → IfErr result (MayRefuse p) }
{
    let Checked {
        net,
        programs,
        maxts,
        jobs,
        messages,
    } = checked;
    let states = states_of(alloc, programs.as_slice())?;
    let graph = graph_of(alloc, &net, maxts.as_slice())?;
    let tables = tables_of(alloc, &net, &graph, jobs.as_slice(), messages.as_slice())?;
    match valid(&tables, &net, &graph) {
        Err(fault) => Err(ImageFault::Table(fault.rule.number())),
        Ok(()) => Ok(Image::new(Plant {
            net,
            graph,
            tables,
            programs,
            maxts,
            states,
        })),
    }
}

fn judge_codes(alloc: Global, taken: Taken) -> Result<Image, ImageFault>
    requires { (p : Parts) × image.fits p × IsTaken p taken }
    ensures ok { (p : Parts) → image.fits p → IsTaken p taken → IfOk result (λ made. IsImage made × IsSaid p made) }
    ensures fault { (p : Parts) → image.fits p → IsTaken p taken → IfErr result (MayRefuse p) }
{
    let Taken {
        net,
        codes,
        maxts,
        jobs,
        messages,
    } = taken;
    match check_codes(alloc, codes) {
        Ok(programs) => assemble(
            alloc,
            Checked {
                net,
                programs,
                maxts,
                jobs,
                messages,
            },
        ),
        Err(fault) => Err(fault),
    }
}

/// The image that fields say, or why they are refused.
pub(crate) fn judge(alloc: Global, parts: Parts) -> Result<Image, ImageFault>
    requires { image.fits parts }
    ensures ok { IfOk result (λ made. IsImage made × IsSaid parts made) }
    ensures fault { IfErr result (MayRefuse parts) }
{
    let taken = match take_apart(alloc, parts) {
        Ok(taken) => taken,
        Err(fault) => return Err(fault),
    };
    judge_codes(alloc, taken)
}
