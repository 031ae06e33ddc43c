//! The tables of the first feasible list of decisions, by passes of rising total rank.
#![tactic(auto)]

ghost use Rattle.std.specs.Prelude.{◌≡◌, ℕ, ◌+◌, ◌-◌, ◌<◌, ◌≤◌, ◌^◌, [], length};
ghost use Rattle.decisions.specs.Choices.{rules_of};
ghost use Rattle.decisions.specs.IsProblem.{IsProblem};
ghost use Rattle.decisions.specs.ProblemOf.{problem_of};
ghost use Rattle.graph.specs.NetGraph.{IsNetGraph};
ghost use Rattle.passes.specs.Answers.{Answers, Searched};
ghost use Rattle.search.specs.Search.{IsAnswer, found_in};
ghost use Rattle.walks.specs.Walk.{walk as walked, either as one_of};

use graph::{Graph, Net};
use mars_base::Steps;
use passes::{Ended, SearchFault};
use placement::Prefix;
use std::alloc::Global;
use tables::Tables;

fn either(a: bool, b: bool) -> bool
    ensures { result ≡ one_of a b }
{
    if a { true } else { b }
}

/// Walks the lists behind the prefix whose choices have at most so much total rank, as far as the steps reach. Where a
/// whole list is found the prefix is that list, and where none is it is as it was.
fn walk(prefix: &mut Prefix, left: usize, limit: u64, steps: &mut Steps) -> Ended
    requires left { left < 2 ^ 32 }
    requires limit { steps.old ≤ limit }
    ensures problem { prefix.new.problem ≡ prefix.old.problem }
    ensures answer { Answers (walked (rules_of prefix.old.problem) (length prefix.old.problem.works - length prefix.old.list) prefix.old.list left) prefix.old.list limit steps.old steps.new prefix.new.list result }
{
    if prefix.pruned() {
        return Ended::Missing(false);
    }
    if steps.taken() == limit {
        return Ended::Stopped;
    }
    steps.tick();
    if prefix.whole() {
        return Ended::Found;
    }
    let mut cursor = prefix.cursor();
    let mut rank = 0;
    let mut cut = false;
    while let Some(choice) = prefix.next(&mut cursor) {
        if rank > left {
            return Ended::Missing(true);
        }
        prefix.place(choice);
        match walk(prefix, left - rank, limit, steps) {
            Ended::Found => return Ended::Found,
            Ended::Stopped => return Ended::Stopped,
            Ended::Missing(also_cut) => cut = either(cut, also_cut),
        }
        prefix.undo();
        rank += 1;
    }
    Ended::Missing(cut)
}

/// Goes from the empty prefix to the first feasible list.
fn first(prefix: &mut Prefix, budget: u32, steps: &mut Steps) -> Result<(), SearchFault>
    requires limits { IsProblem prefix.old.problem }
    requires empty { prefix.old.list ≡ [] }
    requires room { steps.old + budget < 2 ^ 64 }
    ensures problem { prefix.new.problem ≡ prefix.old.problem }
    ensures answer { Searched (rules_of prefix.old.problem) (length prefix.old.problem.works) budget steps.old steps.new (found_in prefix.new.list result) }
{
    let limit = steps.taken() + u64::from(budget);
    let mut pass = 0;
    loop {
        match walk(prefix, pass, limit, steps) {
            Ended::Found => return Ok(()),
            Ended::Stopped => return Err(SearchFault::Spent),
            Ended::Missing(cut) => {
                if !cut {
                    return Err(SearchFault::NoTable);
                }
            }
        }
        pass += 1;
    }
}

/// The tables of the first feasible list of decisions: of the least total rank, and among these the first by its ranks in
/// order. A step is one list that is expanded; steps are counted from the call on. `Spent` comes exactly where more steps
/// than the budget are needed, after the budget's; `NoTable` exactly where the budget suffices and no list is feasible,
/// after the steps that are needed, and so many are taken for tables too.
pub fn search(
    alloc: Global,
    net: &Net,
    graph: &Graph,
    budget: u32,
    steps: &mut Steps,
) -> Result<Tables, SearchFault>
    requires net { IsNetGraph net.now graph.now }
    requires room { steps.old + budget < 2 ^ 64 }
    ensures answer { IsAnswer (problem_of net.now graph.now) budget steps.old steps.new result }
{
    let Ok(mut prefix) = Prefix::new(alloc, net, graph) else {
        return Err(SearchFault::Memory);
    };
    if let Err(fault) = first(&mut prefix, budget, steps) {
        return Err(fault);
    }
    match prefix.tables(alloc) {
        Ok(tables) => Ok(tables),
        Err(_) => Err(SearchFault::Memory),
    }
}
