//! A list of decisions that grows and shrinks at its end.
use crate::cursor::{Cursor, first, next};
use crate::fits::fit;
use crate::into_tables::tables_of;
use crate::moves::{empty, push, undo};
use crate::state::State;
use decisions::Choice;
use graph::{Graph, Net};
use mars_base::Memory;
use std::alloc::Global;
use std::marker::Model;
use tables::Tables;

/// What is to be placed, and the decisions so far. All memory that decisions take is taken when it is made. Contracts
/// see it as a `Held`.
#[derive(Drop)]
pub struct Prefix {
    state: State,
}

impl Model for Prefix {
    ghost use Rattle.placement.specs.Held.{Held, Holds};

    ghost Value = { Held };

    ghost view = { λ p. record { problem = p.state.problem; list = p.state.placed.items } };

    ghost invariant = { λ p. Holds p.state };
}

impl Prefix {
    ghost use Rattle.std.specs.Prelude.{◌≡◌, ◌↔◌, ◌<◌, ◌≤◌, List, [], ◌∷◌, ◌++◌, length, MatchOption, IfOk, IsTrue, Some};
    ghost use Rattle.decisions.specs.Decision.{Decision};
    ghost use Rattle.decisions.specs.Place.{place};
    ghost use Rattle.decisions.specs.Pruned.{pruned};
    ghost use Rattle.decisions.specs.Choices.{choices, IsChoice, IsReached};
    ghost use Rattle.decisions.specs.IsProblem.{IsProblem};
    ghost use Rattle.decisions.specs.ProblemOf.{problem_of};
    ghost use Rattle.decisions.specs.TablesOf.{tables_of as tables_in};
    ghost use Rattle.graph.specs.NetGraph.{IsNetGraph};
    ghost use Rattle.placement.specs.Choosing.{IsLeft, GoesOn};

    /// No decision yet, with all memory that decisions will take.
    pub fn new(alloc: Global, net: &Net, graph: &Graph) -> Result<Prefix, Memory>
        requires { IsNetGraph net.now graph.now }
        ensures empty { IfOk result (λ p. p ≡ record { problem = problem_of net.now graph.now; list = [] }) }
        ensures limits { IfOk result (λ p. IsProblem p.problem) }
    {
        let state = empty(alloc, net, graph)?;
        Ok(Prefix { state })
    }

    /// Whether every job is placed.
    pub fn whole(&self) -> bool
        ensures whole { IsTrue result ↔ (length self.now.list ≡ length self.now.problem.works) }
        ensures few { length self.now.list ≤ length self.now.problem.works }
        ensures reached { IsReached self.now.problem self.now.list }
    {
        self.state.placed.len() == self.state.problem.works.len()
    }

    /// Whether some job that isn't placed can't end by its deadline any more.
    pub fn pruned(&self) -> bool
        ensures { result ≡ pruned self.now.problem self.now.list }
    {
        self.state.hopeless || self.state.late > 0
    }

    /// Before the first choice.
    pub fn cursor(&self) -> Cursor
        ensures { IsLeft self.now.problem self.now.list result (choices self.now.problem self.now.list) }
    {
        first(&self.state)
    }

    /// The next choice, by the latest start and the number of the job and then by its end and unit; None where there is
    /// none more. Choices are made one job at a time.
    pub fn next(&self, cursor: &mut Cursor) -> Option<Choice>
        ensures { (left : List Decision) → IsLeft self.now.problem self.now.list cursor.old left → MatchOption result (left ≡ []) (λ choice. GoesOn self.now.problem self.now.list left choice cursor.new) }
    {
        next(&self.state, cursor)
    }

    /// Places a job by one of the choices. It takes no memory.
    pub fn place(&mut self, choice: Choice)
        requires { IsChoice self.old.problem self.old.list choice }
        ensures problem { self.new.problem ≡ self.old.problem }
        ensures list { (d : Decision) → place self.old.problem self.old.list choice.job choice.unit ≡ Some d → self.new.list ≡ self.old.list ++ d ∷ [] }
    {
        if let Some(placed) = fit(&self.state, choice) {
            push(&mut self.state, placed);
        }
    }

    /// Takes the last decision back. Everything is as it was before it.
    pub fn undo(&mut self)
        ensures problem { self.new.problem ≡ self.old.problem }
        ensures list { (l : List Decision) (d : Decision) → self.old.list ≡ l ++ d ∷ [] → self.new.list ≡ l }
    {
        undo(&mut self.state);
    }

    /// The tables of the decisions.
    pub fn tables(&self, alloc: Global) -> Result<Tables, Memory>
        ensures { IfOk result (λ t. t ≡ tables_in self.now.problem self.now.list) }
    {
        tables_of(alloc, &self.state)
    }
}
