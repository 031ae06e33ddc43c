//! That a net has one graph: laws alone, which say that the answers about a project's net are determined.
#![tactic(auto)]

ghost use Rattle.std.specs.Prelude.{◌≡◌, ℕ, List};
ghost use Rattle.graph.specs.declared.net.Net.{Net};
ghost use Rattle.graph.specs.Sound.{KeepsRules};
ghost use Rattle.one_graph.specs.One.{HasOneGraph, HasOneFault, HasNoGraphWithFault};

/// The law that a net has one graph for a length of each task: its cycle, its jobs, their order, their remaining
/// ticks and both tables are determined.
pub fn one_graph()
    ensures { (net : Net) (lengths : List ℕ) → HasOneGraph net lengths }
{}

/// The law that a net passes one limit first, and that there is no graph then.
pub fn one_limit()
    ensures one { (net : Net) → KeepsRules net → HasOneFault net }
    ensures none { (net : Net) (lengths : List ℕ) → KeepsRules net → HasNoGraphWithFault net lengths }
{}
