//! What the words after the program's name ask for.
ghost use Rattle.std.specs.Prelude.{◌≡◌, map, string_bytes};
ghost use Rattle.std.specs.Option.{option_map};
ghost use Rattle.mars_top.specs.Asked.{plain_asked};
ghost use Rattle.budgets.specs.Budget.{budget_of};
ghost use Rattle.mars_top.specs.Command.{Build, Plan, command_of};

use budgets::budget_of;

/// What words ask for: a command with the names that it was given, or nothing.
#[derive(Clone, Copy, Debug)]
pub enum Asked<'a> {
    /// Words that are no command.
    Nothing,
    /// `task FILE`.
    Task {
        file: &'a str,
    },
    /// `plan PROJECT BUDGET`.
    Plan {
        project: &'a str,
        budget: u32,
    },
    /// `build PROJECT BUDGET IMAGE`.
    Build {
        project: &'a str,
        budget: u32,
        image: &'a str,
    },
    /// `show IMAGE`.
    Show {
        file: &'a str,
    },
}

/// The command of the words; Nothing exactly where they are none.
pub fn read_words(words: &[String]) -> Asked<'_>
    ensures { plain_asked result ≡ command_of (map string_bytes words.now) }
{
    match words {
        [word, file] => {
            if word.as_str() == "task" {
                Asked::Task {
                    file: file.as_str(),
                }
            } else if word.as_str() == "show" {
                Asked::Show {
                    file: file.as_str(),
                }
            } else {
                Asked::Nothing
            }
        }
        [word, project, budget] => {
            if word.as_str() == "plan" {
                read_plan(project.as_str(), budget.as_str())
            } else {
                Asked::Nothing
            }
        }
        [word, project, budget, image] => {
            if word.as_str() == "build" {
                read_build(project.as_str(), budget.as_str(), image.as_str())
            } else {
                Asked::Nothing
            }
        }
        _ => Asked::Nothing,
    }
}

// `plan` with these names, where the second is a budget.
fn read_plan<'a>(project: &'a str, budget: &str) -> Asked<'a>
    ensures { plain_asked result ≡ option_map (λ n. Plan project.now n) (budget_of budget.now) }
{
    match budget_of(budget.as_bytes()) {
        Some(budget) => Asked::Plan { project, budget },
        None => Asked::Nothing,
    }
}

// `build` with these names, where the second is a budget.
fn read_build<'a>(project: &'a str, budget: &str, image: &'a str) -> Asked<'a>
    ensures { plain_asked result ≡ option_map (λ n. Build project.now n image.now) (budget_of budget.now) }
{
    match budget_of(budget.as_bytes()) {
        Some(budget) => Asked::Build {
            project,
            budget,
            image,
        },
        None => Asked::Nothing,
    }
}
