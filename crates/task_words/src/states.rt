//! The states of tasks.
ghost use Rattle.std.specs.Prelude.{◌≡◌, ◌<◌, ℕ, List, [], map, replicate, length, get_or, ℤ, pos, IfOk, slice_set};
ghost use Rattle.task_words.specs.States.{words_in, first_states};

use mars_base::Memory;
use std::alloc::Global;
use std::marker::Model;

/// The state words of tasks, by their numbers. Contracts see it as the list of the states.
#[derive(Drop)]
pub struct TaskStates {
    states: Vec<Vec<i32>>,
}

impl Model for TaskStates {
    ghost use Rattle.std.specs.Prelude.{List, ℤ, map};
    ghost use Rattle.task_words.specs.States.{words_in};

    ghost Value = { List (List ℤ) };

    ghost view = { λ s. map words_in s.states.items };
}

impl TaskStates {
    /// A state for each task: so many words, all 0. No later call takes memory.
    pub fn new(alloc: Global, words: &[u16]) -> Result<TaskStates, Memory>
        ensures { IfOk result (λ s. s ≡ first_states words.now) }
    {
        let mut states = Vec::new(alloc);
        for count in words {
            states.push(zeros(alloc, *count)?)?;
        }
        Ok(TaskStates { states })
    }

    /// The state words of a task.
    pub fn get(&self, task: usize) -> &[i32]
        requires { task < length self.now }
        ensures { result.now ≡ get_or self.now task [] }
    {
        words_of(&self.states[task])
    }

    /// Gives a task another state of as many words.
    pub fn set(&mut self, task: usize, words: &[i32])
        requires task { task < length self.old }
        requires words { length words.now ≡ length (get_or self.old task []) }
        ensures { self.new ≡ slice_set self.old task words.now }
    {
        copy(&mut self.states[task], words);
    }
}

// So many words, all 0.
fn zeros(alloc: Global, count: u16) -> Result<Vec<i32>, Memory>
    ensures { IfOk result (λ v. words_in v ≡ replicate count (pos 0)) }
{
    Ok(vec![in alloc; 0i32; usize::from(count)]?)
}

// The words of a state.
fn words_of(state: &Vec<i32>) -> &[i32]
    ensures { result.now ≡ words_in state.now }
{
    state.as_slice()
}

// Other words in the place of a state's.
fn copy(state: &mut Vec<i32>, words: &[i32])
    requires { length words.now ≡ length (words_in state.old) }
    ensures { words_in state.new ≡ words.now }
{
    state.as_mut_slice().copy_from_slice(words);
}
