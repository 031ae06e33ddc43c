//! The fields of a task.
ghost use Rattle.std.specs.Prelude.{◌≡◌, length};

use mars_base::Text;
use std::marker::Model;
use word_code::Code;

/// The fields of a task.
#[derive(Debug, Drop)]
pub struct TaskPart {
    /// Its name.
    pub name: Text,
    /// The number of its transaction.
    pub transaction: u8,
    /// The units that may run it, as a mask.
    pub units: u8,
    /// Its greatest number of cycles, 1 to 2,147,483,647.
    pub maxt: u32,
    /// Its code, verified or not.
    pub code: Code,
}

/// Tasks, which contracts see as a list and which can be taken apart.
#[derive(Debug, Drop)]
pub struct TaskParts {
    tasks: Vec<TaskPart>,
}

impl Model for TaskParts {
    ghost use Rattle.std.specs.Prelude.{List};
    ghost use Rattle.image_tasks.specs.declared.parts.TaskPart.{TaskPart};

    ghost Value = { List TaskPart };

    ghost view = { λ list. list.tasks.items };
}

impl TaskParts {
    /// The tasks.
    pub fn from_vec(tasks: Vec<TaskPart>) -> TaskParts
        ensures { result ≡ tasks.items }
    {
        TaskParts { tasks }
    }

    /// The tasks.
    pub fn into_vec(self) -> Vec<TaskPart>
        ensures { result.items ≡ self }
    {
        let TaskParts { tasks } = self;
        tasks
    }

    /// The tasks.
    pub fn as_slice(&self) -> &[TaskPart]
        ensures { result.now ≡ self.now }
    {
        self.tasks.as_slice()
    }
}
