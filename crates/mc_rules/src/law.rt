//! What holds of checked tasks.
ghost use Rattle.std.specs.Prelude.{◌≡◌};
ghost use Rattle.mc_tree.specs.CheckedTask.{IsCheckedTask};
ghost use Rattle.mc_tree.specs.Plain.{plain_task};
ghost use Rattle.mc_tree.specs.declared.tree.Task.{Task};

/// The plain tree of a checked task shows all of it: two checked tasks of one plain tree are the same.
pub fn checked_tasks()
    ensures { (a b : Task) → IsCheckedTask a → IsCheckedTask b → plain_task a ≡ plain_task b → a ≡ b }
{}
