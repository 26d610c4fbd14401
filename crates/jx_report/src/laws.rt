ghost use Rattle.std.specs.Prelude.{◌≡◌, ℕ, List};
ghost use Rattle.jx_run.specs.declared.texts.settings.Settings.{Settings};
ghost use Rattle.jx_task.specs.declared.task.Task.{Task};
ghost use Rattle.jx_ends.specs.declared.exit.Exit.{Exit};
ghost use Rattle.jx_report.specs.Output.{Output};

use jx_answer::{unique_elements_by_settings, unique_verdicts_by_settings};
use jx_run::unique_tree_by_settings;

/// Equal inputs get equal output and an equal exit for a task by settings, whatever the divisions, workers and gates.
pub fn unique_output()
    ensures { (task : Task) (settings : Settings) (input x y : List ℕ) (e f : Exit) → Output task settings input x e → Output task settings input y f → (x ≡ y) × (e ≡ f) }
{
    unique_tree_by_settings();
    unique_verdicts_by_settings();
    unique_elements_by_settings();
}
