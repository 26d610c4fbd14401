// Laws of reports, each on a function that does nothing: for every list of bytes and all settings.
ghost use Rattle.std.specs.Prelude.{◌≡◌, ℕ, List, [], false};
ghost use Rattle.jx_run.specs.declared.texts.settings.NameRule.TheVariants.{Any};
ghost use Rattle.jx_task.specs.declared.task.Task.TheVariants.{Seq};
ghost use Rattle.jx_ends.specs.declared.exit.Exit.{Exit};
ghost use Rattle.jx_report.specs.Output.{Output};
ghost use Rattle.jx_ndjson_report.specs.declared.task.ElementsTask.{ElementsTask};
ghost use Rattle.jx_ndjson_report.specs.Elements.{ElementsOutput};

/// The whole output and the status are those of a report on the sequence (`jx_report`), whose output is one. So the
/// report while an input is read is, once it was read to its end, byte for byte the report on it at once.
pub fn output_as_of_seq()
    ensures same { (task : ElementsTask) (input output : List ℕ) (exit : Exit) → task.settings.names ≡ Any → task.front.items ≡ [] → task.is_quiet ≡ false
        → ElementsOutput task input output exit → Output Seq task.settings input output exit }
{}
