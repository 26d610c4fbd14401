ghost use Rattle.std.specs.Prelude.{◌≡◌, ◌↔◌, Some, codes};
ghost use Rattle.jx_bench.specs.declared.task.Task.TheVariants.{Steps, Maps, Runs, Outcomes, Stack, Structures, Reading, Rows};

/// The work that is measured.
#[derive(Clone, Copy, Debug)]
pub enum Task {
    /// The lexical machine, byte by byte, from between tokens: its token starts are counted and none is kept.
    Steps,
    /// Chunk maps of chunks one after another, with their token starts and ends.
    Maps,
    /// Text runs of chunks one after another: their maps, and the outcome of their token starts.
    Runs,
    /// Outcome runs of chunks one after another: the outcome of their token starts, which aren't kept.
    Outcomes,
    /// The token starts of a text's reading over one stack of open containers, from its start.
    Stack,
    /// The structure of the same token starts, given one by one.
    Structures,
    /// The reading of a text from its start, as one run, with its token starts and ends.
    Reading,
    /// The rows of a text, from the token starts and ends of its reading.
    Rows,
}

impl Task {
    /// The task of that name, in small letters.
    pub fn of(name: &str) -> Option<Task>
        ensures steps { (result ≡ Some Steps) ↔ (name.now ≡ codes "steps") }
        ensures maps { (result ≡ Some Maps) ↔ (name.now ≡ codes "maps") }
        ensures runs { (result ≡ Some Runs) ↔ (name.now ≡ codes "runs") }
        ensures outcomes { (result ≡ Some Outcomes) ↔ (name.now ≡ codes "outcomes") }
        ensures stack { (result ≡ Some Stack) ↔ (name.now ≡ codes "stack") }
        ensures structures { (result ≡ Some Structures) ↔ (name.now ≡ codes "structures") }
        ensures reading { (result ≡ Some Reading) ↔ (name.now ≡ codes "reading") }
        ensures rows { (result ≡ Some Rows) ↔ (name.now ≡ codes "rows") }
    {
        match name {
            "steps" => Some(Task::Steps),
            "maps" => Some(Task::Maps),
            "runs" => Some(Task::Runs),
            "outcomes" => Some(Task::Outcomes),
            "stack" => Some(Task::Stack),
            "structures" => Some(Task::Structures),
            "reading" => Some(Task::Reading),
            "rows" => Some(Task::Rows),
            _ => None,
        }
    }
}
