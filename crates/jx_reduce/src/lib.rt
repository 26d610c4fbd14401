//! The structure of tokens: what may stand next, and what each token makes of it, for every list of open containers.
#![tactic(auto)]

mod forms;
mod laws;
mod reducing;
mod stack;
mod table;

pub use forms::ended_level::EndedLevel;
pub use forms::entry::Entry;
pub use forms::entry_view::EntryView;
pub use forms::form_ref::FormRef;
pub use forms::level::Level;
pub use forms::parts::{FormParts, RestParts, RestRef, StructureParts, StructureRef};
pub use forms::structure::Structure;
pub use laws::{spans_of_offsets, spans_of_structures};
pub use reducing::reduced::Reduced;
pub use reducing::reducer::Reducer;
pub use reducing::reductions::Reductions;
pub use stack::containers::{Containers, Innermost};
pub use stack::known_stack::KnownStack;
pub use stack::pass::pass_tokens;
pub use stack::watch::Listener;
pub use table::expect::Expect;
pub use table::holder::Holder;
pub use table::moves::next;
pub use table::outcome::Outcome;
pub use table::whole::Whole;
