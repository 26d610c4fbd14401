//! Runs over JSON texts: the grammar, the verdict, and what reading part of a text gives.
#![tactic(auto)]

mod laws;
mod readers;
mod runs;
mod sequences;
mod texts;

pub use jx_summary::Summary;
pub use laws::{
    beginning_of_a_text_by_its_front, completion_of_a_beginning, elements_of_two_parts,
    reader_and_grammar, readings_after_a_fault, spans_of_values, unique_tree,
    unique_tree_by_settings, unique_verdict, unique_verdict_by_settings,
    verdicts_with_a_refused_mark,
};
pub use readers::one_pass::{NoPause, OnePass, Pace, read_into};
pub use readers::progress::{
    OpenStack, Progress, progress_at_start, read_beginning, read_between, read_on, verdict_at,
};
pub use readers::reader::Reader;
pub use readers::started::Started;
pub use readers::telling::{accepted_texts_stand_behind_fronts, slices_are_told_in_turn};
pub use runs::elements_run::ElementsRun;
pub use runs::outcome_run::{OutcomeRun, verdict_from};
pub use runs::seq_run::SeqRun;
pub use runs::shape::Shape;
pub use runs::text_run::TextRun;
pub use runs::transition::Transition;
pub use sequences::element_verdict::{ElementVerdict, JudgedElement, ended_there};
pub use sequences::mark_alone::{is_mark_alone, judged_by_mark};
pub use sequences::open_end::ends_open_behind;
pub use sequences::part_elements::elements_of_part;
pub use sequences::separators::separated_part;
pub use texts::byte_order_mark::front;
pub use texts::settings::{Front, FrontMark, NameRule, Settings};
pub use texts::verdict::{Refusal, Verdict};
