// Laws of look-ups and splits by a saved index, each on a function that does nothing.
ghost use Rattle.jx_file_query.specs.Members.{IsPassedInObject};
ghost use Rattle.jx_file_query.specs.Passing.{IsHeldOn, IsPassedInArray, IsPassedInside};
ghost use Rattle.jx_file_query.specs.PartLaws.{HaveEach};

use jx_index::index_behind_a_front;
use jx_lex::grammar_of_tokens;
use jx_run::{accepted_texts_stand_behind_fronts, unique_tree_by_settings};

/// A part of a text is skipped by the sum of its token starts where it stands in a value that no pointer wants, or
/// where its lowest token starts stand in a container on the way and none of its elements or members is wanted: what is
/// found after it is what would be, had it been read.
pub fn skipped_parts()
    ensures inside { IsPassedInside }
    ensures elements { IsPassedInArray }
    ensures members { IsPassedInObject }
    ensures held { IsHeldOn }
{}

/// The parts of a container have all of its children, in order, each once, and all bytes between its brackets but for the
/// commas between two parts. Each has a child.
pub fn children_of_parts()
    ensures each { HaveEach }
{
    accepted_texts_stand_behind_fronts();
    index_behind_a_front();
    unique_tree_by_settings();
    grammar_of_tokens();
}
