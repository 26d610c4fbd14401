// Laws of streams of texts, each on a function that does nothing: for every list of bytes and every depth.
ghost use Rattle.std.specs.Prelude.{ℕ, List};
ghost use Rattle.jx_texts.specs.declared.judged_text.JudgedText.{JudgedText};
ghost use Rattle.jx_texts.specs.Reading.{HasTold, TextReaderValue};
ghost use Rattle.jx_texts.specs.Texts.{AreSettled};

use jx_run::reader_and_grammar;

/// A reader has answered the texts that have ended in the bytes that it has read, and a fault.
pub fn settled_texts_of_a_reader()
    ensures told { (limit at : ℕ) (bytes : List ℕ) (told : List JudgedText) (r : TextReaderValue) → HasTold limit at bytes told r → AreSettled limit at bytes told }
{
    reader_and_grammar();
}
