// Cells are read as the texts that they were written for.
ghost use Rattle.std.specs.Prelude.{◌≡◌, ◌≢◌, ◌∷◌, ℕ, List, [], All, Some};
ghost use Rattle.jx_line_values.specs.declared.row_form.RowForm.TheVariants.{Csv, Tsv};
ghost use Rattle.jx_line_values.specs.Cells.{text_cell};
ghost use Rattle.jx_line_values.specs.Fields.{read_cell, IsField, IsOfCell, IsTextData};

/// Between tabs a cell is read as its text, no cell has a tab or a line end, and none is `\N`.
pub fn cells_between_tabs()
    ensures text { (none text : List ℕ) → read_cell (text_cell Tsv none text) ≡ Some text }
    ensures whole { (none text : List ℕ) → All IsOfCell (text_cell Tsv none text) }
    ensures null { (none text : List ℕ) → text_cell Tsv none text ≢ 0x5c ∷ 0x4e ∷ [] }
{}

/// Between commas a cell is a field with its text (RFC 4180, section 2), and none is what stands for no value.
pub fn cells_between_commas()
    ensures field { (none text : List ℕ) → IsField (text_cell Csv none text) text }
    ensures null { (none text : List ℕ) → All IsTextData none → text_cell Csv none text ≢ none }
{}
