// The positions of editors.
use jx_edit::{Document, Encoding, Position};
use jx_lex::Depth;
use test_words::{Line, LineFault, number_of};

/// The encoding of this name, as the protocol writes it.
fn next_encoding(line: &mut Line<'_>) -> Encoding {
    match line.word() {
        "utf-8" => Encoding::Utf8,
        "utf-16" => Encoding::Utf16,
        _ => {
            line.refuse();
            Encoding::Utf8
        }
    }
}

/// The position in a word, `LINE:CHARACTER`.
fn position_of(word: &str) -> Result<Position, LineFault> {
    let (line, character) = word.split_once(":").ok_or(LineFault::NoSuchCall)?;
    Ok(Position {
        line: number_of(line)?,
        character: number_of(character)?,
    })
}

fn next_position(line: &mut Line<'_>) -> Position {
    let read = position_of(line.word());
    let start = Position {
        line: 0,
        character: 0,
    };
    line.read_or(read, start)
}

/// The document of settings and a text, with counts by an encoding, if any.
fn next_document(line: &mut Line<'_>, counted: Option<Encoding>) -> Option<Document> {
    let settings = line.settings(Depth::default());
    let text = line.text();
    let made = match counted {
        None => Document::of(line.alloc, &text, settings),
        Some(encoding) => Document::counted(line.alloc, &text, settings, encoding),
    };
    match made {
        Ok(document) => Some(document),
        Err(_) => {
            line.refuse();
            None
        }
    }
}

/// `positions ENCODING SETTINGS TEXT`: the position of each offset up to the end, by no counts.
pub(crate) fn positions(line: &mut Line<'_>) {
    let encoding = next_encoding(line);
    if let Some(document) = next_document(line, None) {
        push_positions(line, &document, encoding);
    }
}

fn push_positions(line: &mut Line<'_>, document: &Document, encoding: Encoding) {
    for offset in 0..=document.len() {
        if offset > 0 {
            line.out.push_str(" ");
        }
        let Position {
            line: at,
            character,
        } = document.position_of(offset, encoding);
        line.out.put(format_args!("{at}:{character}"));
    }
}

/// `offsets ENCODING SETTINGS TEXT POSITION..`: the offset of each position, by counts.
pub(crate) fn offsets(line: &mut Line<'_>) {
    let encoding = next_encoding(line);
    if let Some(document) = next_document(line, Some(encoding)) {
        push_offsets(line, &document, encoding);
    }
}

fn push_offsets(line: &mut Line<'_>, document: &Document, encoding: Encoding) {
    for _ in 0..line.count() {
        let offset = document.offset_of(next_position(line), encoding);
        if !line.out.is_empty() {
            line.out.push_str(" ");
        }
        line.out.put(offset);
    }
}
