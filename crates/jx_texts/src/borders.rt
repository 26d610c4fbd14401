// Bytes in front of texts, and directly behind them.
ghost use Rattle.std.specs.Prelude.{◌≡◌, ◌≤◌, ◌<◌, length, slice_index, take, false, true};
ghost use Rattle.jx_lex.specs.Uneventful.{is_blank};
ghost use Rattle.jx_texts.specs.Reading.{closing, have_no_border};
ghost use Rattle.jx_texts.specs.Texts.{AreBlanks, is_border, opens};

/// A space, a tab, a line feed or a carriage return (RFC 8259, section 2).
pub(crate) fn is_blank(byte: u8) -> bool
    ensures { result ≡ is_blank byte }
{
    byte == b' ' || byte == b'\t' || byte == b'\n' || byte == b'\r'
}

/// Whether a byte begins an array, an object or a string.
pub(crate) fn opens(byte: u8) -> bool
    ensures { result ≡ opens byte }
{
    byte == b'[' || byte == b'{' || byte == b'"'
}

/// The byte that ends what this one begins.
pub(crate) fn closing(byte: u8) -> u8
    ensures { result ≡ closing byte }
{
    match byte {
        b'[' => b']',
        b'{' => b'}',
        _ => b'"',
    }
}

/// Whether a byte may stand directly behind a number or a literal.
fn is_border(byte: u8) -> bool
    ensures { result ≡ is_border byte }
{
    is_blank(byte) || opens(byte)
}

/// The number of bytes of white space in front.
pub(crate) fn blanks_in_front(slice: &[u8]) -> usize
    ensures within { result ≤ length slice.now }
    ensures blanks { AreBlanks (take result slice.now) }
    ensures other { result < length slice.now → is_blank (slice_index slice.now result) ≡ false }
{
    let mut count = 0;
    while count < slice.len() && is_blank(slice[count]) {
        count += 1;
    }
    count
}

/// The number of bytes in front of the first border.
pub(crate) fn border_at(slice: &[u8]) -> usize
    ensures within { result ≤ length slice.now }
    ensures none { have_no_border (take result slice.now) ≡ true }
    ensures border { result < length slice.now → is_border (slice_index slice.now result) ≡ true }
{
    let mut at = 0;
    while at < slice.len() && !is_border(slice[at]) {
        at += 1;
    }
    at
}
