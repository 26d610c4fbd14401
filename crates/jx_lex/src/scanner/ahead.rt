// Parts of a text that are tested for well-formed UTF-8 before they are read.
ghost use Rattle.std.specs.Prelude.{◌≡◌, ◌≤◌, ◌&&◌, length, nat_le, nat_lt, ℕ, List};
ghost use Rattle.jx_lex.specs.Ahead.{IsSound};

// How many bytes are read one character after another before a part is tested.
pub(crate) const LEAST: usize = 32;

// The length of the longest part that is tested at once, but for up to three bytes.
const MOST: usize = 4096;

/// A part of a text that is well-formed UTF-8 (RFC 3629, section 4): a reader of strings need not look at its
/// characters one by one.
///
/// It is carried along from token to token, so that each field fills a word: a smaller one would be copied with the bytes
/// beside it, through memory.
#[derive(Clone, Copy)]
pub struct Ahead {
    pub(crate) from: usize,
    pub(crate) to: usize,
    /// The end of the tested bytes. Where they are not well-formed, the part is empty.
    tested: usize,
    /// How many bytes were read one character after another, or the length of this part. The next part is four times as
    /// long, so that a short string does not pay for a long part.
    pub(crate) next: usize,
}

impl Ahead {
    /// The value with no tested part yet.
    #[inline(always)]
    pub fn nothing() -> Ahead
        ensures sound { (text : List ℕ) → IsSound text result }
    {
        Ahead {
            from: 0,
            to: 0,
            tested: 0,
            next: 0,
        }
    }

    /// No tested part yet, in bytes that begin inside a string. The bytes before them are not known. They are mostly
    /// inside a long string, so the first part is as long as one may be.
    #[inline(always)]
    pub(crate) fn inside_string() -> Ahead
        ensures sound { (text : List ℕ) → IsSound text result }
    {
        Ahead {
            from: 0,
            to: 0,
            tested: 0,
            next: MOST,
        }
    }

    /// The part after so many bytes that were read one character after another.
    #[inline(always)]
    pub(crate) fn past(self, length: usize) -> Ahead
        ensures sound { (text : List ℕ) → IsSound text self → IsSound text result }
    {
        Ahead {
            next: self.next.saturating_add(length),
            ..self
        }
    }

    /// The tested part that begins with this byte.
    #[inline(never)]
    pub(crate) fn after(self, text: &[u8], from: usize, to: usize) -> Ahead
        requires { (from ≤ to) × (to ≤ length text.now) }
        ensures sound { IsSound text.now result }
    {
        let long = if self.next < MOST / 4 {
            self.next * 4
        } else {
            MOST
        };
        let block = end_of_block(from);
        let most = if long == MOST && from <= block && block <= to {
            block
        } else if to - from < long {
            to
        } else {
            from + long
        };
        let end = whole_end(text, from, most);
        if simdutf8::is_utf8(&text[from..end]) {
            return Ahead {
                from,
                to: end,
                tested: end,
                next: long,
            };
        }
        Ahead {
            from,
            to: from,
            tested: end,
            next: long,
        }
    }

    /// Whether the byte at this offset was tested, and nothing past `to`.
    #[inline(always)]
    fn was_tested(self, at: usize, to: usize) -> bool {
        self.from <= at && at < self.tested && self.tested <= to
    }

    /// This part, or a new one that begins at this offset, where the bytes from there on are not tested yet and testing
    /// them pays.
    #[inline(always)]
    pub(crate) fn at(self, text: &[u8], at: usize, to: usize) -> Ahead
        requires bounds { (at ≤ to) × (to ≤ length text.now) }
        requires sound { IsSound text.now self }
        ensures sound { IsSound text.now result }
    {
        if self.next >= LEAST && !self.was_tested(at, to) {
            self.after(text, at, to)
        } else {
            self
        }
    }

    /// Whether the part has the byte at this offset, and ends no later than there.
    #[inline(always)]
    pub(crate) fn covers(self, at: usize, to: usize) -> bool
        ensures { result ≡ (nat_le self.from at && nat_lt at self.to && nat_le self.to to) }
    {
        self.from <= at && at < self.to && self.to <= to
    }
}

/// The end of the block of `MOST` bytes that has the byte three places after this one. A part that ended inside a
/// character leaves up to three bytes of the block before. Whole blocks are tested faster than bytes across two blocks.
#[inline(always)]
fn end_of_block(from: usize) -> usize {
    (from.saturating_add(3) / MOST)
        .saturating_add(1)
        .saturating_mul(MOST)
}

/// The end of the characters that are whole before `to`, if these bytes are UTF-8.
#[inline(always)]
fn whole_end(text: &[u8], from: usize, to: usize) -> usize
    requires { (from ≤ to) × (to ≤ length text.now) }
    ensures { (from ≤ result) × (result ≤ to) }
{
    let length = to - from;
    if length >= 1 && text[to - 1] >= 0xc0 {
        to - 1
    } else if length >= 2 && text[to - 2] >= 0xe0 {
        to - 2
    } else if length >= 3 && text[to - 3] >= 0xf0 {
        to - 3
    } else {
        to
    }
}
