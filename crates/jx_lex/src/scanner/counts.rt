// Tokens that are given as counts.

/// How many tokens of each kind stand in some bytes, and what is known of their order. Colons are not counted.
#[derive(Clone, Copy, Debug, PartialEq, Eq)]
pub struct TokenCounts {
    pub commas: u32,
    pub strings: u32,
    /// Numbers and literals.
    pub scalars: u32,
    /// Brackets that open an array or an object.
    pub opening: u32,
    /// Brackets that close one.
    pub closing: u32,
    /// How many of all these brackets open or close an object.
    pub braces: u32,
    /// How many containers they close at most, at any place, beyond those that they opened before it.
    pub lowest: u32,
    /// How many of the commas stand where so many are closed and none is open that they opened.
    pub lowest_commas: u32,
    /// How many values begin there: strings, numbers, literals, and brackets that open a container.
    pub lowest_values: u32,
}
