/// How often an atom is taken.
///
/// Source: CMake manual, string(REGEX), Regex Specification.
#[derive(Clone, Copy, Debug)]
pub enum Quantifier {
    /// `?`: none or one.
    ZeroOrOne,
    /// `*`: none or more.
    ZeroOrMore,
    /// `+`: one or more.
    OneOrMore,
}

/// The bytes from `low` to `high`, both included.
#[derive(Clone, Copy, Debug)]
pub struct Span {
    pub low: u8,
    pub high: u8,
}

/// Which bytes an atom of one byte takes.
///
/// Source: CMake manual, string(REGEX), Regex Specification.
#[derive(Debug, Drop)]
pub enum ByteTest {
    /// `.`: any byte.
    Any,
    /// That byte alone.
    Same(u8),
    /// `[..]`: a byte of one of the spans.
    Inside(Vec<Span>),
    /// `[^..]`: a byte of none of them.
    Outside(Vec<Span>),
}

/// A pattern as a tree. A group is a choice of sequences.
#[derive(Debug, Drop)]
pub enum Node {
    /// `^`: the beginning of the text.
    Start,
    /// `$`: the end of the text.
    End,
    /// One byte.
    One(ByteTest),
    /// Parts, one behind the other.
    Sequence(Vec<Node>),
    /// One of several branches.
    Choice(Vec<Node>),
    Repeat(Quantifier, Box<Node>),
}
