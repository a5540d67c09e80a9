//! What the arguments ask for.

/// A lattice of one kind.
#[derive(Clone, Copy)]
pub(crate) enum Single<'a> {
    Chain(u32),
    Sets(u32),
    /// The name of a file with a table as text.
    Table(&'a str),
}

/// A lattice.
#[derive(Clone, Copy)]
pub(crate) enum Shape<'a> {
    Single(Single<'a>),
    Pair(Single<'a>, Single<'a>),
    Reversed(Single<'a>),
}

impl<'a> Single<'a> {
    fn parse(kind: &str, value: &'a str) -> Option<Single<'a>> {
        match kind {
            "chain" => Some(Single::Chain(value.parse::<u32>().ok()?)),
            "sets" => Some(Single::Sets(value.parse::<u32>().ok()?)),
            "table" => Some(Single::Table(value)),
            _ => None,
        }
    }
}

impl<'a> Shape<'a> {
    /// The lattice that the words name, the chain of 2 where there are none.
    pub(crate) fn parse(words: &[&'a str]) -> Option<Shape<'a>> {
        match words {
            [] => Some(Shape::Single(Single::Chain(2))),
            [kind, value] => Some(Shape::Single(Single::parse(kind, value)?)),
            ["reversed", kind, value] => Some(Shape::Reversed(Single::parse(kind, value)?)),
            ["pair", kind, value, second_kind, second_value] => Some(Shape::Pair(
                Single::parse(kind, value)?,
                Single::parse(second_kind, second_value)?,
            )),
            _ => None,
        }
    }
}
