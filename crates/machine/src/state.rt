//! A design with the values that its variables have.
use records::DesignFile;
use variables::Values;

/// A design, and a value for each variable.
#[derive(Clone, Copy)]
pub struct State<'a> {
    pub file: &'a DesignFile<'a>,
    pub held: &'a Values,
}
