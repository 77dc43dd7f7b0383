/// What a primary record of the types table is.
#[derive(Clone, Copy, Debug, PartialEq, Eq)]
pub enum Flavour {
    /// A type that is no attribute.
    Plain,
    /// An attribute, which stands for the types that have it.
    Attribute,
}
