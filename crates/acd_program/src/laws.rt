//! Laws of the definitions. Each law is the contract of a function, whose body names only the laws that it depends on.

ghost use Rattle.acd_program.specs.Archives.EachOnce.{TablesTellOnce};

/// A table of contents is the export of the events that they have. Where these are a chain it has each event once, and
/// none is missing.
pub fn tables_tell_once()
    ensures { TablesTellOnce }
{}
