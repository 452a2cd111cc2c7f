//! Examples of the definitions. Each function is its contract.

ghost use Rattle.snl_channels.specs.Examples.{MacroExamples, LinkExample, TableExample};

/// Names of channels after macros.
pub fn examples_of_macros()
    ensures { MacroExamples }
{}

/// The links of a small program.
pub fn example_of_links()
    ensures { LinkExample }
{}

/// The tables of the same program.
pub fn example_of_tables()
    ensures { TableExample }
{}
