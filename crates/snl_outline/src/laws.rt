//! Examples of outlines as text. Each function is its contract.

ghost use Rattle.snl_outline.specs.Examples.{OutlineExamples};

/// Of a program with two state sets, in both forms.
pub fn examples_of_outlines()
    ensures { OutlineExamples }
{}
