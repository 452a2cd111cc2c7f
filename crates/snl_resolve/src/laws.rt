//! Laws of the definitions that the sites speak of, and examples. Each function is its contract.

ghost use Rattle.snl_resolve.specs.Laws.{BindingIsOne, DeclaredIsMeant, PlaceIsMeant};
ghost use Rattle.snl_resolve.specs.Examples.{AsyncExamples, ConstantExamples, ScopeExamples, SiteExamples};
ghost use Rattle.snl_resolve.specs.FunctionExamples.{CallExamples, FunctionExamples, SharedExamples};

/// What a name means by the relation is what it is bound to.
pub fn binding_is_one()
    ensures { BindingIsOne }
{}

/// The declaration whose place a site gives is the one that the name means.
pub fn place_is_meant()
    ensures { PlaceIsMeant }
{}

/// What a program's sites say of an offset is what the first name there means.
pub fn declared_is_meant()
    ensures { DeclaredIsMeant }
{}

/// Constant expressions, and some that are none.
pub fn examples_of_constants()
    ensures { ConstantExamples }
{}

/// What scopes declare, and what names mean in them.
pub fn examples_of_scopes()
    ensures { ScopeExamples }
{}

/// The sites of small expressions and statements.
pub fn examples_of_sites()
    ensures { SiteExamples }
{}

/// The sites of calls with the word `ASYNC`.
pub fn examples_of_async()
    ensures { AsyncExamples }
{}

/// The sites of functions, of their parameters and of `return`.
pub fn examples_of_functions()
    ensures { FunctionExamples }
{}

/// The sites of calls of functions.
pub fn examples_of_calls()
    ensures { CallExamples }
{}

/// The variables of functions.
pub fn examples_of_shared_variables()
    ensures { SharedExamples }
{}
