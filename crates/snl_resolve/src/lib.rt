//! Name resolution: what each name, size, constant and call of a program means, as a list of sites.
#![tactic(auto)]

mod block_variables;
mod declarations;
mod definition_scopes;
mod definitions;
mod expressions;
mod function_variables;
mod functions;
mod initialisers;
pub mod laws;
mod parts;
mod programs;
mod scoping;
mod set_variables;
mod sights;
mod statements;
mod states;
mod tokens;
mod variables;

pub use definition_scopes::scope_of;
pub use function_variables::push_functions;
pub use initialisers::range_of;
pub use programs::sites_of;
pub use set_variables::{push_parts, variables_of};
pub use snl_names::{
    ArithmeticFault, Builtin, Constant, CopyVariable, Declared, Extent, Meaning, Numbered, Options,
    Part, Purpose, Query, Scope, Scopes, Site, Size, Sort, UseTable, builtin_of, computed,
    computed_prefix, constant_of, has_async, is_program_letter, predefined, sign_in_force,
};
pub use variables::push_definitions;
