//! What names mean: scopes, constants, the built-in functions, the numbers of states and state sets, options, and the sites that a
//! program is told as.
#![tactic(auto)]

mod builtins;
mod calls;
pub mod constants;
mod copy_variables;
pub mod formats;
mod numbered;
mod options;
mod purposes;
mod rows;
mod scopes;
mod sites;
mod sizes;
mod use_table;
mod uses;

pub use builtins::{Builtin, Query, builtin_of, form_of};
pub use calls::{CallKind, Form, Heading, has_async, is_fitting, is_place, is_word, word_at};
pub use constants::{Constant, constant_of, is_predefined, predefined};
pub use copy_variables::CopyVariable;
pub use formats::{conversions, unquoted};
pub use numbered::Numbered;
pub use options::{Options, is_program_letter, refused, sign_in_force};
pub use purposes::{call_site, change_site, format_site, is_good_decimal, is_step};
pub use rows::pushed;
pub use scopes::{Declared, Scope, Scopes, scope_with};
pub use sites::{Extent, Meaning, Part, Purpose, Room, Site, Size, Sort};
pub use sizes::size_of;
pub use snl_arithmetic::{ArithmeticFault, computed, computed_prefix};
pub use use_table::UseTable;
