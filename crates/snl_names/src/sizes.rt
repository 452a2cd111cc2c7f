//! The sizes of variables.

ghost use Rattle.std.specs.Prelude.{◌≡◌, map};
ghost use Rattle.snl_syntax.specs.view.Expressions.{boxed};
ghost use Rattle.snl_names.specs.Chains.{scopes_of};
ghost use Rattle.snl_names.specs.Scopes as spec;

use crate::constants::{Constant, constant_of};
use crate::scopes::Scopes;
use crate::sites::Size;
use snl_syntax::Expr;

/// What a constant says as the size of an array.
fn size_by(constant: Constant) -> Size
    ensures { result ≡ spec.size_by constant }
{
    match constant {
        Constant::Worth(number) => match usize::try_from(number) {
            Ok(0) | Err(_) => Size::Wrong,
            Ok(count) => {
                if count <= 1024 {
                    Size::Array(count as u32)
                } else {
                    Size::TooLong
                }
            }
        },
        _ => Size::Wrong,
    }
}

/// What the sizes after a declared name say.
pub fn size_of<'a>(sizes: &[Box<Expr<'a>>], scopes: &Scopes<'_, 'a>) -> Size
    ensures { result ≡ spec.size_of (spec.is_hidden (scopes_of scopes.now)) (map boxed sizes.now) }
{
    match sizes {
        [] => Size::Scalar,
        [size] => size_by(constant_of(size, scopes)),
        _ => Size::Wrong,
    }
}
