//! Laws of the grammar. Each is a function without code, whose contract is the law.

ghost use Rattle.std.specs.Prelude.{◌≡◌, ◌<◌, ℕ, List};
ghost use Rattle.snl_text.specs.declared.tokens.Token.{Token};
ghost use Rattle.snl_syntax.specs.Begins.{Spells};
ghost use Rattle.snl_syntax.specs.Programs.{ProgramTree, IsProgram, programs};
ghost use Rattle.snl_tree.specs.Answers.{HasProgram, HasOneAnswer};

/// No two programs have one spelling.
pub fn programs_differ_in_spelling()
    ensures { (n : ℕ) (ts : List Token) (a b : ProgramTree) → IsProgram n a → IsProgram n b
        → Spells programs a ts → Spells programs b ts → a ≡ b }
{}

/// Whatever the limit on nesting, if it leaves room for a block, tokens are a program, or one of them is
/// the first with which none goes on, or the first that is nested too deep.
pub fn tokens_have_a_program_or_a_fault()
    ensures { (limit : ℕ) (ts : List Token) → 0 < limit → HasProgram limit ts }
{}

/// Tokens have at most one of these three answers, and one number of a token.
pub fn tokens_have_one_answer()
    ensures { (limit : ℕ) (ts : List Token) → HasOneAnswer limit ts }
{}
