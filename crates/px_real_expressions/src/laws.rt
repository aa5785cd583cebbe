ghost use Rattle.std.specs.Prelude.{◌≡◌, ℕ, List};
ghost use Rattle.px_real_expressions.specs.Lexemes.{Lexeme};
ghost use Rattle.px_real_expressions.specs.ExpressionTree.{ExpressionTree};
ghost use Rattle.px_real_expressions.specs.Grammar.{IsExpression};

/// Tokens are one expression at most.
pub fn one_expression()
    ensures { (depth : ℕ) (ts : List Lexeme) (a b : ExpressionTree) → IsExpression depth ts a → IsExpression depth ts b → a ≡ b }
{}
