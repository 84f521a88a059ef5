//! Laws of the whole table: any pieces of a text, and the end of a run.
ghost use Rattle.std.specs.Prelude.{List};
ghost use Rattle.hp_names.specs.References.{Reference};
ghost use Rattle.hp_tokens.specs.Runs.{IsSteady, AnyPieces};
ghost use Rattle.hp_lexer.specs.Table.{table};
ghost use Rattle.hp_lexer.specs.Standing.{StepsFall, SilentFall, SwitchesFall};
ghost use Rattle.hp_lexer.specs.Places.{StepsPlaced, StartsPlaced, SwitchesPlaced, TellsPlaced, CallsRun};

/// A move that is made stays made when more text follows; and so, however a text is cut into pieces, the lexer gives the same
/// tokens, the places where they began and the last state, over any table of reference names. It does nothing; its contract is
/// the law.
pub fn any_pieces()
    ensures steady { (names : List Reference) → IsSteady (table names) }
    ensures pieces { (names : List Reference) → AnyPieces (table names) }
{
    hp_tokens::any_pieces();
}

/// A run over a text ends: with each step of the lexer its load falls, whatever is answered to a question and wherever the lexer is
/// switched; and moves that emit nothing make it no larger. It does nothing; its contract is the law.
pub fn steps_fall()
    ensures steps { StepsFall }
    ensures silent { SilentFall }
    ensures switches { SwitchesFall }
{}

/// What `next` says of places, which it counts from the start of each piece, is what the run over the whole text says: at each step
/// the lexer in the piece and the one over the whole text make the same moves, the tokens are the same, and `began` is the place of
/// the whole text less the piece's start, 0 where that was before the piece. So, however a text is cut into pieces, the calls on them answer the
/// tokens of the run over the whole text, with their places. It does nothing; its contract is the law.
pub fn places()
    ensures steps { StepsPlaced }
    ensures starts { StartsPlaced }
    ensures switches { SwitchesPlaced }
    ensures tells { TellsPlaced }
    ensures calls { CallsRun }
{}
