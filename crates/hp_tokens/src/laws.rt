//! The laws of runs of moves.

ghost use Rattle.hp_tokens.specs.Runs.{AnyPiecesAnyRules};

/// However a text is cut into pieces, the tokens, their places and the final state are the same: for all rules whose moves
/// stay made when more text follows. It does nothing; its contract is the law.
pub fn any_pieces()
    ensures { AnyPiecesAnyRules }
{}
