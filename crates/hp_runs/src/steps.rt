//! What is true of the moves of the lexer's table.

ghost use Rattle.hp_runs.specs.Closing.{TagsRest};
ghost use Rattle.hp_runs.specs.Filled.{AnswerFills, LeadsFilled, MovesFilled, ToldStays, UntoldAsks};
ghost use Rattle.hp_runs.specs.Laws.{CharactersQuiet, EndMovesSame, MovesSame};

/// Places are only counted: lexers that have the same machine and the same unread text make the same moves.
pub fn places_count()
    ensures moves { MovesSame }
    ensures ends { EndMovesSame }
{}

/// The last start tag's name is read only where it is asked: until then a lexer that isn't told it makes the moves of the one that is.
pub fn names_wait()
    ensures moves { MovesFilled }
    ensures leads { LeadsFilled }
    ensures asks { UntoldAsks }
    ensures told { ToldStays }
    ensures answer { AnswerFills }
{}

/// What is no character is emitted by a move that ends at a rest, where a switch that it calls for takes effect. Characters switch
/// the lexer nowhere.
pub fn tokens_step()
    ensures rest { TagsRest }
    ensures characters { CharactersQuiet }
{}
