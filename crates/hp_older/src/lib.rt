//! What is handled and asked over an older state, whichever it is: a known one, an unknown one in which a chunk of a page begins, or one
//! before the page's first element. Laws on contracts whose bodies do nothing.
#![tactic(auto)]

ghost use Rattle.hp_older.specs.Laws.{AreValid, Begins, ForeignTold, KnownBegin, LastTagTold, OwnTrue, StayUnedited, TextsHandled, TextsTaken, TextsTakenBelow, TokensGoOn, TokensHandled, TokensTold, ViewsBegin};
ghost use Rattle.hp_older.specs.Tokens.{AllHandled};

/// Where a view begins: a chunk's state goes on from the older one, since it has no new elements; a view over any valid older state that
/// fits, told truly to be at rest, is over that state and is that state; and so is a view that is a whole state, over nothing.
pub fn view_begins()
    ensures state { Begins }
    ensures guessed { ViewsBegin }
    ensures known { KnownBegin }
{}

/// A view over an older state is a valid state there, and is over it whatever becomes of its edits.
pub fn views_over()
    ensures valid { AreValid }
    ensures edits { StayUnedited }
{}

/// Over any older state, for each token that may come: it is handled as the definition says and touches nothing older, and the view that
/// handled it is over that state again; or it crosses by what it touches. In a chunk what the handling reads of the older state is told
/// rightly, up to the first act that touches something older, and where nothing older is touched, what is left goes on from it.
pub fn tokens_over()
    ensures told { TokensTold }
    ensures goes_on { TokensGoOn }
    ensures handled { TokensHandled }
{}

/// The same of a text that goes into the current node as it comes, an own one or an older one that is told to be HTML: it is its code
/// points, one by one.
pub fn texts_over()
    ensures takes { TextsTaken }
    ensures below { TextsTakenBelow }
    ensures handled { TextsHandled }
{}

/// What the lexer is told over any older state: whether the current node is foreign, and the name of the last start tag before. And
/// the answers that a state gives are true of it.
pub fn answers_over()
    ensures foreign { ForeignTold }
    ensures last_tag { LastTagTold }
    ensures own { OwnTrue }
{}

/// Tokens one after the other: they are handled as the definition says and nothing older is touched, or they cross by what is touched.
pub fn tokens_in_order()
    ensures { AllHandled }
{}
