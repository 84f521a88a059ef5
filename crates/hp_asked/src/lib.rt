//! What the run over a chunk's text asks of the state that stood before it, and which answers are right. Laws on contracts whose bodies
//! do nothing.
#![tactic(auto)]

ghost use Rattle.hp_asked.specs.Laws.{ReadingsAlike, RightAtStart, RightBefore, RightBeforeText, RightByTruth, RightName, RightSection, RightSilence, RightSingly, RightTokens, SectionLeads, SilenceLeads, TagLeads, TextLeads, TokensLead};

/// What a state answers itself is right for each text behind it; what is right for a text is right for its front; and it is so first of
/// where the text begins, and then from there on.
pub fn answers_are_right()
    ensures truth { RightByTruth }
    ensures before { RightBefore }
    ensures start { RightAtStart }
{}

/// Along the run right answers stay right: behind tokens that touch nothing older, behind moves that emit nothing, and behind what the
/// lexer asks. What is asked on the way is answered truly, up to and with a token that touches something older.
pub fn right_goes_on()
    ensures tokens { RightTokens }
    ensures silence { RightSilence }
    ensures section { RightSection }
    ensures name { RightName }
    ensures before_text { RightBeforeText }
{}

/// What the lexer's calls answer is of the run.
pub fn answers_lead()
    ensures tokens { TokensLead }
    ensures text { TextLeads }
    ensures tag { TagLeads }
    ensures silence { SilenceLeads }
    ensures section { SectionLeads }
{}

/// The text may be read in any way: what is right for all that the run asks of a valid state that fits, a move and a code point at a time,
/// is right for all that it asks in runs of characters as well; and the other way round, of any state.
pub fn readings_alike()
    ensures alike { ReadingsAlike }
    ensures singly { RightSingly }
{}
