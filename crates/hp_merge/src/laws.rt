//! The laws of fronts, for which the bodies do nothing but cite those below.
ghost use Rattle.hp_merge.specs.Laws.{GoesOn, StandsBehind};

/// Where the front is that at a place of a page, it is with a fragment of what follows joined to it that at the place up to which the
/// fragment covers. There a code point begins, or the page ends.
pub fn fronts_go_on()
    ensures on { GoesOn }
    ensures behind { StandsBehind }
{
    hp_pieces::pages_at();
    hp_pieces::states_wait();
    hp_growing::trees_are_counted();
    hp_growing::guesses_grow();
}
