//! Which entries leave a journal fair. The bodies do nothing.
ghost use Rattle.hp_board.specs.FairLaws.{KeepsAreFair, PostsAreFair, RepairsAreFair, RollbacksAreFair};

/// Posts, and the judgements of the front chunk.
pub(crate) fn stays_fair()
    ensures posts { PostsAreFair }
    ensures keeps { KeepsAreFair }
    ensures repairs { RepairsAreFair }
    ensures rollbacks { RollbacksAreFair }
{
    hp_predict::laws::last_bytes_tell();
    hp_asked::answers_are_right();
    hp_asked::readings_alike();
    hp_pieces::pages_at();
    hp_pieces::states_wait();
    hp_pieces::firsts();
}
