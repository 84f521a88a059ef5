//! The laws of predictors, for the crates above. Each contract is one of them; the bodies do nothing.
ghost use Rattle.hp_predict.specs.Kinds.{LastBytesTell};

/// What is said of a chunk depends on its text and on the last 4,096 bytes before it.
pub fn last_bytes_tell()
    ensures { LastBytesTell }
{}
