// What threads share and send each other. Both functions do nothing: the proofs that threads may share or send what
// holds a type start from them.
ghost use Rattle.std.specs.Thread.{IsSync, IsSend};

/// Threads may share values of this type.
pub fn shared<T: Sync>()
    ensures { IsSync T.row }
{}

/// Threads may send each other values of this type.
pub fn sent<T: Send>()
    ensures { IsSend T.row }
{}
