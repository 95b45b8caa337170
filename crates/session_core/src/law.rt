//! What the emitted files of a session are.
ghost use Rattle.session_core.specs.Calls.{SessionsHold};

/// Over any list of calls on a new session with their answers, each emitted file is the one that is built for the traces that are live
/// then. The call does nothing: its contract is the law.
pub fn sessions_hold()
    ensures { SessionsHold }
{}
