ghost use Rattle.session_engine.specs.Driving.{SessionsGoOn};

use http_model::read_stays;

/// What composes a session call by call, between ends in memory: the states of its connection (specs/Driving.antt), and how
/// each call leads from one to another. It does nothing: its contract is the law.
pub fn sessions_go_on()
    ensures { SessionsGoOn }
{
    read_stays();
}
