// A session, which has ended or goes on.
ghost use Rattle.std.specs.Prelude.{◌<◌};
ghost use Rattle.auth_server.specs.Answers.{most_wrong};

use auth_server::Session;

/// A session that goes on.
#[derive(Drop)]
pub struct Live {
    pub(crate) session: Session,
    ghost goes_on: { session.wrong < most_wrong },
}

/// A session.
#[derive(Drop)]
pub enum Client {
    Goes(Live),
    Ended,
}
