#![tactic(auto)]

// Selection, environment and job of a session replaced. A function for each: they are a line, over another field.
ghost use Rattle.std.specs.Prelude.{◌≡◌};
ghost use Rattle.rules.specs.Session.{with_selection, with_environment, with_job};

use rules::{Environment, Job, Selection, Session};

pub fn with_selection(s: Session, directory: u16, file: u16) -> Session
    ensures { result ≡ with_selection s directory file }
{
    let selection = Selection { directory, file };
    Session { selection, ..s }
}

pub fn with_environment(s: Session, number: u16, choices: [u16; 3]) -> Session
    ensures { result ≡ with_environment s number choices }
{
    let environment = Environment { number, choices };
    Session { environment, ..s }
}

pub fn with_job(s: Session, job: Job) -> Session
    ensures { result ≡ with_job s job }
{
    Session { job, ..s }
}
