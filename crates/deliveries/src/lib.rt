#![tactic(auto)]

// The delivery of a job's result, as a function of values: the next session and the answer.
ghost use Rattle.std.specs.Prelude.{◌≡◌};
ghost use Rattle.rules.specs.Delivery.{deliver};
ghost use Rattle.steps.specs.Steps.{session_output_for};

use rules::{Job, Session};
use steps::SessionOutput;

// A delivered result ends the job.
pub fn deliver(s: Session, res: &[u8]) -> SessionOutput
    ensures { result ≡ session_output_for (deliver s res.now) }
{
    // No job, as the rules' `no_job`; it stands out in each of the three literals that have it.
    let none = Job {
        kind: 0,
        key: 0,
        le: 0,
    };
    let ended = state::with_job(s, none);
    let le = s.job.le;
    if res.len() != 256 {
        return steps::session_status(ended, 0x6400);
    }
    if s.job.kind != 3 {
        return steps::give(ended, le, res);
    }
    match pkcs1::shoalpennant_strip(res) {
        0 => steps::session_status(ended, 0x6A80),
        256 => steps::session_status(ended, 0x9000),
        start => steps::give(ended, le, octets::part(res, start, 256)),
    }
}
