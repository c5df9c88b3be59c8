#![tactic(auto)]

// The all-zero state, which is not good: what load gives beside a fault.
ghost use Rattle.std.specs.Prelude.{◌≡◌, replicate};
ghost use Rattle.rules.specs.Image.{zero_record, zero_card};

use rules::{Card, Chain, Environment, Held, Job, Profile, Record, Selection, Session};

// The personal records.
#[tactic(auto, unfolding(octets::specs::Octets::blank))]
pub fn records() -> [Record; 16]
    ensures { result ≡ replicate 16 zero_record }
{
    [Record {
        bytes: [0; 64],
        len: 0,
    }; 16]
}

#[tactic(auto, unfolding(rules::specs::Image::zero_card, octets::specs::Octets::blank))]
pub fn card() -> Card
    ensures { result ≡ zero_card }
{
    Card {
        codes: [card_codes::zero_code(); 3],
        counts: [0; 2],
        profile: Profile {
            keys: [false; 4],
            references: [0; 21],
            personal: records(),
        },
        session: Session {
            selection: Selection {
                directory: 0,
                file: 0,
            },
            environment: Environment {
                number: 0,
                choices: [0; 3],
            },
            held: Held {
                bytes: [0; 256],
                len: 0,
            },
            chain: Chain {
                bytes: [0; 258],
                len: 0,
            },
            job: Job {
                kind: 0,
                key: 0,
                le: 0,
            },
        },
    }
}
