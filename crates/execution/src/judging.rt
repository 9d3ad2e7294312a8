// The rules by which tables and responses that are handed in are judged, on their present contents (scope paper, refusal 3).
ghost use Rattle.std.specs.Prelude.{◌≡◌};
ghost use Rattle.execution.specs.Responses.{one_of, six_bytes, gives_version, is_response};
ghost use Rattle.execution.specs.Stored.{stored_as, answered_sound, open_sound, closed_sound, sound_tables};

use crate::{OpenLoad, Tables};
use command::all_text;
use records::{check_store, rest_is_zero};

impl OpenLoad {
    // Whether a TLR was answered 000, if the load has records or is over.
    fn is_answered(&self) -> bool
        ensures { result ≡ answered_sound self.now }
    {
        self.any | (!self.kept.over & (self.kept.records == 0))
    }

    // Whether an open load and its store are sound.
    #[tactic(auto, unfolding(crate::specs::Stored::open_sound))]
    fn is_open_sound(&self, loading: &[u8]) -> bool
        ensures { result ≡ open_sound self.now loading.now }
    {
        (self.network < 100)
            & (all_text(&self.version)
                & (check_store(loading, self.kept.used, self.kept.records, self.network)
                    & self.is_answered()))
    }

    // Whether every field and every byte is 0 with no load open.
    #[tactic(auto, unfolding(crate::specs::Stored::closed_sound))]
    fn is_closed_sound(&self, loading: &[u8]) -> bool
        ensures { result ≡ closed_sound self.now loading.now }
    {
        (self.network == 0)
            & (rest_is_zero(&self.version, 0)
                & ((self.kept.used == 0)
                    & ((self.kept.records == 0)
                        & (!self.kept.over & (!self.any & rest_is_zero(loading, 0))))))
    }
}

impl Tables {
    // Whether the tables keep every rule, with both stores.
    #[tactic(auto, unfolding(crate::specs::Stored::sound_tables))]
    pub fn are_sound(&self, live: &[u8], loading: &[u8]) -> bool
        ensures { result ≡ sound_tables (stored_as self.now live.now loading.now) }
    {
        if !all_text(&self.versions) {
            return false;
        }
        if !check_store(live, self.live.used, self.live.records, 0) {
            return false;
        }
        if self.load.opened {
            self.load.is_open_sound(loading)
        } else {
            self.load.is_closed_sound(loading)
        }
    }
}

// The responses of six bytes: all but GTS000.
const SIX_BYTES: [[u8; 6]; 12] = [
    *b"OPN000", *b"GTS011", *b"TLI000", *b"TLI020", *b"TLI011", *b"TLR000", *b"TLR010", *b"TLR011",
    *b"TLE000", *b"TLE010", *b"TLE021", *b"ERR010",
];

// Whether `p` is one of the responses of six bytes.
fn is_six_bytes(p: &[u8]) -> bool
    ensures { result ≡ one_of p.now six_bytes }
{
    SIX_BYTES.iter().any(|response| response.as_slice() == p)
}

// Whether `p` gives a version.
#[tactic(auto, unfolding(crate::specs::Responses::gives_version))]
fn gives_version(p: &[u8]) -> bool
    ensures { result ≡ gives_version p.now }
{
    (p.len() == 19) && (command::starts_with(p, b"GTS000010") && all_text(&p[9..]))
}

// Whether `p` is a response that some command gets, ERR010 among them.
#[tactic(auto, unfolding(crate::specs::Responses::is_response))]
pub fn is_response(p: &[u8]) -> bool
    ensures { result ≡ is_response p.now }
{
    is_six_bytes(p) || gives_version(p)
}
