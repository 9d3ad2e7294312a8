// The refusals of a device call, in their order (scope paper, section Numbered refusals of calls).
ghost use Rattle.std.specs.Prelude.{◌≡◌};
ghost use Rattle.answer.specs.Refusals.{number_in};
ghost use Rattle.state.specs.State.{state_as};
ghost use Rattle.state.specs.Claims.{Arrays};
ghost use Rattle.state.specs.Sound.{both_sized, line_sound, held_sound, sound, refusal_of};

use crate::{Device, Held};
use answer::Refusal;
use execution::is_response;
use reception::Reception;
use records::rest_is_zero;

// Whether both stores have their size.
pub fn sizes_good(live: &[u8], loading: &[u8]) -> bool
    ensures { result ≡ both_sized live.now loading.now }
{
    (live.len() == 32768) & (loading.len() == 32768)
}

impl Held {
    // Whether the held response can be.
    #[tactic(auto, unfolding(crate::specs::Sound::held_sound))]
    fn is_sound(&self) -> bool
        ensures { result ≡ held_sound self.now }
    {
        let n = self.response.length;
        if 19 < n {
            return false;
        }
        if !rest_is_zero(&self.response.payload, n) {
            return false;
        }
        if n == 0 {
            return self.times == 0;
        }
        is_response(&self.response.payload[..n]) & (self.times <= 3)
    }
}

impl Device {
    // Whether the payload bytes placed so far can be.
    #[tactic(auto, unfolding(crate::specs::Sound::line_sound))]
    fn is_line_sound(&self) -> bool
        ensures { result ≡ line_sound self.now }
    {
        match self.reception {
            Reception::Idle => (self.count == 0) & !self.spoiled,
            _ => self.count <= 2048,
        }
    }

    // Whether the state keeps every rule.
    #[tactic(auto, unfolding(crate::specs::Sound::sound))]
    fn is_sound(&self, live: &[u8], loading: &[u8]) -> bool
        ensures { result ≡ sound (state_as self.now live.now loading.now) }
    {
        self.is_line_sound() && (self.held.is_sound() && self.tables.are_sound(live, loading))
    }

    // The sizes of a device's arrays, which its type gives to a proof where it is taken by value. Nothing runs here.
    fn sizes(self)
        ensures { Arrays self }
    {}

    // Refuses a call that has this room, by the state and the stores as they are.
    #[tactic(auto, unfolding(crate::specs::Sound::refusal_of, crate::specs::Sound::is_sized))]
    pub fn judge(&self, room: usize, live: &[u8], loading: &[u8]) -> Result<(), Refusal>
        ensures refusal { number_in result ≡ refusal_of room (state_as self.now live.now loading.now) }
        ensures arrays { Arrays self.now }
    {
        self.sizes();
        if room < 64 {
            return Err(Refusal::NoRoom);
        }
        if !sizes_good(live, loading) {
            return Err(Refusal::WrongSize);
        }
        if !self.is_sound(live, loading) {
            return Err(Refusal::Unsound);
        }
        Ok(())
    }
}
