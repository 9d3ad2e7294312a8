// What a device holds between calls, and the rules by which a call is refused (scope paper, sections Reception and Numbered refusals of calls).
#![tactic(auto)]

mod refusing;

ghost use Rattle.std.specs.Prelude.{◌≡◌, []};
ghost use Rattle.state.specs.State.{line_in, held_as, with_line, with_held, can_resend};

use execution::{Response, Tables};
use reception::{Line, Reception};
pub use refusing::sizes_good;

// The held response, and how often its packet was sent again. With nothing held every field is 0, and no
// Option says so, since any may be handed in, and refusal 3 judges it.
#[derive(Clone, Copy, Debug, PartialEq, Eq)]
pub struct Held {
    pub response: Response,
    pub times: u8,
}

// The device. The live and the loading store are lent to each call, as two slices: of slices that a struct lends on, each promise would have to say
// that they are still the same. Where the line is stands in three fields, as in the image that C keeps; `line` and `set_line` go between.
#[derive(Clone, Copy, Debug, PartialEq, Eq)]
pub struct Device {
    pub reception: Reception,
    pub spoiled: bool,
    pub count: usize,
    pub store: [u8; 2048],
    pub held: Held,
    pub tables: Tables,
}

impl Held {
    // What the field holds with nothing held.
    pub fn nothing() -> Held
        ensures { result ≡ held_as [] 0 }
    {
        Held {
            response: Response {
                payload: [0; 19],
                length: 0,
            },
            times: 0,
        }
    }

    // Whether there is a response to send again.
    pub fn can_resend(&self) -> bool
        ensures { result ≡ can_resend self.now }
    {
        (1 <= self.response.length) & (self.times < 3)
    }
}

impl Device {
    // Where the line is.
    pub fn line(&self) -> Line
        ensures { result ≡ line_in self.now }
    {
        Line {
            state: self.reception,
            spoiled: self.spoiled,
            count: self.count,
        }
    }

    // The line is somewhere else; all else stays.
    pub fn set_line(&mut self, line: Line)
        ensures { self.new ≡ with_line self.old line self.old.store }
    {
        self.reception = line.state;
        self.spoiled = line.spoiled;
        self.count = line.count;
    }

    // Another response is held; all else stays.
    pub fn set_held(&mut self, held: Held)
        ensures { self.new ≡ with_held self.old held }
    {
        self.held = held;
    }
}
