// How bytes of the line come together to packets (scope paper, section Reception): one byte at a time, with no store. The payload bytes go where
// the caller keeps them; commands and replies are the caller's too.
#![tactic(auto)]

ghost use Rattle.std.specs.Prelude.{◌≡◌};
ghost use Rattle.reception.specs.Cases.{answer_of};
ghost use Rattle.reception.specs.Reception.{idle, started, spoiled_in, going_on, placed, from_idle, from_data, from13h, completed, taken};

// The five reception states.
#[derive(Clone, Copy, Debug, PartialEq, Eq)]
pub enum Reception {
    Idle,
    InData,
    After13h,
    FirstCheck,
    SecondCheck(u8),
}

// Where the reception is: its state, whether the packet is spoiled, and how many of its payload bytes have a place.
#[derive(Clone, Copy, Debug, PartialEq, Eq)]
pub struct Line {
    pub state: Reception,
    pub spoiled: bool,
    pub count: usize,
}

// What a byte was.
#[derive(Clone, Copy, Debug, PartialEq, Eq)]
pub enum Told {
    // Nothing that the caller has to keep.
    Nothing,
    // A payload byte: its place and the byte.
    Payload(usize, u8),
    // The second check byte: both check bytes. The packet is complete.
    Complete(u8, u8),
}

// The reception after a byte, and what the byte was.
#[derive(Clone, Copy, Debug, PartialEq, Eq)]
pub struct Took {
    pub line: Line,
    pub told: Told,
}

impl Line {
    // Between packets.
    pub fn idle() -> Line
        ensures { result ≡ idle }
    {
        Line {
            state: Reception::Idle,
            spoiled: false,
            count: 0,
        }
    }

    // Takes one byte.
    #[tactic(auto, unfolding(crate::specs::Reception::taken))]
    pub fn take(self, b: u8) -> Took
        ensures by_number { answer_of result ≡ answer_of (taken self b) }
        ensures whole { result ≡ taken self b }
    {
        match self.state {
            Reception::Idle => self.from_idle(b),
            Reception::InData => self.from_data(b),
            Reception::After13h => self.from_13h(b),
            Reception::FirstCheck => self.go_on(Reception::SecondCheck(b)),
            Reception::SecondCheck(first) => complete(first, b),
        }
    }

    // A byte between packets.
    #[tactic(auto, unfolding(crate::specs::Reception::from_idle))]
    fn from_idle(self, b: u8) -> Took
        ensures { result ≡ from_idle self b }
    {
        match b {
            0x16 => start(),
            _ => self.go_on(Reception::Idle),
        }
    }

    // A byte in the data, outside a pair.
    #[tactic(auto, unfolding(crate::specs::Reception::from_data))]
    fn from_data(self, b: u8) -> Took
        ensures { result ≡ from_data self b }
    {
        match b {
            0x16 => start(),
            0x17 => self.go_on(Reception::FirstCheck),
            0x13 => self.go_on(Reception::After13h),
            _ => self.place(b),
        }
    }

    // A byte after 13h.
    #[tactic(auto, unfolding(crate::specs::Reception::from13h))]
    fn from_13h(self, b: u8) -> Took
        ensures { result ≡ from13h self b }
    {
        match b {
            0x16 => start(),
            0x17 => self.spoil(Reception::FirstCheck),
            0x33 => self.place(0x13),
            0x36 => self.place(0x16),
            0x37 => self.place(0x17),
            _ => self.spoil(Reception::InData),
        }
    }

    // A payload byte: it goes to the next place, and where there is none left it spoils the packet.
    #[tactic(auto, unfolding(crate::specs::Reception::placed))]
    fn place(self, b: u8) -> Took
        ensures { result ≡ placed self b }
    {
        let at = self.count;
        if 2048 <= at {
            return self.spoil(Reception::InData);
        }
        Took {
            line: Line {
                state: Reception::InData,
                count: at + 1,
                ..self
            },
            told: Told::Payload(at, b),
        }
    }

    // The packet goes on in another state.
    fn go_on(self, state: Reception) -> Took
        ensures { result ≡ going_on self state }
    {
        Took {
            line: Line { state, ..self },
            told: Told::Nothing,
        }
    }

    // The packet is spoiled, and goes on in another state.
    fn spoil(self, state: Reception) -> Took
        ensures { result ≡ spoiled_in self state }
    {
        let spoiled = Line {
            spoiled: true,
            ..self
        };
        spoiled.go_on(state)
    }
}

// A packet starts, unspoiled and with no payload.
fn start() -> Took
    ensures { result ≡ started }
{
    Line::idle().go_on(Reception::InData)
}

// The packet is complete; the line is idle again.
fn complete(first: u8, second: u8) -> Took
    ensures { result ≡ completed first second }
{
    Took {
        line: Line::idle(),
        told: Told::Complete(first, second),
    }
}
