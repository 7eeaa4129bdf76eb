use dt_scratch::{Answer, Reply};

/// A number that each answer of the timed work goes into, so that no answer can be left out.
#[derive(Clone, Copy)]
pub struct Mix {
    number: u32,
}

impl Mix {
    /// The mix of no answer.
    pub fn new() -> Mix {
        Mix { number: 0 }
    }

    /// One more code goes in.
    pub fn add(&mut self, code: u32) {
        self.number = self.number.wrapping_mul(31).wrapping_add(code);
    }

    /// The number.
    pub fn number(self) -> u32 {
        self.number
    }
}

/// The code of a reply: 1 where it is ambiguous, the body's number and 2 for a method, else 0.
pub fn code_of(reply: Reply) -> u32 {
    match reply {
        Reply::NoSelector | Reply::WrongArity | Reply::NoClass { .. } => 0,
        Reply::Answered { answer } => match answer {
            Answer::Method { body } => u32::from(body.number()) + 2,
            Answer::Ambiguous => 1,
            Answer::NotUnderstood => 0,
        },
    }
}
