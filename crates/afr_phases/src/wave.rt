ghost use Rattle.std.specs.Prelude.{◌≡◌, ◌<◌};
ghost use Rattle.afr_phases.specs.Waves.{quiet, sent_to, taken, is_asked, is_over, confirmations};

use crate::flags::Flags;

/// Who was asked in the running phase and has not answered, and who has confirmed.
#[derive(Clone, Copy)]
pub struct Wave {
    pub asked: [bool; 5],
    pub confirmed: [bool; 5],
}

impl Wave {
    /// Nobody is asked.
    pub fn new() -> Wave
        ensures { result ≡ quiet }
    {
        Wave {
            asked: [false; 5],
            confirmed: [false; 5],
        }
    }

    /// A phase begins: these replicas are asked.
    pub fn of(asked: Flags) -> Wave
        ensures { result ≡ sent_to asked }
    {
        Wave {
            asked,
            confirmed: [false; 5],
        }
    }

    /// A replica answers, and confirms or does not.
    pub fn take(&mut self, k: u8, confirms: bool)
        requires { k < 5 }
        ensures { self.new ≡ taken self.old k confirms }
    {
        self.asked[k as usize] = false;
        if confirms {
            self.confirmed[k as usize] = true;
        }
    }

    /// Whether a request to the replica has no answer yet.
    pub fn is_asked(&self, k: u8) -> bool
        requires { k < 5 }
        ensures { result ≡ is_asked self.now k }
    {
        self.asked[k as usize]
    }

    /// Whether every request of the phase is answered.
    pub fn is_over(&self) -> bool
        ensures { result ≡ is_over self.now }
    {
        let [a, b, c, d, e] = self.asked;
        !(a || b || c || d || e)
    }

    /// How many replicas have confirmed.
    pub fn confirmations(&self) -> usize
        ensures { result ≡ confirmations self.now }
    {
        self.confirmed.iter().filter(|flag| **flag).count()
    }
}
