// The three lots of one line of one account. Each move gives the lots back. There is a function for each move, since a field cannot
// be a parameter, and a lot by number or as an enum would need a match where now a field is named.
#![tactic(auto)]

ghost use Rattle.std.specs.Prelude.{◌≡◌, ◌+◌, ◌≤◌, ◌<◌, ◌^◌};
ghost use Rattle.lots.specs.Lots.{sell_of, hand_in_of, buy_of, get_of, take_in_of, pay_out_of, sellable, handable};

#[derive(Clone, Copy, Default, PartialEq, Eq)]
pub struct Lots {
    pub old: u64,
    pub bought: u64,
    pub got: u64,
}

impl Lots {
    // What may be sold: what was bought today may not.
    pub fn sellable(self) -> u64
        requires { sellable self < 2 ^ 64 }
        ensures { result ≡ sellable self }
    {
        self.got + self.old
    }

    // What may be handed in: what was got today may not.
    pub fn handable(self) -> u64
        requires { handable self < 2 ^ 64 }
        ensures { result ≡ handable self }
    {
        self.bought + self.old
    }

    // A sale takes the got lot first, then old.
    pub fn sell(self, q: u64) -> Lots
        requires { q ≤ sellable self }
        ensures { result ≡ sell_of self q }
    {
        Lots {
            old: self.old - q.saturating_sub(self.got),
            got: self.got.saturating_sub(q),
            ..self
        }
    }

    // Handing in takes the bought lot first, then old.
    pub fn hand_in(self, q: u64) -> Lots
        requires { q ≤ handable self }
        ensures { result ≡ hand_in_of self q }
    {
        Lots {
            old: self.old - q.saturating_sub(self.bought),
            bought: self.bought.saturating_sub(q),
            ..self
        }
    }

    // A purchase goes to bought.
    pub fn buy(self, q: u64) -> Lots
        requires { self.bought + q < 2 ^ 64 }
        ensures { result ≡ buy_of self q }
    {
        Lots {
            bought: self.bought + q,
            ..self
        }
    }

    // Units created and stock redeemed go to got.
    pub fn get(self, q: u64) -> Lots
        requires { self.got + q < 2 ^ 64 }
        ensures { result ≡ get_of self q }
    {
        Lots {
            got: self.got + q,
            ..self
        }
    }

    // The fund takes in by its old lot.
    pub fn take_in(self, q: u64) -> Lots
        requires { self.old + q < 2 ^ 64 }
        ensures { result ≡ take_in_of self q }
    {
        Lots {
            old: self.old + q,
            ..self
        }
    }

    // The fund pays out by its old lot.
    pub fn pay_out(self, q: u64) -> Lots
        requires { q ≤ self.old }
        ensures { result ≡ pay_out_of self q }
    {
        Lots {
            old: self.old - q,
            ..self
        }
    }
}
