// One cabinet with a daily pool of visits, and the 1 to 16 desks that use it.
#![tactic(auto)]

ghost use Rattle.std.specs.Prelude.{◌≡◌, ◌≤◌, ◌↔◌, IsTrue, IsSome, IfSome, All, length, sum_by};
ghost use Rattle.cabinet.specs.Cabinet.{nobody, desk, total, but, larger, IsWithinCap, rested, ceiling_of, charged};
ghost use Rattle.cabinet.specs.Promises.{At, IsAt, Validates, SetsUp, Ceils, Rests, Made};

use std::array;
use std::marker::Model;
use work::{Counters, wide};

// The most desks of a group.
pub const DESKS: usize = 16;

// What a desk is sure of, what it may use at most, and what it has used today.
#[derive(Clone, Copy, Default)]
pub struct Desk {
    pub share: u32,
    pub cap: u32,
    pub used: u32,
}

impl Desk {
    // What the other desks leave to this one: the larger of its use and its share.
    fn kept(&self) -> u32
        ensures { result ≡ larger self.now }
    {
        self.used.max(self.share)
    }
}

// Whether no desk's share and no desk's use passes its cap.
fn are_within_caps(desks: &[Desk]) -> bool
    ensures { IsTrue result ↔ All IsWithinCap desks.now }
{
    desks.iter().all(|d| d.share <= d.cap && d.used <= d.cap)
}

// What these desks keep together, in more than 32 bits.
fn held(desks: &[Desk]) -> u64
    requires { length desks.now ≤ 16 }
    ensures { result ≡ sum_by larger desks.now }
{
    desks.iter().map(|d| u64::from(d.kept())).sum()
}

// The first `count` places are the desks. An array and a count: there is no heap, and C hands in any count.
#[derive(Clone, Copy)]
pub struct Group {
    pub count: u32,
    pub pool: u32,
    pub desks: [Desk; DESKS],
}

impl Group {
    // What a set-up that is turned down comes back with.
    pub fn no_desks() -> Self
        ensures { result ≡ nobody }
    {
        Group {
            count: 0,
            pool: 0,
            desks: [Desk::default(); DESKS],
        }
    }

    // The desks of these shares and caps, unused.
    fn made(pool: u32, shares: &[u32], caps: &[u32]) -> Self
        requires { length shares.now ≤ 16 }
        ensures { Made pool shares.now caps.now result }
    {
        Group {
            // At most 16, so it fits: `try_from` would say that it may not.
            count: shares.len() as u32,
            pool,
            desks: array::from_fn(|i| Desk {
                share: shares.get(i).copied().unwrap_or(0),
                cap: caps.get(i).copied().unwrap_or(0),
                used: 0,
            }),
        }
    }

    // A desk for each share and cap, which C hands in as two arrays; or refusal 17, and no desks. Here and in `new_day`
    // the caller goes on with a group either way, so Err has one too.
    pub fn set_up(pool: u32, shares: &[u32], caps: &[u32]) -> Result<Self, Self>
        ensures { SetsUp pool shares.now caps.now result }
    {
        if shares.len() != caps.len() || shares.len() > DESKS {
            return Err(Self::no_desks());
        }
        let group = Self::made(pool, shares, caps);
        if group.is_valid() {
            Ok(group)
        } else {
            Err(Self::no_desks())
        }
    }

    // Whether the group obeys the rules.
    pub fn is_valid(&self) -> bool
        ensures { Validates self.now result }
    {
        match self.desks.get(..wide(self.count)) {
            None | Some([]) => false,
            Some(desks) => are_within_caps(desks) && held(desks) <= u64::from(self.pool),
        }
    }

    // Whether the group obeys the rules and has such a desk.
    pub fn is_at(&self, desk: usize) -> bool
        ensures { IsAt self.now desk result }
    {
        self.is_valid() && desk < wide(self.count)
    }

    // The desk of this number, if the group obeys the rules and has it.
    pub fn seat(self, desk: usize) -> Option<Seat>
        ensures at { IsSome result ↔ At self desk }
        ensures seat { IfSome result (λ s. s ≡ record { group = self; desk = desk }) }
    {
        if self.is_at(desk) {
            Some(Seat { group: self, desk })
        } else {
            None
        }
    }

    // The visits that a desk may make now; or 17.
    pub fn ceiling(self, desk: usize) -> Option<u32>
        ensures { Ceils self desk result }
    {
        Some(self.seat(desk)?.may_use())
    }

    // The group with each use 0 again.
    fn rested(self) -> Self
        ensures { result ≡ rested self }
    {
        Group {
            desks: self.desks.map(|d| Desk { used: 0, ..d }),
            ..self
        }
    }

    // The day's end: the uses are forgotten; or refusal 17, and the group stays.
    pub fn new_day(self) -> Result<Self, Self>
        ensures { Rests self result }
    {
        if self.is_valid() {
            Ok(self.rested())
        } else {
            Err(self)
        }
    }
}

// A desk of a group that obeys the rules.
#[derive(Clone, Copy)]
pub struct Seat {
    group: Group,
    desk: usize,
}

impl Model for Seat {
    ghost use Rattle.cabinet.specs.Promises.{DeskOf, At};

    ghost Value = { DeskOf };

    ghost view = { λ s. record { group = s.group; desk = s.desk } };

    ghost invariant = { λ s. At s.group s.desk };

    ghost inverse = { λ d. record { group = d.group; desk = d.desk } };
}

impl Seat {
    // The group, which obeys the rules and has the desk.
    pub fn group(self) -> Group
        ensures at { At self.group self.desk }
        ensures group { result ≡ self.group }
    {
        self.group
    }

    // Its number in the group. That the group has it, the first clause of `group` says.
    pub fn desk(self) -> usize
        ensures { result ≡ self.desk }
    {
        self.desk
    }

    // What every other desk keeps.
    fn others(&self) -> u64
        ensures { result ≡ total (but self.now.desk (λ i. larger (desk self.now.group i))) self.now.group.count }
    {
        let g = &self.group;
        held(&g.desks[..wide(g.count)]) - u64::from(g.desks[self.desk].kept())
    }

    // The smallest of the card's three numbers.
    pub fn may_use(&self) -> u32
        ensures { result ≡ ceiling_of self.now.group self.now.desk }
    {
        let d = self.group.desks[self.desk];
        let rest = u64::from(self.group.pool) - u64::from(d.used) - self.others();
        // No more than the pool is left, so it fits: `try_from` would say that it may not.
        Counters::VISITS.min(d.cap - d.used).min(rest as u32)
    }

    // Visits that a query at the desk made, within its ceiling.
    pub fn charge(mut self, visits: u32) -> Self
        requires { visits ≤ ceiling_of self.group self.desk }
        ensures { result ≡ record { group = charged self.group self.desk visits; desk = self.desk } }
    {
        let desk = &mut self.group.desks[self.desk];
        desk.used += visits;
        self
    }
}

// What the queries of a file are charged to: nothing, and each has the visits of a query alone; or a desk. No Option of
// a seat: the methods are this type's, and `Open` says what None would leave to be guessed.
#[derive(Clone, Copy)]
pub enum Account {
    Open,
    At(Seat),
}

impl Account {
    ghost use Rattle.cabinet.specs.Accounts.{ceiling_in, charged_to, group_in};

    // The ceiling of the next query.
    pub fn next_ceiling(&self) -> u32
        ensures { result ≡ ceiling_in self.now }
    {
        match self {
            Account::Open => Counters::VISITS,
            Account::At(seat) => seat.may_use(),
        }
    }

    // The account with the visits of a query, within its ceiling.
    pub fn charge(self, visits: u32) -> Self
        requires { visits ≤ ceiling_in self }
        ensures { result ≡ charged_to self visits }
    {
        match self {
            Account::Open => self,
            Account::At(seat) => Account::At(seat.charge(visits)),
        }
    }

    // The group that is charged, or no desks.
    pub fn group(self) -> Group
        ensures { result ≡ group_in self }
    {
        match self {
            Account::Open => Group::no_desks(),
            Account::At(seat) => seat.group(),
        }
    }
}
