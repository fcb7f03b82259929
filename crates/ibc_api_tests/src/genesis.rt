//! What a new chain commits, and lists of holdings of every kind, each judged by `is_allowed` and by comparing all pairs.

use ibc_ids::{Denom, UserName};
use ibc_ledger::is_allowed;
use ibc_machine::{ChainStart, Genesis};
use std::alloc::Global;
use std::process::Abort;

/// The root of a new chain: the SHA-256 of 01 and the two nodes of its tree, worked out apart from this code.
pub const GENESIS_ROOT: [u8; 32] = [
    0x74, 0x3e, 0x73, 0x34, 0x1e, 0x76, 0x49, 0xed, 0x2a, 0xa2, 0x72, 0x3b, 0xb1, 0x6e, 0x6c, 0x43,
    0xe4, 0xfd, 0x62, 0xa1, 0x60, 0x61, 0xf8, 0x0e, 0xa2, 0xa3, 0x79, 0x72, 0x78, 0x77, 0x68, 0xdd,
];

// How many holdings a list has.
const SIZES: [usize; 8] = [0, 1, 2, 3, 7, 8, 9, 100];

// How users and denominations stand in a list.
#[derive(Clone, Copy)]
enum Order {
    // by users, of three denominations
    Rising,
    // the same from the last user on
    Falling,
    // one user holds all denominations
    OneUser,
    // all users hold one denomination
    OneDenom,
}

// What is wrong with a holding.
#[derive(Clone, Copy)]
enum Fault {
    // it is of the user and the denomination of the one before it, or the first is of those of the last
    Twice,
    // its amount leaves no room for another one's
    TooMuch,
    // its denomination is no base one
    NoBase,
}

// The place of the holding that is at fault.
#[derive(Clone, Copy)]
enum Place {
    Nowhere,
    First,
    Second,
    Middle,
    Last,
}

// A kind of list.
#[derive(Clone, Copy)]
struct Kind {
    order: Order,
    size: usize,
    fault: Fault,
    place: Place,
}

impl Kind {
    // The index of the holding that is at fault, if there is one.
    fn fault_index(self) -> Option<usize> {
        match self.place {
            Place::Nowhere => None,
            Place::First => Some(0),
            Place::Second => Some(1),
            Place::Middle => Some(self.size / 2),
            Place::Last => Some(self.size.saturating_sub(1)),
        }
    }

    // The numbers of the user and of the denomination at an index, where nothing is wrong.
    fn fair_numbers(self, index: usize) -> (usize, usize) {
        match self.order {
            Order::Rising => (index, index % 3),
            Order::Falling => (self.size.saturating_sub(index), index % 3),
            Order::OneUser => (0, index),
            Order::OneDenom => (index, 0),
        }
    }

    // The numbers of the user and of the denomination that the holding at an index has.
    fn numbers(self, index: usize) -> (usize, usize) {
        let is_twice = self.fault_index() == Some(index) && matches!(self.fault, Fault::Twice);
        if !is_twice {
            return self.fair_numbers(index);
        }
        if index == 0 {
            return self.fair_numbers(self.size.saturating_sub(1));
        }
        self.fair_numbers(index - 1)
    }

    fn amount(self, index: usize) -> u128 {
        match self.fault {
            Fault::TooMuch if self.fault_index() == Some(index) => u128::MAX,
            _ => 1,
        }
    }

    fn has_base(self, index: usize) -> bool {
        match self.fault {
            Fault::NoBase => self.fault_index() != Some(index),
            _ => true,
        }
    }
}

// Names of three digits, so that they stand in the order of their numbers.
fn user(rt: &impl Abort, alloc: Global, number: usize) -> UserName {
    let text = format!(in alloc; "user{}", number.saturating_add(100)).expect(rt, "memory");
    let name = UserName::parse(alloc, text.as_str()).expect(rt, "a name");
    drop(text);
    name
}

fn base(rt: &impl Abort, alloc: Global, number: usize) -> Denom {
    let text = format!(in alloc; "token{}", number.saturating_add(100)).expect(rt, "memory");
    let name = Denom::parse(alloc, text.as_str()).expect(rt, "a denomination");
    drop(text);
    name
}

fn denom(rt: &impl Abort, alloc: Global, number: usize, is_base: bool) -> Denom {
    if is_base {
        base(rt, alloc, number)
    } else {
        Denom::parse(alloc, "transfer/channel-0/atom").expect(rt, "a denomination")
    }
}

// The holding at an index of a list of this kind.
fn holding(rt: &impl Abort, alloc: Global, kind: Kind, index: usize) -> (UserName, Denom, u128) {
    let (user_number, denom_number) = kind.numbers(index);
    let denom = denom(rt, alloc, denom_number, kind.has_base(index));
    (user(rt, alloc, user_number), denom, kind.amount(index))
}

fn holdings(rt: &impl Abort, alloc: Global, kind: Kind) -> Vec<(UserName, Denom, u128)> {
    let mut list = Vec::with_capacity(alloc, kind.size).expect(rt, "memory");
    for index in 0..kind.size {
        let pushed = list.push(holding(rt, alloc, kind, index));
        pushed.ok().expect(rt, "room");
    }
    list
}

// A genesis of two chains, on the first of which no one holds anything.
fn genesis(rt: &impl Abort, alloc: Global, balances: Vec<(UserName, Denom, u128)>) -> Genesis {
    let first = ChainStart {
        time: 100,
        balances: Vec::new(alloc),
    };
    let second = ChainStart {
        time: 100,
        balances,
    };
    Genesis {
        capacity: 64,
        window: 4,
        chains: vec![in alloc; first, second].expect(rt, "memory"),
    }
}

// Whether a holding is fair: the user holds the denomination, a base one, once, and all amounts of it fit 128 bits.
fn is_fair(holdings: &[(UserName, Denom, u128)], holding: &(UserName, Denom, u128)) -> bool {
    holding.1.is_base() && count_of(holdings, holding) == 1 && is_total_small(holdings, &holding.1)
}

fn count_of(holdings: &[(UserName, Denom, u128)], holding: &(UserName, Denom, u128)) -> usize {
    holdings
        .iter()
        .filter(|other| holding.0 == other.0 && holding.1 == other.1)
        .count()
}

fn is_total_small(holdings: &[(UserName, Denom, u128)], denom: &Denom) -> bool {
    let mut total: u128 = 0;
    for holding in holdings {
        if holding.1 == *denom {
            let Some(more) = total.checked_add(holding.2) else {
                return false;
            };
            total = more;
        }
    }
    true
}

// Whether all chains begin with fair holdings, each compared with all of its chain.
fn are_fair(chains: &[ChainStart]) -> bool {
    chains.iter().all(|start| {
        let holdings = start.balances.as_slice();
        holdings.iter().all(|holding| is_fair(holdings, holding))
    })
}

// Whether a genesis with a list of this kind is allowed, by both.
fn judge(rt: &impl Abort, alloc: Global, kind: Kind) -> bool {
    let genesis = genesis(rt, alloc, holdings(rt, alloc, kind));
    let allowed = is_allowed(&genesis);
    let fair = are_fair(genesis.chains.as_slice());
    drop(genesis);
    assert!(rt; allowed == fair);
    allowed
}

// How many lists are allowed, of those that have this order and this fault.
fn count_allowed(
    rt: &impl Abort,
    alloc: Global,
    order: Order,
    fault: Fault,
    place: Place,
) -> usize {
    let mut count: usize = 0;
    for size in SIZES {
        let kind = Kind {
            order,
            size,
            fault,
            place,
        };
        if judge(rt, alloc, kind) {
            count = count.saturating_add(1);
        }
    }
    count
}

// Whether so many are allowed of each order, wherever the fault is.
fn check_orders(rt: &impl Abort, alloc: Global, fault: Fault, place: Place, allowed: [usize; 4]) {
    assert!(rt; count_allowed(rt, alloc, Order::Rising, fault, place) == allowed[0]);
    assert!(rt; count_allowed(rt, alloc, Order::Falling, fault, place) == allowed[1]);
    assert!(rt; count_allowed(rt, alloc, Order::OneUser, fault, place) == allowed[2]);
    assert!(rt; count_allowed(rt, alloc, Order::OneDenom, fault, place) == allowed[3]);
}

#[test]
fn fair_holdings_are_allowed(rt: HostRuntime) {
    check_orders(&rt, rt.alloc(), Fault::Twice, Place::Nowhere, [8, 8, 8, 8]);
}

#[test]
fn one_holding_alone_stands_once(rt: HostRuntime) {
    for place in [Place::First, Place::Second, Place::Middle, Place::Last] {
        check_orders(&rt, rt.alloc(), Fault::Twice, place, [2, 2, 2, 2]);
    }
}

#[test]
fn a_greatest_amount_stands_alone(rt: HostRuntime) {
    for place in [Place::First, Place::Second, Place::Middle, Place::Last] {
        check_orders(&rt, rt.alloc(), Fault::TooMuch, place, [4, 4, 8, 2]);
    }
}

#[test]
fn all_denominations_are_base_ones(rt: HostRuntime) {
    check_orders(&rt, rt.alloc(), Fault::NoBase, Place::Second, [2, 2, 2, 2]);
    for place in [Place::First, Place::Middle, Place::Last] {
        check_orders(&rt, rt.alloc(), Fault::NoBase, place, [1, 1, 1, 1]);
    }
}
