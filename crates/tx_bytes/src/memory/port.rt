//! A port in memory.

ghost use Rattle.std.specs.Prelude.{◌≡◌, ℕ, ◌<◌, ◌≤◌, ◌↔◌, length, true, vec_len, IsTrue, IfOk, OnOk};
ghost use Rattle.std.specs.Vec.{vec_capacity};
ghost use Rattle.tx_bytes.specs.Ports.{AfterBind, AfterAccept, TakesBack};
ghost use Rattle.tx_bytes.specs.Memory.{tells_of, port_tells_of, is_failing, after_bind, after_done, Accepts, IsNew, IsNewPort};

use super::failures::Failures;
use super::link::MemLink;
use crate::{Bound, Knock, Port};
use std::alloc::{AllocError, Global};
use std::marker::Model;

/// A link to come: the bytes that will be left to read of it, and the numbers of its calls that fail.
#[derive(Debug, Drop)]
pub struct LinkPlan {
    pub bytes: Vec<u8>,
    pub failing: Vec<u64>,
}

impl Model for LinkPlan {
    ghost use Rattle.tx_bytes.specs.Memory.{LinkToCome};

    ghost Value = { LinkToCome };

    ghost view = { λ l. record { bytes = l.bytes.items; failing = l.failing.items } };
}

/// A port in memory, of which chosen calls fail. Its bindings and waits are counted together, from 0;
/// links that come back aren't counted.
#[derive(Debug, Drop)]
pub struct MemPort {
    links: Vec<LinkPlan>,
    handed: usize,
    is_bound: bool,
    is_closed: bool,
    back: Vec<MemLink>,
    failures: Failures,
}

impl Model for MemPort {
    ghost use Rattle.std.specs.Prelude.{vec_len};
    ghost use Rattle.std.specs.Vec.{vec_capacity};
    ghost use Rattle.tx_bytes.specs.Memory.{HeldPort, KeepsRoom};

    ghost Value = { HeldPort };

    ghost view = { λ p. record { plan = p.failures; links = p.links.items; handed = p.handed; is_bound = p.is_bound; is_closed = p.is_closed; back = p.back.items } };

    ghost invariant = { λ p. KeepsRoom (vec_len p.links) p.handed (vec_len p.back) (vec_capacity p.back) p.is_closed };
}

impl MemPort {
    /// A port that will hand out these links in their order, of which the calls with these numbers
    /// fail.
    pub fn new(alloc: Global, links: Vec<LinkPlan>, failing: Vec<u64>) -> Self
        ensures { IsNewPort links.items failing.items result }
    {
        MemPort {
            links,
            handed: 0,
            is_bound: false,
            is_closed: false,
            back: Vec::new(alloc),
            failures: Failures::new(failing),
        }
    }

    /// How many calls failed.
    pub fn faults(&self) -> u64
        ensures { result ≡ self.now.plan.faults }
    {
        self.failures.faults()
    }

    /// How many links were handed out.
    pub fn handed(&self) -> usize
        ensures { result ≡ self.now.handed }
    {
        self.handed
    }

    /// The links that came back, in the order in which they came.
    pub fn back(&self) -> &[MemLink]
        ensures { result.now ≡ self.now.back }
    {
        self.back.as_slice()
    }

    // Hands out the next link, and makes the room for its coming back.
    fn hand_out(&mut self) -> Knock<MemLink>
        ensures accepts { Accepts self.old result self.new }
        ensures fails { (result ≡ Knock.Failed) ↔ IsTrue (is_failing self.old.plan) }
    {
        if self.failures.fails() {
            return Knock::Failed;
        }
        if self.handed == self.links.len() {
            self.is_closed = true;
            return Knock::Closed;
        }
        if make_room(&mut self.back, self.handed + 1).is_err() {
            return Knock::Memory;
        }
        match make_link(&self.links[self.handed]) {
            Ok(link) => {
                self.handed += 1;
                Knock::Link(link)
            }
            Err(_) => Knock::Memory,
        }
    }
}

// The link as new.
fn make_link(plan: &LinkPlan) -> Result<MemLink, AllocError>
    ensures { IfOk result (λ link. IsNew plan.now.bytes plan.now.failing link) }
{
    let alloc = *plan.bytes.allocator();
    let bytes = Vec::from_slice(alloc, &plan.bytes)?;
    let failing = Vec::from_slice(alloc, &plan.failing)?;
    Ok(MemLink::new(bytes, failing))
}

// Makes room for so many links in all.
fn make_room(back: &mut Vec<MemLink>, count: usize) -> Result<(), AllocError>
    requires { vec_len back.old ≤ count }
    ensures items { back.new.items ≡ back.old.items }
    ensures kept { vec_capacity back.old ≤ vec_capacity back.new }
    ensures room { OnOk result (count ≤ vec_capacity back.new) }
{
    let missing = count - back.len();
    back.reserve(missing)?;
    Ok(())
}

impl Port for MemPort {
    type L = MemLink;

    ghost tells = { port_tells_of };

    fn bind(&mut self, _number: u16) -> Bound
        ensures told { AfterBind (port_tells_of self.old) result (port_tells_of self.new) }
        ensures after { self.new ≡ after_bind self.old result }
        ensures fails { (result ≡ Bound.Failed) ↔ IsTrue (is_failing self.old.plan) }
    {
        if self.failures.fails() {
            return Bound::Failed;
        }
        self.is_bound = true;
        Bound::Ready
    }

    fn accept(&mut self) -> Knock<MemLink>
        requires { (port_tells_of self.old).is_bound ≡ true }
        ensures told { AfterAccept tells_of (port_tells_of self.old) result (port_tells_of self.new) }
        ensures accepts { Accepts self.old result self.new }
        ensures fails { (result ≡ Knock.Failed) ↔ IsTrue (is_failing self.old.plan) }
    {
        self.hand_out()
    }

    fn done(&mut self, link: MemLink)
        requires { length (port_tells_of self.old).back < (port_tells_of self.old).handed }
        ensures told { TakesBack (port_tells_of self.old) (tells_of link) (port_tells_of self.new) }
        ensures after { self.new ≡ after_done self.old link }
    {
        let _ = self.back.push(link);
    }
}
