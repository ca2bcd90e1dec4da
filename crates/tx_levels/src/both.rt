//! Both sides.

ghost use Rattle.std.specs.Prelude.{◌≡◌, ◌+◌, length, IfOk};
ghost use Rattle.std.specs.List.{fold};
ghost use Rattle.tx_eqtb.specs.Meanings.{meanings};
ghost use Rattle.tx_eqtb.specs.Tables.{now};
ghost use Rattle.tx_levels.specs.Wholes.{leads, integer_of};
ghost use Rattle.tx_levels.specs.Levels.{at_start};
ghost use Rattle.tx_levels.specs.Calls.{after};
ghost use Rattle.tx_levels.specs.Agreement.{Agrees};

use crate::call::Call;
use crate::ends::{abandon_all, end_group, keep_all, undo_all};
use crate::levels::WholeLevels;
use crate::whole::integer;
use std::alloc::{AllocError, Global};
use std::marker::Model;
use tx_eqtb::{Addr, Frozen, Meaning, Overlay};
use tx_save::{GroupKind, SaveRefused, SaveStack};

/// A table with its save stack, and the list of whole maps that they stand for.
#[derive(Drop)]
pub struct Both {
    over: Overlay<u8>,
    groups: SaveStack<u8>,
    levels: WholeLevels,
}

impl Model for Both {
    ghost use Rattle.std.specs.Prelude.{◌≡◌, ◌+◌, length};
    ghost use Rattle.tx_save.specs.Saves.{Fits};
    ghost use Rattle.tx_levels.specs.Agreement.{Sides, Agrees};

    ghost Value = { Sides };

    ghost view = { λ b. record { table = b.over; saves = b.groups; levels = b.levels } };

    ghost invariant = { λ b. Fits b.over b.groups × Agrees b.over b.groups b.levels × (b.groups.level ≡ length b.levels.outer + 1) };
}

impl Both {
    /// Nothing is set, and no group is open.
    pub fn new(alloc: Global) -> Self
        ensures { result.levels ≡ at_start }
    {
        Both {
            over: Overlay::new(alloc),
            groups: SaveStack::new(alloc),
            levels: WholeLevels::new(alloc),
        }
    }

    /// The table with its save stack stands for the list of whole maps, one for each level.
    pub fn agrees(&self)
        ensures maps { Agrees self.now.table self.now.saves self.now.levels }
        ensures level { self.now.saves.level ≡ length self.now.levels.outer + 1 }
    {
        let _ = &self.levels;
    }

    /// A group begins, unless the level is 255.
    fn begin(self) -> Result<Self, AllocError>
        ensures { IfOk result (λ both. both.levels ≡ after Call.Begin self.levels) }
    {
        let Both {
            over,
            mut groups,
            levels,
        } = self;
        match groups.begin(GroupKind::Simple) {
            Ok(()) => {
                Ok(Both {
                    over,
                    groups,
                    levels: levels.begin()?,
                })
            }
            Err(SaveRefused::GroupsFull) => {
                Ok(Both {
                    over,
                    groups,
                    levels,
                })
            }
            Err(SaveRefused::Memory) => Err(AllocError),
        }
    }

    /// An address is set.
    fn assign(self, at: Addr, n: i32, global: bool) -> Result<Self, AllocError>
        ensures { IfOk result (λ both. both.levels ≡ after (Call.Assign at n global) self.levels) }
    {
        let Both {
            mut over,
            mut groups,
            levels,
        } = self;
        match groups.assign(&mut over, at, Meaning::Int(n), global) {
            Ok(_) => {
                Ok(Both {
                    over,
                    groups,
                    levels: levels.assign(at, n, global)?,
                })
            }
            Err(_) => Err(AllocError),
        }
    }

    /// The innermost group ends, if one is open.
    fn close(self) -> Result<Self, AllocError>
        ensures { IfOk result (λ both. both.levels ≡ after Call.Close self.levels) }
    {
        let Both {
            mut over,
            mut groups,
            levels,
        } = self;
        if groups.level() == 1 {
            return Ok(Both {
                over,
                groups,
                levels,
            });
        }
        end_group(&mut over, &mut groups);
        match levels.close() {
            Some(levels) => {
                Ok(Both {
                    over,
                    groups,
                    levels,
                })
            }
            None => unreachable!(),
        }
    }

    /// The region is kept, if no group is open.
    fn keep(self) -> Result<Self, AllocError>
        ensures { IfOk result (λ both. both.levels ≡ after Call.Keep self.levels) }
    {
        let Both {
            mut over,
            groups,
            levels,
        } = self;
        if groups.level() != 1 {
            return Ok(Both {
                over,
                groups,
                levels,
            });
        }
        keep_all(&mut over);
        Ok(Both {
            over,
            groups,
            levels: levels.keep()?,
        })
    }

    /// The region is undone, and all groups are given up.
    fn undo(self) -> Result<Self, AllocError>
        ensures { IfOk result (λ both. both.levels ≡ after Call.Undo self.levels) }
    {
        let Both {
            mut over,
            mut groups,
            levels,
        } = self;
        undo_all(&mut over);
        abandon_all(&mut groups);
        Ok(Both {
            over,
            groups,
            levels: levels.undo()?,
        })
    }

    /// The integer that an address means now by the table, if it means one.
    pub fn integer(&self, frozen: &Frozen<u8>, at: Addr) -> Option<i32>
        ensures { result ≡ integer_of (now (meanings frozen.now) self.now.table at) }
    {
        integer(self.over.get(frozen, at))
    }

    /// The integer that it means by the list of whole maps, if it means one.
    pub fn listed(&self, frozen: &Frozen<u8>, at: Addr) -> Option<i32>
        ensures { result ≡ integer_of (leads self.now.levels.innermost (meanings frozen.now) at) }
    {
        self.levels.integer(frozen, at)
    }

    /// Both sides go through a call. The only error is want of memory, and then both are gone.
    pub fn step(self, call: Call) -> Result<Self, AllocError>
        ensures { IfOk result (λ both. both.levels ≡ after call self.levels) }
    {
        match call {
            Call::Begin => self.begin(),
            Call::Assign(at, n, global) => self.assign(at, n, global),
            Call::Close => self.close(),
            Call::Keep => self.keep(),
            Call::Undo => self.undo(),
        }
    }

    /// Both sides go through a script. The only error is want of memory, and then both are gone.
    pub fn play(self, calls: &[Call]) -> Result<Self, AllocError>
        ensures { IfOk result (λ both. both.levels ≡ fold (λ levels call. after call levels) self.levels calls.now) }
    {
        let mut both = self;
        for call in calls {
            both = both.step(*call)?;
        }
        Ok(both)
    }
}
