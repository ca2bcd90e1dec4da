//! The list of whole maps.

ghost use Rattle.std.specs.Prelude.{◌≡◌, [], ◌∷◌, map, IfOk, IfSome, IfNone};
ghost use Rattle.tx_eqtb.specs.Meanings.{meanings};
ghost use Rattle.tx_levels.specs.Wholes.{leads, changed, integer_of};
ghost use Rattle.tx_levels.specs.Levels.{at_start, begun, assigned, kept, undone};

use crate::whole::WholeMap;
use std::alloc::{AllocError, Global};
use std::marker::Model;
use tx_eqtb::{Addr, Frozen};

/// Whole maps, one for each open level, and the one before the region. Each call takes them and hands the
/// next ones back; where memory is wanting they are gone.
#[derive(Drop)]
pub struct WholeLevels {
    innermost: WholeMap,
    outer: Vec<WholeMap>,
    first: WholeMap,
}

impl Model for WholeLevels {
    ghost use Rattle.std.specs.Prelude.{reverse};
    ghost use Rattle.tx_levels.specs.Levels.{Levels};

    ghost Value = { Levels };

    ghost view = { λ l. record { innermost = l.innermost; outer = reverse l.outer.items; first = l.first } };
}

impl WholeLevels {
    /// Nothing is set, and no group is open.
    pub fn new(alloc: Global) -> Self
        ensures { result ≡ at_start }
    {
        WholeLevels {
            innermost: WholeMap::new(alloc),
            outer: Vec::new(alloc),
            first: WholeMap::new(alloc),
        }
    }

    /// A group begins. The only error is want of memory.
    pub fn begin(self) -> Result<Self, AllocError>
        ensures { IfOk result (λ levels. levels ≡ begun self) }
    {
        let WholeLevels {
            innermost,
            mut outer,
            first,
        } = self;
        let copy = innermost.copy()?;
        outer.push(innermost)?;
        Ok(WholeLevels {
            innermost: copy,
            outer,
            first,
        })
    }

    /// An address is set, in the innermost map or, where `global`, in all. The only error is want of memory.
    pub fn assign(self, at: Addr, n: i32, global: bool) -> Result<Self, AllocError>
        ensures { IfOk result (λ levels. levels ≡ assigned global at n self) }
    {
        let WholeLevels {
            innermost,
            outer,
            first,
        } = self;
        let innermost = innermost.set(at, n)?;
        if global {
            return Ok(WholeLevels {
                innermost,
                outer: set_all(outer, at, n)?,
                first,
            });
        }
        Ok(WholeLevels {
            innermost,
            outer,
            first,
        })
    }

    /// A group ends. None comes exactly where none is open.
    pub fn close(self) -> Option<Self>
        ensures none { IfNone result (self.outer ≡ []) }
        ensures some { IfSome result (λ levels. (self.outer ≡ levels.innermost ∷ levels.outer) × (levels.first ≡ self.first)) }
    {
        let WholeLevels {
            innermost: _,
            mut outer,
            first,
        } = self;
        let innermost = outer.pop()?;
        Some(WholeLevels {
            innermost,
            outer,
            first,
        })
    }

    /// The next region begins with the innermost map. The only error is want of memory.
    pub fn keep(self) -> Result<Self, AllocError>
        ensures { IfOk result (λ levels. levels ≡ kept self) }
    {
        let WholeLevels {
            innermost,
            outer,
            first: _,
        } = self;
        let first = innermost.copy()?;
        Ok(WholeLevels {
            innermost,
            outer,
            first,
        })
    }

    /// The map before the region is the only one again. The only error is want of memory.
    pub fn undo(self) -> Result<Self, AllocError>
        ensures { IfOk result (λ levels. levels ≡ undone self) }
    {
        let WholeLevels {
            innermost: _,
            outer,
            first,
        } = self;
        let innermost = first.copy()?;
        Ok(WholeLevels {
            innermost,
            outer: Vec::new(*outer.allocator()),
            first,
        })
    }

    /// The integer that an address means in the innermost map, if it means one.
    pub fn integer(&self, frozen: &Frozen<u8>, at: Addr) -> Option<i32>
        ensures { result ≡ integer_of (leads self.now.innermost (meanings frozen.now) at) }
    {
        self.innermost.integer(frozen, at)
    }
}

/// Sets an address in all of these maps.
fn set_all(maps: Vec<WholeMap>, at: Addr, n: i32) -> Result<Vec<WholeMap>, AllocError>
    ensures { IfOk result (λ all. all.items ≡ map (λ whole. changed whole at n) maps.items) }
{
    let mut all = Vec::new(*maps.allocator());
    for whole in maps {
        all.push(whole.set(at, n)?)?;
    }
    Ok(all)
}
