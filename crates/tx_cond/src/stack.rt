//! The conditionals that are open.

ghost use Rattle.std.specs.Prelude.{◌≡◌, ◌<◌, ◌-◌, ◌∷◌, ◌++◌, ◌↔◌, [], length, slice_get, slice_set, OnOk, OnErr};
ghost use Rattle.std.specs.Option.{option_copied, option_to_list};

use std::alloc::Global;
use std::marker::Model;

/// How many conditionals may be open.
const OPEN_LIMIT: usize = 500;

/// An open conditional.
#[derive(Clone, Copy, Debug, PartialEq, Eq)]
pub struct Cond {
    /// The place of its primitive.
    pub prim: u16,
    /// The number of the line where it stood.
    pub line: u32,
    /// Whether `\or` may come.
    pub or: bool,
    /// Whether `\else` may come.
    pub els: bool,
    /// Whether `\fi` may come.
    pub fi: bool,
}

/// Why a conditional isn't opened.
#[derive(Clone, Copy, Debug, PartialEq, Eq)]
pub enum CondRefused {
    /// 500 are open.
    Full,
    /// Memory was wanting.
    Memory,
}

/// The open conditionals, at most 500. A contract sees their list, the innermost one last.
#[derive(Debug, Drop)]
pub struct CondStack {
    open: Vec<Cond>,
}

impl Model for CondStack {
    ghost use Rattle.std.specs.Prelude.{List, ◌≤◌, length};
    ghost use Rattle.tx_cond.specs.declared.stack.Cond.{Cond};

    ghost Value = { List Cond };

    ghost view = { λ s. s.open.items };

    ghost invariant = { λ s. length s.open.items ≤ 500 };
}

impl CondStack {
    /// No conditional is open.
    pub fn new(alloc: Global) -> Self
        ensures { result ≡ [] }
    {
        CondStack {
            open: Vec::new(alloc),
        }
    }

    /// Opens a conditional within those that are open. `Full` comes exactly where 500 are open, else
    /// `Memory` where memory is wanting; either leaves them as they were. *TeX: The Program*,
    /// section 495.
    pub fn push(&mut self, c: Cond) -> Result<(), CondRefused>
        ensures ok { OnOk result (self.new ≡ self.old ++ c ∷ []) }
        ensures full { (result ≡ Err CondRefused.Full) ↔ (length self.old ≡ 500) }
        ensures err { OnErr result (self.new ≡ self.old) }
    {
        if self.open.len() >= OPEN_LIMIT {
            return Err(CondRefused::Full);
        }
        match self.open.push(c) {
            Ok(()) => Ok(()),
            Err(_) => Err(CondRefused::Memory),
        }
    }

    /// The innermost open conditional. None comes exactly where none is open.
    pub fn last(&self) -> Option<&Cond>
        ensures { option_copied result ≡ slice_get self.now (length self.now - 1) }
    {
        self.open.last()
    }

    /// Closes the innermost open conditional and gives it. None comes exactly where none is open.
    /// *TeX: The Program*, section 496.
    pub fn pop(&mut self) -> Option<Cond>
        ensures value { result ≡ slice_get self.old (length self.old - 1) }
        ensures rest { self.old ≡ self.new ++ option_to_list result }
    {
        self.open.pop()
    }

    /// Puts another conditional in the place of the innermost open one.
    pub fn replace(&mut self, c: Cond)
        requires { 0 < length self.old }
        ensures { self.new ≡ slice_set self.old (length self.old - 1) c }
    {
        let innermost = self.open.len() - 1;
        self.open[innermost] = c;
    }
}

#[cfg(test)]
mod tests {
    use super::*;
    use std::test::Fail;

    fn at_line(line: u32) -> Cond {
        Cond {
            prim: 3,
            line,
            or: false,
            els: true,
            fi: true,
        }
    }

    #[test]
    fn five_hundred(rt: HostRuntime) -> Result<(), Fail> {
        let mut stack = CondStack::new(rt.alloc());
        assert!(rt; stack.last().is_none());
        assert!(rt; stack.pop().is_none());
        for line in 0..500 {
            assert!(rt; stack.push(at_line(line)).is_ok());
        }
        assert!(rt; stack.push(at_line(500)) == Err(CondRefused::Full));
        assert!(rt; stack.last().copied() == Some(at_line(499)));
        assert!(rt; stack.pop() == Some(at_line(499)));
        assert!(rt; stack.last().copied() == Some(at_line(498)));
        if stack.last().is_some() {
            stack.replace(at_line(7));
        }
        assert!(rt; stack.pop() == Some(at_line(7)));
        assert!(rt; stack.pop() == Some(at_line(497)));
        Ok(())
    }
}
